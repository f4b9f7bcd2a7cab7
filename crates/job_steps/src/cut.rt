//! A statement that ends before its time.

use dasd_pool::Pool;
use unit_session::{Broken, Session};

/// A statement that was cut: its pool failed, or memory ran out while no step was under way.
#[derive(Drop)]
pub enum Cut<P: Pool> {
    Halted(Broken<P>),
    Short(Session<P>),
}
