//! How a statement ended.

use crate::report::Report;
use dasd_pool::Pool;
use dump_fmt::OutDd;
use dump_sets::job_turns::job_steps::unit_session::{Broken, Session};
use move_core::Step;

/// How a statement ended: it was done, its pool failed, or memory ran out. The outputs come back. The steps are those of the run before it, and behind them those
/// that it did.
#[derive(Drop)]
pub enum Outcome<P: Pool> {
    Done {
        session: Session<P>,
        outs: Vec<OutDd>,
        report: Report,
        steps: Vec<Step>,
    },
    /// The pool that failed knows which step was under way.
    Halted {
        broken: Broken<P>,
        outs: Vec<OutDd>,
        report: Report,
        steps: Vec<Step>,
    },
    Short {
        session: Session<P>,
        outs: Vec<OutDd>,
        report: Report,
        steps: Vec<Step>,
    },
}
