//! Which records a change of a VTOC keeps, takes and gives back.
#![tactic(auto)]

mod held;
mod places;
mod pool;

pub use held::{Held, Wanted};
pub use places::{Allotment, allot};
