//! Steps of a statement over a session: each is planned, carried out, and kept in the list of the run's steps.
#![tactic(auto)]

mod cut;
mod giving;
mod steps;

pub use cut::Cut;
pub use giving::Giving;
pub use steps::{Attempt, carry_out, try_plan};
pub use unit_session;
