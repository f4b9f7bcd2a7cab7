//! Steps have at most one outcome.
#![tactic(auto)]

mod laws;

pub use laws::step_laws;
