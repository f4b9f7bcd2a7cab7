//! What holds of runs, by what their contract says of them.
#![tactic(auto)]

mod laws;

pub use laws::run_laws;
