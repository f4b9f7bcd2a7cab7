//! The promise of a run over settled units: that it can be met, and what it says of a stop of a pool in memory.
#![tactic(auto)]

mod looked;
mod made;
mod stopped;
#[cfg(test)]
mod tests;

pub use made::make_and_list;
pub use stopped::{Ran, Resumed, Stopped, run, run_again, run_and_stop};
