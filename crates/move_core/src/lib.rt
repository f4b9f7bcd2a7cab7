//! What the blocks of a pool stand for, and the steps that change it.
#![tactic(auto)]

mod laws;
mod steps;

pub use dd_names::DdName;
pub use laws::{online_laws, resuming_laws, running_laws, standing_laws};
pub use steps::{Dsn, Origin, Runs, Step};
