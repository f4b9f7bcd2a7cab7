//! How many runs of free tracks a volume has once an extent went from one run to another.
#![tactic(auto)]

mod count;

pub use count::runs_after;
