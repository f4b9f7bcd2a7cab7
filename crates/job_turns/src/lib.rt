//! What statements share: the units that they name, the data sets that a filter takes, and what a statement did and said so far.
#![tactic(auto)]

mod log;
mod selecting;
mod stating;
mod units;

pub use job_acts;
pub use job_acts::job_steps;
pub use job_copies;
pub use log::{Log, say, say_all};
pub use selecting::taken;
pub use stating::{push_rebuilt, push_repair};
pub use units::{UnitUse, find, unit_for, units_for};
