//! What a dump of data sets is made of, on the volumes as they were loaded: why a data set isn't dumped, and its part on the outputs (DFSMSdss Storage
//! Administration, DUMP DATASET).
#![tactic(auto)]

mod judging;
mod parts;
mod pass;
mod texts;
mod wish;

pub use job_turns;
pub use pass::{DumpScene, put_parts};
pub use wish::DumpWish;
