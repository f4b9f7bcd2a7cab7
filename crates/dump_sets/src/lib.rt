//! DUMP DATASET: the data sets that a filter takes are dumped, and count as dumped or go, where that is asked (DFSMSdss Storage Administration, DUMP).
#![tactic(auto)]

mod changing;
mod dumping;
mod telling;
mod writing;

pub use dumping::{DumpJob, dump};
pub use job_dumps;
pub use job_dumps::{DumpWish, job_turns};
pub use job_outputs;
