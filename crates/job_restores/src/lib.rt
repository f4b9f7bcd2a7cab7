//! What is asked of a part of a dump before it is restored, on the volume as it was loaded: why it isn't, and where it stands (DFSMSdss Storage
//! Administration, RESTORE DATASET).
#![tactic(auto)]

mod places;
mod restoring;
mod wish;

pub use dump_parts;
pub use job_turns;
pub use restoring::Restoring;
pub use wish::RestoreWish;
