//! The data sets of a dump, one part after the other, and which of them a filter takes (DFSMSdss Storage Administration, RESTORE, filtering).
#![tactic(auto)]

mod laws;
mod parts;
mod survey;
mod taken;

pub use dump_read;
pub use laws::part_laws;
pub use parts::{NextTrack, PartHead, next_part, next_track, pass_part};
pub use survey::{Survey, look_through};
