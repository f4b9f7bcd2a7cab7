//! The layout of a VTOC that breaks no rule, and its parts as they are found (DFSMSdfp Advanced Services, VTOC and DSCBs).
#![tactic(auto)]

mod fives;
mod free;
mod laws;
mod linked;
mod sets;

pub use fives::fives_in_directory;
pub use free::free_places;
pub use laws::sound_laws;
pub use sets::{SetRecords, records_of_set};
