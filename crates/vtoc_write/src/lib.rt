//! The tracks of a VTOC of which some records get other bytes (DFSMSdfp Advanced Services, VTOC).
#![tactic(auto)]

mod blocks;
mod edits;
mod laws;
mod track;

pub use blocks::{Block, Blocks, changed_tracks};
pub use laws::edit_laws;
