//! The DSCBs that a change of a VTOC writes, each at its place (DFSMSdfp Advanced Services, VTOC and DSCBs).
#![tactic(auto)]

mod fives;
mod highest;
mod pointer;
mod set;

pub use fives::{fives_for, fives_with};
pub use highest::highest_after;
pub use pointer::pointer_to;
pub use set::{SetWritten, set_with};
