//! The DSCBs that a change of a VTOC writes (DFSMSdfp Advanced Services, DSCB formats).
#![tactic(auto)]

mod format_1;
mod format_3;
mod format_4;
mod format_5;
mod pointer;
mod slot;

pub use format_1::format_1_with;
pub use format_3::format_3_with;
pub use format_4::{marked_format_4, stated_format_4};
pub use format_5::format_5_with;
