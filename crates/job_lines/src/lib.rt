//! What a run says: messages, and the lines that print them (DFSMSdss Storage Administration, messages).
#![tactic(auto)]

mod line;
mod message;
mod names;
mod severity;
mod texts;
mod words;

pub use line::line_of;
pub use message::{ExtentSummary, InputFlaw, Message, Reason, SetSummary, VolumeSummary};
pub use names::{printed_byte, trimmed};
pub use severity::Severity;
