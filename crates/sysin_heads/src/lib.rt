//! The lines SET and IF of a SYSIN text.
#![tactic(auto)]

mod head;
mod laws;
mod reading;

pub use head::{Head, HeadPlace};
pub use laws::head_laws;
pub use reading::HeadReading;
