//! What a run reads and prints of its own: whole texts, and lines that take no memory.
#![tactic(auto)]

mod ending;
mod line;
mod reading;
mod writing;

pub use ending::{Input, RunEnd};
pub use line::Line;
pub use reading::{MOST_BYTES, TextFault, read_text};
pub use writing::{close, tell, tell_behind, write_all};
