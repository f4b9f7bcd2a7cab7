//! A change of a VTOC: the tracks that change, and the volume after it (DFSMSdfp Advanced Services, VTOC and DSCBs).
#![tactic(auto)]

mod aim;
mod change;
mod edits;
mod four;
mod ground;
mod laws;
mod mark;
mod next;
mod put;
mod set;
mod space;

pub use change::{Rendered, render};
pub use laws::loading_laws;
pub use render_laws;
