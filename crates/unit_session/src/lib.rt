//! Sessions: the volumes over an open journal, as they were loaded, and the steps that change them.
#![tactic(auto)]

mod copies;
mod copying;
mod fault;
mod giving;
mod load;
mod patching;
mod planned;
mod rendering;
mod session;
mod texts;

pub use copies::{Copies, GivenTracks, TextMove, tracks_of};
pub use fault::{Broken, PlanFault, PlanStop};
pub use planned::{Copied, Planned};
pub use session::{Session, SessionParts};
pub use unit_steps;
pub use unit_steps::vtoc_render;
