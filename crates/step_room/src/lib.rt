//! The room that a VTOC has for a change, as it was loaded and as its volume is.
#![tactic(auto)]

mod laws;

pub use laws::room_laws;
pub use step_plans;
pub use step_plans::{unit_change, unit_steps, vtoc_render};
