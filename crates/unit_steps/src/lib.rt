//! What makes a step: which changes and copies are planned for it, and that they take the units that a pool stands for by that step.
#![tactic(auto)]

mod laws;
mod plan;

pub use laws::{copying_laws, switching_laws};
pub use plan::{Changes, Plan, Tracks};
pub use unit_change;
pub use unit_change::{render_laws, vtoc_render};
