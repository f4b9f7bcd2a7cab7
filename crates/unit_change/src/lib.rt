//! What a change of a volume's VTOC makes of the unit (DFSMSdfp Advanced Services, VTOC and DSCBs).
#![tactic(auto)]

mod laws;

pub use laws::{changed_laws, loaded_laws};
pub use vtoc_render;
pub use vtoc_render::render_laws;
