//! Where data sets go, and how much of one stays, as commands plan it from a volume in memory (DFSMSdss Storage Administration,
//! CONSOLIDATE and RELEASE).
#![tactic(auto)]

mod consolidate;
mod extents;
mod laws;
mod release;

pub use consolidate::{next_consolidate, place_for};
pub use extents::count_tracks;
pub use laws::release_laws;
pub use release::release_of;
