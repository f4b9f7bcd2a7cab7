//! Loading a volume from any VTOC (DFSMSdfp Advanced Services, VTOC and DSCBs).
#![tactic(auto)]

mod laws;
mod load;
mod rows;
mod space;

pub use laws::{chain_laws, count_laws};
pub use load::load_vtoc;
