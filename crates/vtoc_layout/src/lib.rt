//! What the records of a VTOC are used for (DFSMSdfp Advanced Services, VTOC and DSCBs).
#![tactic(auto)]

mod laws;

pub use laws::{five_laws, layout_laws};
