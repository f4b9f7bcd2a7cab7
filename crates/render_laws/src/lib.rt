//! A volume after a change of its VTOC was written (DFSMSdfp Advanced Services, VTOC and DSCBs).
#![tactic(auto)]

mod laws;

pub use laws::render_laws;
