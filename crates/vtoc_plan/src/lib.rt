//! What a change writes over the records of a VTOC, by the places that they were allotted (DFSMSdfp Advanced Services, VTOC and DSCBs).
#![tactic(auto)]

mod laws;

pub use laws::{holding_laws, plan_laws};
