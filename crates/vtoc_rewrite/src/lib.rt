//! A VTOC whose tracks are written anew (DFSMSdfp Advanced Services, VTOC).
#![tactic(auto)]

mod laws;

pub use laws::rewrite_laws;
