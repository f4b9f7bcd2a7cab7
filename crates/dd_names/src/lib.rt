//! The names by which jobs name the files of dumps.
#![tactic(auto)]

mod dd;

pub use dd::DdName;
