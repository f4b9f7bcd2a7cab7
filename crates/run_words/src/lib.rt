//! The words of the command line, and the run that they ask for.
#![tactic(auto)]

mod fault;
mod files;
mod given;
mod laws;
mod name;
mod numbers;
mod paths;
mod run;
mod values;

pub use fault::WordsFault;
pub use files::{DdPaths, UnitPaths};
pub use given::Given;
pub use laws::one_run;
pub use name::{NAMES, Name};
pub use run::{Run, read_words};
