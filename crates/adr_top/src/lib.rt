//! One run of `adrdssu`: words and texts in, lines and a status out (DFSMSdss Storage Administration).
#![tactic(auto)]

mod agreement;
mod format;
mod jobs;
mod lists;
mod runner;
mod texts;

pub use job_script;
pub use lists::{Day, InDd, OutDd, OutState};
pub use move_core::{DdName, Dsn, Origin, Runs, Step};
pub use run_words::{DdPaths, Run, UnitPaths, WordsFault, read_words};
pub use runner::{Ended, batch};
