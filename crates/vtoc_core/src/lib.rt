//! A volume in memory, as its VTOC says it (DFSMSdfp Advanced Services, VTOC and DSCBs).
#![tactic(auto)]

mod edit;
mod names;
mod run;
mod volume;

pub use edit::put_entries;
pub use names::{dsn_of, is_named};
pub use run::run_of;
pub use volume::{Extents, Row, Rows, Volume};
