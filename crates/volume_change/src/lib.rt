//! What a change of a volume's data sets leaves in memory: its rows and its free tracks (DFSMSdfp Advanced Services, VTOC and DSCBs).
#![tactic(auto)]

mod change;
mod laws;
mod name;
mod rows;
mod space;
mod spot;

pub use change::Change;
pub use laws::{name_laws, spot_laws};
pub use name::name_bytes;
pub use rows::{copy_row, rows_after};
pub use space::{extents_runs, free_after};
pub use spot::{Spot, find, spot_of};
