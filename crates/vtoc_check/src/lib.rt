//! The check of a VTOC: the lowest place that breaks a rule (DFSMSdfp Advanced Services, VTOC and DSCBs).
#![tactic(auto)]

mod by_record;
mod chain;
mod check;
mod directory;
mod dscb;
mod fault;
mod five_rule;
mod fives;
mod free;
mod front;
mod lowest;
mod names;
mod overlaps;
mod pointer_rule;
mod pointers;
mod reach;
mod read;
mod reading;
mod rows;
mod space;
mod tracks;

pub use chain::chain_at;
pub use check::{check_vtoc, lowest_breach};
pub use directory::Directory;
pub use fault::VtocFault;
pub use five_rule::{count_fives, first_index, is_format_5, mark_targets};
pub use free::used_runs;
pub use front::vtoc_run;
pub use names::name_of;
pub use read::read_tracks;
pub use reading::Found;
pub use rows::{SetExtents, data_sets, extents_of_set};
pub use space::{all_entries, all_extents, usable_tracks};
