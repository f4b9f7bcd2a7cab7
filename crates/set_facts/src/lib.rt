//! What commands ask of a data set beside its tracks: its facts for criteria, its expiry, its kind of space, and whether it is selected.
#![tactic(auto)]

mod facts;
mod selection;

pub use facts::{CYLINDERS, is_by_cylinders, is_unexpired, row_facts};
pub use selection::is_selected;
