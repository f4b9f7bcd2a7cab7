//! The data set control blocks of a VTOC (DFSMSdfp Advanced Services), as text and as fields.
#![tactic(auto)]

mod dscb;
mod field;
mod format1;

pub use dscb::{Dscb, DscbFault, DscbRule, read_dscb, write_dscb};
pub use field::{
    Entry5, Extent, entry_of, entry_offset, extent_of, pointer_of, put_entry, put_extent,
};
pub use format1::{AllocationKind, Date, Format1, LastBlock, extent_place};
