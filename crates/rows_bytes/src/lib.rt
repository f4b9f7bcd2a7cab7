//! Volumes and journals of tests, byte by byte.
#![tactic(auto)]

mod fault;
mod journals;
mod slots;
mod volumes;

pub use fault::RowsFault;
pub use journals::{Change, JOURNAL_BLOCK, REGISTERED, REGISTERED_TWO, journal};
pub use slots::{LABEL, SLOT, VOL001, label_slot, vtoc_slot};
pub use volumes::{BASE, GIVEN, Given, Vtoc, WITH_SET, volume};
