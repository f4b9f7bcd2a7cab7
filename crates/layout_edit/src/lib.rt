//! A VTOC with a layout, of which one change of its data sets writes some records.
#![tactic(auto)]

mod laws;

pub use laws::{change_laws, space_laws};
