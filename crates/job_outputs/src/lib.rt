//! The outputs that a dump names, among those of a run (DFSMSdss Storage Administration, DUMP, OUTDDNAME).
#![tactic(auto)]

mod places;

pub use places::{OutputsFault, places_of};
