//! The free tracks of a volume as a set.
#![tactic(auto)]

mod change;
mod fault;
mod laws;
mod map;
mod places;
mod run;
mod several;
mod sums;
mod unused;

pub use fault::FreeFault;
pub use laws::{choice_laws, run_laws};
pub use map::{FreeMap, unused_tracks};
pub use run::{Run, Runs};
