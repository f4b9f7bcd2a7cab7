//! Reading units: what each is, by its head, its label and its VTOC.
#![tactic(auto)]

mod label;
mod load;
mod slots;
mod state;
mod stop;

pub use load::load_unit;
pub use slots::Hand;
pub use state::{LoadedUnit, UnderWay, UnitState};
pub use stop::UnitFault;
