//! The filters of SYSIN commands, token by token: what stands in the brackets of DATASET.
#![tactic(auto)]

mod filter;
mod laws;

pub use filter::{FilterPlace, FilterReading};
pub use laws::filter_laws;
