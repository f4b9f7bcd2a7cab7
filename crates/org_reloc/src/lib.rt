//! Data sets fitted to another device: the same blocks on tracks of other lengths.
#![tactic(auto)]

mod block;
mod directory;
mod entry;
mod fault;
mod laws;
mod member;
mod moved;
mod packing;
mod partitioned;
mod place;
mod refit;
mod run;
mod sequential;

pub use fault::{RelocFault, Why};
pub use laws::{partitioned_laws, sequential_laws};
pub use partitioned::refit_po;
pub use refit::Refit;
pub use sequential::refit_ps;
