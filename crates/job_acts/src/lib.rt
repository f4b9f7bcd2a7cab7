//! Steps that a statement asks for: they are looked at, and done one after the other.
#![tactic(auto)]

mod acts;
mod copies;
mod plans;

pub use acts::{Acted, Acts, Looked, look};
pub use copies::same_runs;
pub use job_steps;
