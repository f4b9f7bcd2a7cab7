//! The desk: its jobs, its held table, its units, and what it answers.
#![tactic(auto)]

mod answers;
mod desk;
mod jobs;
mod laws;
mod lines;
mod request;

pub use desk::Desk;
pub use jobs::Jobs;
pub use laws::desk_laws;
pub use lines::Lines;
pub use request::{Next, Request};
