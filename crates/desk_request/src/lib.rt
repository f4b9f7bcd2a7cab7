//! A request as it is received and read: its head, then the body that its head says.
#![tactic(auto)]

mod asked;
mod body;
mod reading;

pub use reading::read_request;
