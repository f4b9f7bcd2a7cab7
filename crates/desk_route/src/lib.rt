//! Which route the target of a request has, as it stands and nothing decoded, and what a method asks of it (RFC 9110, 9.3 and 15.5).
#![tactic(auto)]

mod asks;
mod route;

pub use asks::{Ask, Asking, MOST_BODY, ask_of, judge};
pub use route::{Route, route_of};
