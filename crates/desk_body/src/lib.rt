//! What a request asks, once its body is there: a JSON object (RFC 8259) with the names of its route, each with a string.
#![tactic(auto)]

mod members;
mod wanted;

pub use wanted::request_of;
