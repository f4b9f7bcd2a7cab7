//! The head of a request (RFC 9112, 2 to 5), received within its limits; and what its fields say.
#![tactic(auto)]

mod fault;
mod field;
mod head;
mod receiving;

pub use fault::RequestFault;
pub use field::{Found, find_field, number_of};
pub use head::{MOST_FIELDS, MOST_HEAD, receive_head};
pub use receiving::receive_more;
