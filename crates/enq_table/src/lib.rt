//! The table of who holds which data set, and its text.
#![tactic(auto)]

mod fault;
mod held;
mod hold;
mod holder;
mod index;
mod laws;
mod line;
mod reading;

pub use fault::EnqFault;
pub use held::Held;
pub use hold::{Hold, Mode};
pub use holder::Holder;
pub use laws::held_laws;
pub use reading::read_held;
