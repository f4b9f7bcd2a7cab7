//! Data set names, patterns of them, and renames.
#![tactic(auto)]

mod dsn;
mod fault;
mod laws;
mod matching;
mod part;
mod pattern;
mod qualifier;
mod rename;

pub use dsn::Dsn;
pub use fault::NameFault;
pub use laws::name_laws;
pub use pattern::Pattern;
pub use qualifier::Qualifier;
pub use rename::{Pairs, Rename};
