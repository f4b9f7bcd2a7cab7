//! Reading dumps.
#![tactic(auto)]

mod ending;
mod feed;
mod field;
mod fields;
mod header;
mod labelled;
mod laws;
mod mark;
mod number;
mod part;
mod reader;
mod record;
mod slot;
mod standing;
mod tape;
mod track;

pub use laws::{dump_laws, fault_laws, shape_laws};
pub use reader::DumpReader;
pub use tape::Tape;
