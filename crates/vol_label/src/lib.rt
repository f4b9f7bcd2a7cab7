//! The volume label, volume serials and their code page (DFSMS Using Data Sets).
#![tactic(auto)]

mod code_page;
mod fault;
mod label;
mod serial;

pub use code_page::{BLANK, to_ascii, to_ebcdic};
pub use fault::{LabelFault, LabelRule};
pub use label::{Label, put_serial, with_vtoc};
pub use serial::{Serial, is_serial};
