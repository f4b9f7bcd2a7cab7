//! The dump file, written to several outputs and read back.
#![tactic(auto)]

mod fault;
mod laws;
mod outs;
mod piece;
mod printing;
mod progress;
mod sending;
mod writer;

pub use dd_names::DdName;
pub use fault::DumpFault;
pub use laws::text_laws;
pub use outs::{InDd, OutDd, OutState, Seen, SeenIn};
pub use piece::{DumpHead, Piece};
pub use progress::Progress;
pub use writer::{DumpStop, DumpWriter};
