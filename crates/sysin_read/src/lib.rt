//! The statements of SYSIN, token by token, and the script of a text.
#![tactic(auto)]

mod fault;
mod laws;
mod outline;
mod read;
mod text;

pub use fault::{Stop, SysinFault, Why};
pub use laws::text_laws;
pub use outline::{Frame, Outline};
pub use read::read_sysin;
pub use sysin_lang::{Command, Filter, Flow, Script, Statement, Step};
pub use text::{TextPlace, TextReading};
