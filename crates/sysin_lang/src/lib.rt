//! The language of SYSIN: its commands, and which of them run.
#![tactic(auto)]

mod command;
mod flow;
mod script;

pub use command::{Command, DdNames, Filter, Patterns, Statement};
pub use flow::Flow;
pub use script::{Script, Step};
