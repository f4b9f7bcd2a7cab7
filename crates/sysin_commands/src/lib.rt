//! The commands of SYSIN, token by token: any operand, and what stands behind a verb.
#![tactic(auto)]

mod command;
mod fault;
mod laws;
mod operand;

pub use command::{CommandPlace, CommandReading};
pub use fault::CommandFault;
pub use laws::{any_operand_laws, command_laws};
pub use operand::{AnyPlace, AnyReading};
