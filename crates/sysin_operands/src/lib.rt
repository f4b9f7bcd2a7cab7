//! The operands of SYSIN commands, token by token.
#![tactic(auto)]

mod bracket;
mod content;
mod laws;
mod operand;

pub use bracket::{Bracket, Single, alone_of, bracket_of};
pub use content::Content;
pub use laws::{content_laws, operand_laws};
pub use operand::{OperandPlace, OperandReading};
