//! The forms of SYSIN commands: which operands they may have, and the commands that these make.
#![tactic(auto)]

mod form;
mod made;
mod operand;
mod parts;

pub use form::{Form, fits, forms_of};
pub use made::command_of;
pub use operand::{Operand, clashes, has, is_part, operand_number};
pub use parts::{Parts, filter_of};
