//! Why a token is no part of a command.

ghost use Rattle.std.specs.Prelude.{◌≡◌};
ghost use Rattle.sysin_commands.specs.declared.fault.CommandFault.TheVariants as faults;
ghost use Rattle.sysin_values.specs.declared.fault.ValueFault.TheVariants as values;

use ckd_image::NoMemory;
use sysin_values::ValueFault;
use thiserror::Error;

/// What is wrong with a token, or with the end of a command.
#[derive(Clone, Copy, Debug, PartialEq, Eq, Error)]
pub enum CommandFault {
    /// It begins an operand that stands already, or doesn't stand beside one that does.
    #[error("an operand stands twice")]
    Twice,
    /// The command ends, and an operand that it needs doesn't stand.
    #[error("an operand is missing")]
    Missing,
    /// All else.
    #[error("{0}")]
    Value(ValueFault),
}

impl From<NoMemory> for CommandFault {
    ghost from_gives = { λ _ e. e ≡ faults.Value values.NoMemory };

    fn from(_: NoMemory) -> CommandFault {
        CommandFault::Value(ValueFault::NoMemory)
    }
}
