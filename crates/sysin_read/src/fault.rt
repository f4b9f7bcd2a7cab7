//! Why a text is refused.

ghost use Rattle.std.specs.Prelude.{◌≡◌};
ghost use Rattle.sysin_read.specs.declared.fault.Stop.TheVariants as stops;
ghost use Rattle.sysin_read.specs.declared.fault.SysinFault.TheVariants as faults;

use ckd_image::NoMemory;
use thiserror::Error;

/// What is wrong with a token: the first of these that holds.
#[derive(Clone, Copy, Debug, PartialEq, Eq, Error)]
pub enum Why {
    /// It begins an operand that stands already.
    #[error("an operand stands twice")]
    Twice,
    /// It is an IF or DO within as many others as there may be.
    #[error("nested too deep")]
    Nesting,
    /// It begins one entry of a list, or one command, more than there may be.
    #[error("one too many")]
    Count,
    /// The command that it ends lacks an operand, or the text ends too early.
    #[error("something is missing")]
    Missing,
    /// It is a word, and not of the form or range of the value that stands there.
    #[error("no such value")]
    Value,
    /// No such token may stand there.
    #[error("another token is wanted")]
    Word,
}

/// Why the reading stops.
#[derive(Clone, Copy, Debug, PartialEq, Eq, Error)]
pub enum Stop {
    #[error("{0}")]
    Wrong(Why),
    #[error("out of memory")]
    NoMemory,
}

impl From<NoMemory> for Stop {
    ghost from_gives = { λ _ e. e ≡ stops.NoMemory };

    fn from(_: NoMemory) -> Stop {
        Stop::NoMemory
    }
}

/// Why a text was not read.
#[derive(Clone, Copy, Debug, PartialEq, Eq, Error)]
pub enum SysinFault {
    /// The line and column of the first wrong token, or of the place behind the last one where the text ends too early.
    #[error("no statement at line {0}, column {1}: {2}")]
    BadStatement(u32, u32, Why),
    #[error("out of memory")]
    NoMemory,
}

impl From<NoMemory> for SysinFault {
    ghost from_gives = { λ _ e. e ≡ faults.NoMemory };

    fn from(_: NoMemory) -> SysinFault {
        SysinFault::NoMemory
    }
}
