//! Why a token is no part of a value.

ghost use Rattle.std.specs.Prelude.{◌≡◌};
ghost use Rattle.sysin_values.specs.declared.fault.ValueFault.TheVariants as faults;

use ckd_image::NoMemory;
use thiserror::Error;

/// What is wrong with a token.
#[derive(Clone, Copy, Debug, PartialEq, Eq, Error)]
pub enum ValueFault {
    /// It begins one entry more than a list may have.
    #[error("one entry too many")]
    Count,
    /// It is a word, and not of the form or range of the value that stands there.
    #[error("no such value")]
    Value,
    /// No such token may stand there.
    #[error("another token is wanted")]
    Word,
    #[error("out of memory")]
    NoMemory,
}

impl From<NoMemory> for ValueFault {
    ghost from_gives = { λ _ e. e ≡ faults.NoMemory };

    fn from(_: NoMemory) -> ValueFault {
        ValueFault::NoMemory
    }
}
