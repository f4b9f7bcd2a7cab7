//! Why a hold, a release or a text of holds is refused.

ghost use Rattle.std.specs.Prelude.{◌≡◌};
ghost use Rattle.enq_table.specs.declared.fault.EnqFault.TheVariants as faults;

use crate::holder::Holder;
use ckd_image::NoMemory;
use thiserror::Error;

#[derive(Clone, Copy, Debug, PartialEq, Eq, Error)]
pub enum EnqFault {
    /// The holder whose hold stands against the one asked for.
    #[error("the data set is already held")]
    AlreadyHeld(Holder),
    #[error("the data set isn't held")]
    NotHeld,
    /// The number of the line that isn't taken, and the column, both from 1.
    #[error("line {0} of the held data sets is wrong at column {1}")]
    BadHeld(u32, u32),
    #[error("out of memory")]
    NoMemory,
}

impl From<NoMemory> for EnqFault {
    ghost from_gives = { λ _ e. e ≡ faults.NoMemory };

    fn from(_: NoMemory) -> EnqFault {
        EnqFault::NoMemory
    }
}
