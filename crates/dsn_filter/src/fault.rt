//! Why a name or a pattern is refused.

ghost use Rattle.std.specs.Prelude.{◌≡◌};
ghost use Rattle.dsn_filter.specs.declared.fault.NameFault.TheVariants as faults;

use ckd_image::NoMemory;
use thiserror::Error;

#[derive(Clone, Copy, Debug, PartialEq, Eq, Error)]
pub enum NameFault {
    /// The place of the first byte at which no continuation is a data set name, or the one qualifier that was asked for.
    #[error("no data set name at place {0}")]
    BadName(u32),
    /// The place of the first byte at which no continuation is a pattern.
    #[error("no pattern of names at place {0}")]
    BadPattern(u32),
    #[error("out of memory")]
    NoMemory,
}

impl From<NoMemory> for NameFault {
    ghost from_gives = { λ _ e. e ≡ faults.NoMemory };

    fn from(_: NoMemory) -> NameFault {
        NameFault::NoMemory
    }
}
