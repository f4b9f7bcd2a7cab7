//! Why a text is refused.

ghost use Rattle.std.specs.Prelude.{◌≡◌};
ghost use Rattle.by_rules.specs.declared.fault.ByFault.TheVariants as faults;

use ckd_image::NoMemory;
use thiserror::Error;

/// Why a text was not read.
#[derive(Clone, Copy, Debug, PartialEq, Eq, Error)]
pub enum ByFault {
    /// The offset of the first wrong token, or the text's length where it ends early.
    #[error("no criterion at offset {0}")]
    BadCriterion(u32),
    #[error("out of memory")]
    NoMemory,
}

impl From<NoMemory> for ByFault {
    ghost from_gives = { λ _ e. e ≡ faults.NoMemory };

    fn from(_: NoMemory) -> ByFault {
        ByFault::NoMemory
    }
}
