//! Why a call on a map of free tracks fails.

ghost use Rattle.std.specs.Prelude.{◌≡◌};
ghost use Rattle.free_map.specs.declared.fault.FreeFault.TheVariants as faults;

use ckd_image::NoMemory;
use thiserror::Error;

#[derive(Clone, Copy, Debug, PartialEq, Eq, Error)]
pub enum FreeFault {
    /// The 16 longest free runs together are too short for the need; the longest has so many tracks in whole steps.
    #[error("too few free tracks in 16 runs; the longest run has {0}")]
    NoRun(u32),
    #[error("out of memory")]
    NoMemory,
}

impl From<NoMemory> for FreeFault {
    ghost from_gives = { λ _ e. e ≡ faults.NoMemory };

    fn from(_: NoMemory) -> FreeFault {
        FreeFault::NoMemory
    }
}
