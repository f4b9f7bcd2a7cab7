//! Why the reading of a unit ends.

ghost use Rattle.std.specs.Prelude.{◌≡◌};
ghost use Rattle.unit_load.specs.declared.stop.Stop.TheVariants as stops;
ghost use Rattle.unit_load.specs.declared.stop.UnitFault.TheVariants as faults;

use ckd_image::NoMemory;
use dasd_pool::PoolFault;
use std::alloc::AllocError;
use thiserror::Error;
use volume_model::Why;

/// Why a unit was not read.
#[derive(Clone, Copy, Debug, PartialEq, Eq, Error)]
pub enum UnitFault {
    #[error("the pool failed")]
    Pool,
    #[error("out of memory")]
    NoMemory,
}

/// Why no volume is found: the unit is offline, or it was not read.
#[derive(Clone, Copy, Debug, PartialEq, Eq)]
pub(crate) enum Stop {
    Offline(Why),
    Fault(UnitFault),
}

impl From<NoMemory> for Stop {
    ghost from_gives = { λ _ e. e ≡ stops.Fault faults.NoMemory };

    fn from(_: NoMemory) -> Stop {
        Stop::Fault(UnitFault::NoMemory)
    }
}

impl From<AllocError> for Stop {
    ghost from_gives = { λ _ e. e ≡ stops.Fault faults.NoMemory };

    fn from(_: AllocError) -> Stop {
        Stop::Fault(UnitFault::NoMemory)
    }
}

impl From<PoolFault> for Stop {
    ghost from_gives = { λ _ e. e ≡ stops.Fault faults.Pool };

    fn from(_: PoolFault) -> Stop {
        Stop::Fault(UnitFault::Pool)
    }
}
