//! Why a request isn't read.

ghost use Rattle.std.specs.Prelude.{◌≡◌};
ghost use Rattle.desk_head.specs.declared.fault.RequestFault.TheVariants as faults;

use ckd_image::NoMemory;
use dasd_pool::ReadFault;
use std::alloc::AllocError;
use thiserror::Error;

/// Why a request isn't read.
#[derive(Clone, Copy, Debug, PartialEq, Eq, Error)]
pub enum RequestFault {
    /// The input is refused with this status (RFC 9110, 15.5): 400, 404, 405, 411 or 413.
    #[error("the request is refused with {0}")]
    Status(u16),
    /// The link failed, and its count of faults has risen.
    #[error("the link failed")]
    Read,
    #[error("out of memory")]
    NoMemory,
}

impl From<ReadFault> for RequestFault {
    ghost from_gives = { λ _ fault. fault ≡ faults.Read };

    fn from(_: ReadFault) -> RequestFault {
        RequestFault::Read
    }
}

impl From<AllocError> for RequestFault {
    ghost from_gives = { λ _ fault. fault ≡ faults.NoMemory };

    fn from(_: AllocError) -> RequestFault {
        RequestFault::NoMemory
    }
}

impl From<NoMemory> for RequestFault {
    ghost from_gives = { λ _ fault. fault ≡ faults.NoMemory };

    fn from(_: NoMemory) -> RequestFault {
        RequestFault::NoMemory
    }
}
