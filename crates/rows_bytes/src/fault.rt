//! Why a test stops short.

use ckd_image::NoMemory;
use dasd_pool::PoolFault;
use std::alloc::{AllocError, AllocFailed};
use thiserror::Error;

#[derive(Clone, Copy, Debug, PartialEq, Eq, Error)]
pub enum RowsFault {
    #[error("out of memory")]
    NoMemory,
    #[error("the pool failed")]
    Pool,
    #[error("the lines aren't text")]
    NotText,
}

impl From<NoMemory> for RowsFault {
    fn from(_: NoMemory) -> RowsFault {
        RowsFault::NoMemory
    }
}

impl From<AllocError> for RowsFault {
    fn from(_: AllocError) -> RowsFault {
        RowsFault::NoMemory
    }
}

impl<T: Drop> From<AllocFailed<T>> for RowsFault {
    fn from(_: AllocFailed<T>) -> RowsFault {
        RowsFault::NoMemory
    }
}

impl From<PoolFault> for RowsFault {
    fn from(_: PoolFault) -> RowsFault {
        RowsFault::Pool
    }
}
