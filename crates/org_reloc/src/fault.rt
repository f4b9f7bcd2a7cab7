//! Why a data set isn't fitted to a device.

ghost use Rattle.std.specs.Prelude.{◌≡◌};
ghost use Rattle.org_reloc.specs.Refusal.{number_of};
ghost use Rattle.org_reloc.specs.declared.fault.RelocFault.TheVariants as faults;

use ckd_image::NoMemory;
use thiserror::Error;

/// What makes a data set one that can't be fitted.
#[derive(Clone, Copy, Debug, PartialEq, Eq)]
pub enum Why {
    /// It is neither sequential nor partitioned.
    Org,
    /// An end of file is missing.
    NoEnd,
    /// Its directory isn't one, or names a record that isn't there.
    Directory,
    /// Its directory has places besides those of members.
    UserTtrs,
    /// It would have over 65,535 tracks.
    Long,
}

impl Why {
    /// The number of the cause in a refusal.
    pub fn number(self) -> u8
        ensures { result ≡ number_of self }
    {
        match self {
            Why::Org => 1,
            Why::NoEnd => 2,
            Why::Directory => 3,
            Why::UserTtrs => 4,
            Why::Long => 5,
        }
    }
}

#[derive(Clone, Copy, Debug, PartialEq, Eq, Error)]
pub enum RelocFault {
    /// The number of the first cause that stands against it.
    #[error("the data set can't be relocated, cause {0}")]
    NotRelocatable(u8),
    /// The length of the first block that is too long for a track, and that of the longest without a key.
    #[error("a block of {0} bytes, and the longest of a track has {1}")]
    BlockTooLong(u32, u32),
    #[error("out of memory")]
    NoMemory,
}

impl From<NoMemory> for RelocFault {
    ghost from_gives = { λ _ e. e ≡ faults.NoMemory };

    fn from(_: NoMemory) -> RelocFault {
        RelocFault::NoMemory
    }
}
