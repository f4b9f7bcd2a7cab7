//! Why a dump isn't read.

ghost use Rattle.std.specs.Prelude.{◌≡◌};
ghost use Rattle.dump_fmt.specs.declared.fault.DumpFault.TheVariants as faults;

use ckd_image::NoMemory;
use dasd_pool::ReelFault;
use thiserror::Error;

/// Why a dump was refused, or a call on one failed.
#[derive(Clone, Copy, Debug, PartialEq, Eq, Error)]
pub enum DumpFault {
    /// The offset of the first field with which no dump goes on, and what is wrong there.
    #[error("no dump: at offset {0}, {1}")]
    BadDump(u64, u8),
    /// How many bytes there are, with which a dump may begin.
    #[error("the dump ends after {0} bytes")]
    Truncated(u64),
    /// The digest of a dump, and that of its bytes.
    #[error("the dump has another digest")]
    DigestDiffers { kept: [u8; 32], found: [u8; 32] },
    #[error("the reel failed")]
    Reel,
    #[error("out of memory")]
    NoMemory,
}

impl From<NoMemory> for DumpFault {
    ghost from_gives = { λ _ e. e ≡ faults.NoMemory };

    fn from(_: NoMemory) -> DumpFault {
        DumpFault::NoMemory
    }
}

impl From<ReelFault> for DumpFault {
    ghost from_gives = { λ _ e. e ≡ faults.Reel };

    fn from(_: ReelFault) -> DumpFault {
        DumpFault::Reel
    }
}
