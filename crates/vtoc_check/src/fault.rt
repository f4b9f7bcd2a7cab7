//! Why a VTOC is refused.

ghost use Rattle.std.specs.Prelude.{◌≡◌};
ghost use Rattle.volume_model.specs.Rules.{number_of};
ghost use Rattle.vtoc_check.specs.declared.fault.VtocFault.TheVariants as faults;

use ckd_image::NoMemory as OutOfMemory;
use thiserror::Error;
use volume_model::Breach;

/// Why a VTOC can't be loaded or changed.
#[derive(Clone, Copy, Debug, PartialEq, Eq, Error)]
pub enum VtocFault {
    /// The lowest place that breaks a rule, by its track and its record, and the number of the rule.
    #[error("track {0} record {1} of the VTOC: rule {2}")]
    BadVtoc(u32, u8, u8),
    /// The VTOC has an index.
    #[error("the VTOC has an index")]
    Indexed,
    /// The DSCBs that are needed, and the free ones.
    #[error("the VTOC is full: {0} DSCBs needed, {1} free")]
    VtocFull(u32, u32),
    #[error("out of memory")]
    NoMemory,
}

impl From<OutOfMemory> for VtocFault {
    ghost from_gives = { λ _ e. e ≡ faults.NoMemory };

    fn from(_: OutOfMemory) -> VtocFault {
        VtocFault::NoMemory
    }
}

/// The refusal of a VTOC with this breach.
pub(crate) fn told_as(told: Breach) -> VtocFault
    ensures { result ≡ faults.BadVtoc told.place.track told.place.record_number (number_of told.rule) }
{
    VtocFault::BadVtoc(
        told.place.track,
        told.place.record_number,
        told.rule.number(),
    )
}
