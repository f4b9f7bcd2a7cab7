//! Pointers to places.

ghost use Rattle.std.specs.Prelude.{◌≡◌, ◌≤◌};
ghost use Rattle.vtoc_plan.specs.Plan.{pointer_to as pointer_in};

use ckd_image::{Cchhr, TrackAt};
use volume_model::Place;

/// The pointer to the record at a place, on a device with so many heads.
pub fn pointer_to(heads: u32, place: Place) -> Cchhr
    requires some_heads { 1 ≤ heads }
    requires few_heads { heads ≤ 255 }
    requires small { place.track ≤ 65535 }
    ensures { result ≡ pointer_in heads place }
{
    Cchhr {
        at: TrackAt::of(place.track, heads),
        r: place.record_number,
    }
}
