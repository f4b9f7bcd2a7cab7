//! The slots of a DSCB in which extents stand.

ghost use Rattle.std.specs.Prelude.{◌≡◌, ◌≤◌, ◌+◌, Some};
ghost use Rattle.ckd_image.specs.Address.{IsAddress};
ghost use Rattle.dscb_rec.specs.Field.{IsExtent};
ghost use Rattle.dscb_made.specs.Slots.{numbered, slot_of, IsSlotPut};

use ckd_image::TrackAt;
use dscb_rec::{Extent, put_extent};

const TRACK_0: TrackAt = TrackAt {
    cylinder: 0,
    head: 0,
};

/// An empty slot.
const NO_EXTENT: Extent = Extent {
    kind: 0,
    number: 0,
    first: TRACK_0,
    last: TRACK_0,
};

/// The same address.
pub(crate) fn same_address(at: TrackAt) -> TrackAt
    ensures same { result ≡ at }
    ensures fits { IsAddress result }
{
    let TrackAt { cylinder, head } = at;
    TrackAt { cylinder, head }
}

/// An extent with another number.
fn with_number(extent: Extent, number: u8) -> Extent
    ensures value { result ≡ numbered number (Some extent) }
    ensures fits { IsExtent result }
{
    let Extent {
        kind,
        first,
        last,
        ..
    } = extent;
    Extent {
        kind,
        number,
        first: same_address(first),
        last: same_address(last),
    }
}

/// What stands in a data set's slot by its place among all of them, counted from 0: its extent there, numbered by the place, or nothing.
pub(crate) fn slot(extents: &[Extent], place: u8) -> Extent
    ensures slot { result ≡ slot_of extents.now place }
    ensures fits { IsExtent result }
{
    match extents.get(usize::from(place)) {
        Some(extent) => with_number(*extent, place),
        None => NO_EXTENT,
    }
}

/// Writes a slot at an offset, and changes no other byte.
pub(crate) fn put_slot(dscb: &mut [u8; 140], offset: usize, extent: Extent)
    requires within { offset + 10 ≤ 140 }
    requires fits { IsExtent extent }
    ensures { IsSlotPut offset extent dscb.old dscb.new }
{
    put_extent(dscb, offset, extent);
}
