//! The records of a data set.

ghost use Rattle.std.specs.Prelude.{◌≡◌, ◌≤◌, All, IfSome, length};
ghost use Rattle.volume_model.specs.declared.format.Format.TheVariants.{F1};
ghost use Rattle.volume_model.specs.Dscbs.{format_of};
ghost use Rattle.dscb_made.specs.Made.{IsFormat3With};
ghost use Rattle.dscb_made.specs.Slots.{IsThere};
ghost use Rattle.vtoc_making.specs.Places.{IsPlace, IsSetWritten};

use crate::pointer::pointer_to;
use dscb_made::{format_1_with, format_3_with};
use dscb_rec::Extent;
use volume_model::{Place, Placed};

/// A data set's format 1 and its format 3, if it has one, as they are written.
#[derive(Clone, Copy, Debug)]
pub struct SetWritten {
    pub one: Placed,
    pub three: Option<Placed>,
}

/// A format 3 with a data set's extents at a place.
fn three_with(extents: &[Extent], place: Place) -> Placed
    requires few { length extents.now ≤ 16 }
    requires there { All IsThere extents.now }
    ensures place { result.place ≡ place }
    ensures bytes { IsFormat3With extents.now result.bytes }
{
    Placed {
        place,
        bytes: format_3_with(extents),
    }
}

/// The records of a data set with these extents: its format 1 at a place, with all other fields of the one that is given, and its format 3 at
/// another, if it is to have one.
pub fn set_with(
    heads: u32,
    format_1: &[u8; 140],
    extents: &[Extent],
    one: Place,
    three: Option<Place>,
) -> SetWritten
    requires some_heads { 1 ≤ heads }
    requires few_heads { heads ≤ 255 }
    requires format { format_of format_1.now ≡ F1 }
    requires few { length extents.now ≤ 16 }
    requires there { All IsThere extents.now }
    requires place { IfSome three IsPlace }
    ensures { IsSetWritten heads format_1.now extents.now one three result }
{
    match three {
        Some(place) => SetWritten {
            one: Placed {
                place: one,
                bytes: format_1_with(format_1, extents, Some(pointer_to(heads, place))),
            },
            three: Some(three_with(extents, place)),
        },
        None => SetWritten {
            one: Placed {
                place: one,
                bytes: format_1_with(format_1, extents, None),
            },
            three: None,
        },
    }
}
