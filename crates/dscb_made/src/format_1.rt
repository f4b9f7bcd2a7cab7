//! A data set's format 1.

ghost use Rattle.std.specs.Prelude.{◌≡◌, ◌≤◌, ◌<◌, ◌+◌, ◌*◌, All, IfSome, length};
ghost use Rattle.volume_model.specs.declared.format.Format.TheVariants.{F1};
ghost use Rattle.volume_model.specs.Dscbs.{format_of};
ghost use Rattle.dscb_made.specs.Slots.{first_offset, IsThere, AreSlotsPut};
ghost use Rattle.dscb_made.specs.Pointers.{IsPlaceOfRecord};
ghost use Rattle.dscb_made.specs.Made.{IsFormat1With};

use crate::pointer::put_pointer;
use crate::slot::{put_slot, slot};
use ckd_image::Cchhr;
use ckd_image::text::put_over;
use dscb_rec::Extent;

/// Writes the first three extents of a data set into the slots of its format 1, with nothing in those that are left.
fn put_first_slots(dscb: &mut [u8; 140], extents: &[Extent])
    ensures { AreSlotsPut first_offset 0 3 extents.now dscb.old dscb.new }
{
    for place in 0..3u8 {
        put_slot(dscb, 105 + 10 * usize::from(place), slot(extents, place));
    }
}

/// The format 1 of a data set with these extents, of which the first three stand in it, and with a pointer to its format 3. All other
/// fields are those of the format 1 that is given.
pub fn format_1_with(format_1: &[u8; 140], extents: &[Extent], next: Option<Cchhr>) -> [u8; 140]
    requires format { format_of format_1.now ≡ F1 }
    requires few { length extents.now ≤ 16 }
    requires there { All IsThere extents.now }
    requires next { IfSome next IsPlaceOfRecord }
    ensures { IsFormat1With format_1.now extents.now next result }
{
    let mut dscb = *format_1;
    put_over(&mut dscb, 59, &[extents.len() as u8]);
    put_first_slots(&mut dscb, extents);
    put_pointer(&mut dscb, next);
    dscb
}
