//! A data set's format 3.

ghost use Rattle.std.specs.Prelude.{◌≡◌, ◌≤◌, ◌<◌, ◌+◌, ◌*◌, All, length};
ghost use Rattle.dscb_made.specs.Slots.{further_offset, IsThere, AreSlotsPut};
ghost use Rattle.dscb_made.specs.Made.{IsFormat3With};

use crate::slot::{put_slot, slot};
use ckd_image::text::put_over;
use dscb_rec::Extent;

/// The offset of a slot of a format 3.
fn slot_offset(place: u8) -> usize
    requires { place < 13 }
    ensures value { result ≡ further_offset place }
    ensures within { result + 10 ≤ 135 }
{
    let place = usize::from(place);
    if place < 4 {
        4 + 10 * place
    } else {
        5 + 10 * place
    }
}

/// Writes the extents of a data set behind its third into the slots of its format 3, with nothing in those that are left.
fn put_further_slots(dscb: &mut [u8; 140], extents: &[Extent])
    ensures { AreSlotsPut further_offset 3 13 extents.now dscb.old dscb.new }
{
    for place in 0..13u8 {
        put_slot(dscb, slot_offset(place), slot(extents, place + 3));
    }
}

/// The format 3 of a data set with these extents, of which all behind the third stand in it. It has no pointer.
pub fn format_3_with(extents: &[Extent]) -> [u8; 140]
    requires few { length extents.now ≤ 16 }
    requires there { All IsThere extents.now }
    ensures { IsFormat3With extents.now result }
{
    let mut dscb = [0; 140];
    put_over(&mut dscb, 0, &[0x03; 4]);
    put_over(&mut dscb, 44, &[0xF3]);
    put_further_slots(&mut dscb, extents);
    dscb
}
