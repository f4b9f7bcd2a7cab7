//! A format 5.

ghost use Rattle.std.specs.Prelude.{◌≤◌, All, IfSome, length};
ghost use Rattle.dscb_rec.specs.Field.{IsEntry5};
ghost use Rattle.dscb_made.specs.Pointers.{IsPlaceOfRecord};
ghost use Rattle.dscb_made.specs.Made.{IsFormat5With};

use crate::pointer::put_pointer;
use ckd_image::Cchhr;
use ckd_image::text::put_over;
use dscb_rec::Entry5;
use vtoc_core::put_entries;

/// A format 5 with these entries in order, of which none is empty, and a pointer to the next one.
pub fn format_5_with(entries: &[Entry5], next: Option<Cchhr>) -> [u8; 140]
    requires few { length entries.now ≤ 26 }
    requires fits { All IsEntry5 entries.now }
    requires next { IfSome next IsPlaceOfRecord }
    ensures { IsFormat5With entries.now next result }
{
    let mut dscb = [0; 140];
    put_over(&mut dscb, 0, &[0x05; 4]);
    put_over(&mut dscb, 44, &[0xF5]);
    put_entries(&mut dscb, entries);
    put_pointer(&mut dscb, next);
    dscb
}
