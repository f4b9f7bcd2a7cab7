//! The format 5s that state free tracks.

ghost use Rattle.std.specs.Prelude.{◌≡◌, ◌≤◌, All, IfOk, IfSome, length, map, take, drop, slice_get};
ghost use Rattle.dscb_rec.specs.Field.{IsEntry5};
ghost use Rattle.volume_model.specs.Unit.{fives_for as fives_in};
ghost use Rattle.dscb_made.specs.Pointers.{IsPlaceOfRecord};
ghost use Rattle.vtoc_plan.specs.Plan.{AreFivesWith};
ghost use Rattle.layout_edit.specs.Change.{place_of};
ghost use Rattle.vtoc_making.specs.Places.{IsPlace, part_of, parts_of, next_pointer};

use crate::pointer::pointer_to;
use ckd_image::{Cchhr, Listed, NoMemory};
use dscb_made::format_5_with;
use dscb_rec::Entry5;
use std::alloc::Global;
use volume_model::{Place, Placed};

/// The entries of a format 5.
const ENTRIES: usize = 26;

/// How many format 5s state so many free runs: one at least.
pub fn fives_for(runs: usize) -> usize
    requires { runs ≤ 65535 }
    ensures { result ≡ fives_in runs }
{
    runs.div_ceil(ENTRIES).max(1)
}

/// The entries behind the first so many.
fn behind(entries: &[Entry5], count: usize) -> &[Entry5]
    ensures { result.now ≡ drop count entries.now }
{
    &entries[count.min(entries.len())..]
}

/// The first so many entries, or all where there are fewer.
fn front(entries: &[Entry5], count: usize) -> &[Entry5]
    ensures { result.now ≡ take count entries.now }
{
    &entries[..count.min(entries.len())]
}

/// The entries of a format 5 by its number.
fn part(entries: &[Entry5], number: usize) -> &[Entry5]
    requires { number ≤ 65535 }
    ensures part { result.now ≡ part_of entries.now number }
    ensures few { length result.now ≤ 26 }
    ensures fits { All IsEntry5 entries.now → All IsEntry5 result.now }
{
    front(behind(entries, ENTRIES * number), ENTRIES)
}

/// The pointer to the place at a number, if there is one.
fn pointer_at(heads: u32, places: &[Place], number: usize) -> Option<Cchhr>
    requires some_heads { 1 ≤ heads }
    requires few_heads { heads ≤ 255 }
    requires places { All IsPlace places.now }
    ensures pointer { result ≡ next_pointer heads (slice_get places.now number) }
    ensures place { IfSome result IsPlaceOfRecord }
{
    match places.get(number) {
        Some(place) => Some(pointer_to(heads, *place)),
        None => None,
    }
}

/// Format 5s with these entries at these places in order, each with a pointer to the next.
pub fn fives_with(
    alloc: Global,
    heads: u32,
    entries: &[Entry5],
    places: &[Place],
) -> Result<Listed<Placed>, NoMemory>
    requires some_heads { 1 ≤ heads }
    requires few_heads { heads ≤ 255 }
    requires places { All IsPlace places.now }
    requires few { length places.now ≤ 65535 }
    requires fits { All IsEntry5 entries.now }
    ensures at { IfOk result (λ fives. map place_of fives ≡ places.now) }
    ensures fives { IfOk result (AreFivesWith heads (parts_of (length places.now) entries.now)) }
{
    let mut fives = Listed::new(alloc);
    for (number, place) in places.iter().enumerate() {
        let next = pointer_at(heads, places, number + 1);
        fives.push(Placed {
            place: *place,
            bytes: format_5_with(part(entries, number), next),
        })?;
    }
    Ok(fives)
}
