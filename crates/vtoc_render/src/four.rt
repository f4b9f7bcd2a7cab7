//! The format 4 after a change.

ghost use Rattle.std.specs.Prelude.{◌≡◌, ◌≤◌, ◌<◌, ◌+◌, ◌-◌, ◌^◌, All, IfSome};
ghost use Rattle.vtoc_making.specs.Places.{next_pointer};
ghost use Rattle.volume_model.specs.declared.format.Format.TheVariants.{F4};
ghost use Rattle.volume_model.specs.Dscbs.{format_of};
ghost use Rattle.dscb_made.specs.Made.{IsMarkedFormat4};
ghost use Rattle.vtoc_allot.specs.Allotted.{held_count, wanted_count};
ghost use Rattle.vtoc_render.specs.Steps.{IsFourFor};

use ckd_image::Cchhr;
use dscb_made::{marked_format_4, stated_format_4};
use volume_model::{Place, Placed};
use vtoc_allot::{Held, Wanted};
use vtoc_making::{highest_after, pointer_to};

/// How many records are free once what is held is given back and what is wanted is taken.
pub(crate) fn free_left(free: u32, held: &Held, wanted: Wanted) -> u32
    requires few { free + held_count held.now < 2 ^ 32 }
    requires room { wanted_count wanted ≤ held_count held.now + free }
    ensures { result ≡ free + held_count held.now - wanted_count wanted }
{
    let held = u64::from(held.one.is_some()) + held.threes.len() as u64 + held.fives.len() as u64;
    let wanted = u64::from(wanted.one) + u64::from(wanted.three) + wanted.fives as u64;
    (u64::from(free) + held - wanted) as u32
}

/// The pointer to the place of a record, if there is one.
fn pointer_of(heads: u32, place: Option<Place>) -> Option<Cchhr>
    requires some_heads { 1 ≤ heads }
    requires few_heads { heads ≤ 255 }
    requires small { IfSome place (λ at. at.track ≤ 65535) }
    ensures { result ≡ next_pointer heads place }
{
    match place {
        Some(place) => Some(pointer_to(heads, place)),
        None => None,
    }
}

/// The format 4 once one format 1 is taken away and one is put, with so many free records.
pub(crate) fn four_for(
    heads: u32,
    records: &[Placed],
    four: Placed,
    gone: Option<Place>,
    put: Option<Place>,
    free: u32,
) -> Placed
    requires some_heads { 1 ≤ heads }
    requires few_heads { heads ≤ 255 }
    requires small { All (λ placed. placed.place.track ≤ 65535) records.now }
    requires format { format_of four.bytes ≡ F4 }
    ensures { IsFourFor heads records.now four gone put free result }
{
    let highest = pointer_of(heads, highest_after(records, gone, put));
    Placed {
        place: four.place,
        bytes: stated_format_4(&four.bytes, highest, free),
    }
}

/// The format 4 with the indicator of an interrupted change on.
pub(crate) fn four_marked(four: Placed) -> Placed
    requires { format_of four.bytes ≡ F4 }
    ensures place { result.place ≡ four.place }
    ensures bytes { IsMarkedFormat4 four.bytes result.bytes }
{
    Placed {
        place: four.place,
        bytes: marked_format_4(&four.bytes),
    }
}
