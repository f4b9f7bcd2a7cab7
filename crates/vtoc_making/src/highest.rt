//! The highest format 1 of a VTOC.

ghost use Rattle.std.specs.Prelude.{◌≡◌, filter, Some, if◌then◌else◌};
ghost use Rattle.vtoc_making.specs.Places.{is_one_after as is_one_in, is_place, last_of};

use volume_model::{Format, Place, Placed};

/// Whether a place is this one.
fn is_at(one: Option<Place>, place: Place) -> bool
    ensures { result ≡ is_place one place }
{
    match one {
        Some(one) => one.track == place.track && one.record_number == place.record_number,
        None => false,
    }
}

/// Whether a record is a format 1 after a change that takes one away and puts one.
fn is_one_after(placed: &Placed, gone: Option<Place>, put: Option<Place>) -> bool
    ensures { result ≡ is_one_in gone put placed.now }
{
    let is_one = matches!(Format::of(&placed.bytes), Format::F1);
    is_at(put, placed.place) || (is_one && !is_at(gone, placed.place))
}

/// The place of a record, where it is a format 1 then, or the one before.
fn later(
    highest: Option<Place>,
    placed: &Placed,
    gone: Option<Place>,
    put: Option<Place>,
) -> Option<Place>
    ensures { result ≡ (if is_one_in gone put placed.now then Some placed.now.place else highest) }
{
    if is_one_after(placed, gone, put) {
        return Some(placed.place);
    }
    highest
}

/// The place of the highest format 1 among records after a change that takes one away and puts one, if there is one.
pub fn highest_after(records: &[Placed], gone: Option<Place>, put: Option<Place>) -> Option<Place>
    ensures { result ≡ last_of (filter (is_one_in gone put) records.now) }
{
    let mut highest = None;
    for placed in records {
        highest = later(highest, placed, gone, put);
    }
    highest
}
