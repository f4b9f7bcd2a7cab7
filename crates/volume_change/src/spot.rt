//! The place of a data set among the rows of a volume.

ghost use Rattle.std.specs.Prelude.{◌≡◌, ◌↔◌, ℕ, ◌<◌, ◌≤◌, true, false, IfSome, IfNone, All, length, slice_index_or};
ghost use Rattle.std.specs.Ordering.{is_lt};
ghost use Rattle.dsn_filter.specs.Dsn.{IsDsn};
ghost use Rattle.volume_model.specs.Pinned.{IsNameOf};
ghost use Rattle.vtoc_core.specs.declared.volume.Row.{Row as RowOf};
ghost use Rattle.volume_change.specs.Spot.{comes_before, AreNamed, HasNameAt, IsSpot};

use crate::name::name_bytes;
use ckd_image::text::same;
use dsn_filter::Dsn;
use vtoc_core::{Row, Volume};

/// Where a name stands among rows, and whether a row of the name stands there, which goes when another is put there.
#[derive(Clone, Copy, Debug, PartialEq, Eq)]
pub struct Spot {
    pub place: usize,
    pub goes: bool,
}

/// How many rows have lower names.
fn lower(rows: &[Row], name: &[u8; 44]) -> usize
    requires { AreNamed rows.now }
    ensures within { result ≤ length rows.now }
    ensures lower { (k : ℕ) (d : RowOf) → k < result → comes_before (slice_index_or rows.now k d).name name.now ≡ true }
    ensures not_lower { (k : ℕ) (d : RowOf) → result ≤ k → k < length rows.now → comes_before (slice_index_or rows.now k d).name name.now ≡ false }
{
    rows.partition_point(
        |row: &Row| -> bool
            ensures { result ≡ comes_before row.now.name name.entry.now }
        { row.name.cmp(name).is_lt() },
    )
}

/// Whether the row at a place has a name.
fn has_name_at(rows: &[Row], place: usize, name: &[u8; 44]) -> bool
    ensures { (result ≡ true) ↔ HasNameAt rows.now place name.now }
{
    match rows.get(place) {
        Some(row) => same(&row.name, name),
        None => false,
    }
}

/// Where a name stands among rows in the order of their names.
pub fn spot_of(rows: &[Row], name: &[u8; 44]) -> Spot
    requires { AreNamed rows.now }
    ensures { IsSpot rows.now name.now result }
{
    let place = lower(rows, name);
    Spot {
        place,
        goes: has_name_at(rows, place, name),
    }
}

/// The place of a data set's row.
pub fn find(volume: &Volume, name: &Dsn) -> Option<usize>
    requires rows { AreNamed volume.now.rows }
    requires name { IsDsn name.now }
    ensures found { IfSome result (λ place. (place < length volume.now.rows) × ((d : RowOf) → IsNameOf name.now (slice_index_or volume.now.rows place d).name)) }
    ensures none { IfNone result (All (λ row. ¬ IsNameOf name.now row.name) volume.now.rows) }
{
    let bytes = name_bytes(name);
    let spot = spot_of(volume.rows.as_slice(), &bytes);
    if spot.goes { Some(spot.place) } else { None }
}
