//! Free records.

ghost use Rattle.std.specs.Prelude.{◌≡◌, ◌≤◌, ◌∷◌, ◌++◌, [], length, map, filter, take, IfOk, OnOk};
ghost use Rattle.volume_model.specs.Dscbs.{is_free_record};

use ckd_image::{Listed, NoMemory};
use std::alloc::Global;
use volume_model::{Place, Placed};

/// Adds the place of a record, where it is free and more places are wanted.
fn add_free(places: &mut Listed<Place>, placed: &Placed, most: usize) -> Result<(), NoMemory>
    requires { length places.old ≤ most }
    ensures { OnOk result (places.new ≡ take most (places.old ++ map (λ placed. placed.place) (filter is_free_record (placed.now ∷ [])))) }
{
    if places.len() < most && placed.is_free_record() {
        places.push(placed.place)?;
    }
    Ok(())
}

/// The places of the first free records, as many as are wanted, or all.
pub fn free_places(
    alloc: Global,
    records: &[Placed],
    most: usize,
) -> Result<Listed<Place>, NoMemory>
    ensures { IfOk result (λ places. places ≡ take most (map (λ placed. placed.place) (filter is_free_record records.now))) }
{
    let mut places = Listed::new(alloc);
    for placed in records {
        add_free(&mut places, placed, most)?;
    }
    Ok(places)
}
