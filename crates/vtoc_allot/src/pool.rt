//! The records that a change may take.

ghost use Rattle.std.specs.Prelude.{◌≡◌, ◌≤◌, ◌++◌, [], ◌∷◌, length, IfOk, OnOk};
ghost use Rattle.vtoc_allot.specs.Allotted.{is_at as is_at_in, free_count, pool_of as pool_in, without as without_in};

use ckd_image::{Listed, NoMemory};
use std::alloc::Global;
use volume_model::{Place, Placed};

/// Whether a place is one of these.
pub(crate) fn is_at(places: &[Place], place: Place) -> bool
    ensures { result ≡ is_at_in places.now place }
{
    places.iter().any(|other| place.is_same(*other))
}

/// How many records are free.
pub(crate) fn count_free(records: &[Placed]) -> u64
    ensures value { result ≡ free_count records.now }
    ensures most { result ≤ length records.now }
{
    let mut count = 0;
    for placed in records {
        count += u64::from(placed.is_free_record());
    }
    count
}

/// Adds the place of a record that may be taken.
fn add_if_free(pool: &mut Listed<Place>, given: &[Place], placed: &Placed) -> Result<(), NoMemory>
    ensures { OnOk result (pool.new ≡ pool.old ++ pool_in (placed.now ∷ []) given.now) }
{
    if placed.is_free_record() || is_at(given, placed.place) {
        pool.push(placed.place)?;
    }
    Ok(())
}

/// The places that may be taken, in their order.
pub(crate) fn pool_of(
    alloc: Global,
    records: &[Placed],
    given: &[Place],
) -> Result<Listed<Place>, NoMemory>
    ensures { IfOk result (λ pool. pool ≡ pool_in records.now given.now) }
{
    let mut pool = Listed::new(alloc);
    for placed in records {
        add_if_free(&mut pool, given, placed)?;
    }
    Ok(pool)
}

/// A pool without one place.
pub(crate) fn without(
    alloc: Global,
    pool: &[Place],
    place: Place,
) -> Result<Listed<Place>, NoMemory>
    ensures { IfOk result (λ rest. rest ≡ without_in place pool.now) }
{
    let mut rest = Listed::new(alloc);
    for other in pool {
        if !place.is_same(*other) {
            rest.push(*other)?;
        }
    }
    Ok(rest)
}
