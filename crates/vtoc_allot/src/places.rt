//! The places of a VTOC's records after a change.

ghost use Rattle.std.specs.Prelude.{◌≡◌, ◌≤◌, ◌<◌, ◌+◌, ◌-◌, ◌^◌, ◌++◌, true, not, length, map, filter, slice_get, IfOk, IfErr};
ghost use Rattle.vtoc_layout.specs.Layout.{AreDistinct};
ghost use Rattle.vtoc_allot.specs.Allotted.{listed, one_if, is_at as is_at_in, kept_if, held_count, wanted_count, free_count, new_ones, new_threes, new_fives, wants_first, TakesFirst, ArePartsOf, IsAllotted, IsHeld, IsAllotFault};

use crate::held::{Held, Wanted, add, add_one, front, given_back};
use crate::pool::{count_free, is_at, pool_of, without};
use ckd_image::{Listed, NoMemory};
use std::alloc::Global;
use volume_model::{Place, Placed};
use vtoc_check::VtocFault;

/// The places of the records that a change writes: of the data set, if one is put, of its format 3, if it has one, of the format 5s in
/// their order, and of those that are free afterwards and weren't before.
#[derive(Debug, Drop)]
pub struct Allotment {
    pub one: Option<Place>,
    pub three: Option<Place>,
    pub fives: Listed<Place>,
    pub freed: Listed<Place>,
}

/// A pool of which the first format 5 has taken its record, if it needs one.
#[derive(Drop)]
struct Pool {
    first: Option<Place>,
    places: Listed<Place>,
}

/// A copy of places.
fn copied(alloc: Global, places: &[Place]) -> Result<Listed<Place>, NoMemory>
    ensures { IfOk result (λ copy. copy ≡ places.now) }
{
    let mut copy = Listed::new(alloc);
    for place in places {
        copy.push(*place)?;
    }
    Ok(copy)
}

/// Takes the record of a first format 5: that at `second`, or the lowest.
fn take_first(alloc: Global, pool: &[Place], second: Place) -> Result<Pool, NoMemory>
    requires { 1 ≤ length pool.now }
    ensures { IfOk result (λ rest. TakesFirst second true pool.now (listed rest.first) rest.places) }
{
    if is_at(pool, second) {
        return Ok(Pool {
            first: Some(second),
            places: without(alloc, pool, second)?,
        });
    }
    Ok(Pool {
        first: Some(pool[0]),
        places: copied(alloc, &pool[1..])?,
    })
}

/// Whether a first format 5 needs a record.
fn wants_record(held: &Held, wanted: Wanted) -> bool
    ensures { result ≡ wants_first held.now wanted }
{
    held.fives.is_empty() && wanted.fives != 0
}

/// The pool from which the others take their records.
fn pool_after_first(
    alloc: Global,
    pool: Listed<Place>,
    second: Place,
    held: &Held,
    wanted: Wanted,
) -> Result<Pool, NoMemory>
    requires { wants_first held.now wanted ≡ true → 1 ≤ length pool }
    ensures { IfOk result (λ rest. TakesFirst second (wants_first held.now wanted) pool (listed rest.first) rest.places) }
{
    if wants_record(held, wanted) {
        return take_first(alloc, pool.as_slice(), second);
    }
    Ok(Pool {
        first: None,
        places: pool,
    })
}

/// How many records a use takes that wants one or none, and has so many.
fn missing(wanted: bool, held: usize) -> usize
    ensures { result ≡ one_if wanted - held }
{
    usize::from(wanted && held == 0)
}

/// One where there is a place, and else none.
fn count_of(one: Option<Place>) -> usize
    ensures { result ≡ length (listed one) }
{
    match one {
        Some(_) => 1,
        None => 0,
    }
}

/// The first place, if there is one.
fn first_of(places: &[Place]) -> Option<Place>
    ensures { result ≡ slice_get places.now 0 }
{
    places.first().copied()
}

/// The place that goes on in its use, or the one that is taken.
fn kept_or_new(wanted: bool, kept: Option<Place>, new: &[Place]) -> Option<Place>
    requires { length new.now ≡ one_if wanted - length (listed kept) }
    ensures { listed result ≡ kept_if wanted kept ++ new.now }
{
    if !wanted {
        return None;
    }
    match kept {
        Some(place) => Some(place),
        None => new.first().copied(),
    }
}

/// The places that are taken, in this order.
fn taken(alloc: Global, parts: &Parts) -> Result<Listed<Place>, NoMemory>
    ensures { IfOk result (λ taken. taken ≡ listed parts.now.first ++ (parts.now.ones.now ++ (parts.now.threes.now ++ parts.now.fives.now))) }
{
    let mut taken = Listed::new(alloc);
    add_one(&mut taken, parts.first)?;
    add(&mut taken, parts.ones)?;
    add(&mut taken, parts.threes)?;
    add(&mut taken, parts.fives)?;
    Ok(taken)
}

/// The places that are given back and not among those that are taken.
fn freed(alloc: Global, given: &[Place], taken: &[Place]) -> Result<Listed<Place>, NoMemory>
    ensures { IfOk result (λ freed. freed ≡ filter (λ place. not (is_at_in taken.now place)) given.now) }
{
    let mut freed = Listed::new(alloc);
    for place in given {
        if !is_at(taken, *place) {
            freed.push(*place)?;
        }
    }
    Ok(freed)
}

/// The format 5s in their order: those that stay, the first where there was none, and further ones.
fn fives_after(
    alloc: Global,
    kept: &[Place],
    first: Option<Place>,
    further: &[Place],
) -> Result<Listed<Place>, NoMemory>
    ensures { IfOk result (λ fives. fives ≡ kept.now ++ (listed first ++ further.now)) }
{
    let mut fives = Listed::new(alloc);
    add(&mut fives, kept)?;
    add_one(&mut fives, first)?;
    add(&mut fives, further)?;
    Ok(fives)
}

/// A pool in the parts that are taken from it.
#[derive(Clone, Copy)]
struct Parts<'a> {
    first: Option<Place>,
    ones: &'a [Place],
    threes: &'a [Place],
    fives: &'a [Place],
}

/// The parts of a pool that a change takes.
fn parts_of<'a>(held: &Held, wanted: Wanted, pool: &'a Pool) -> Parts<'a>
    requires enough { new_ones held.now wanted + new_threes held.now wanted + new_fives held.now wanted ≤ length (listed pool.now.first) + length pool.now.places }
    requires first { length (listed pool.now.first) ≤ new_fives held.now wanted }
    ensures first { result.first ≡ pool.now.first }
    ensures parts { ArePartsOf held.now wanted pool.now.first pool.now.places result.ones.now result.threes.now result.fives.now }
{
    let places = pool.places.as_slice();
    let (ones, rest) = places.split_at(missing(wanted.one, count_of(held.one)));
    let (threes, rest) = rest.split_at(missing(wanted.three, held.threes.len()));
    let fives = wanted.fives.saturating_sub(held.fives.len());
    let further = fives - count_of(pool.first);
    Parts {
        first: pool.first,
        ones,
        threes,
        fives: front(rest, further),
    }
}

/// Which places the records of a VTOC have after a change that wants so many.
///
/// `second` is the place that a first format 5 takes where it is free.
pub fn allot(
    alloc: Global,
    records: &[Placed],
    second: Place,
    held: &Held,
    wanted: Wanted,
) -> Result<Allotment, VtocFault>
    requires held { IsHeld records.now held.now }
    requires apart { AreDistinct (map (λ placed. placed.place) records.now) }
    requires few_records { length records.now < 2 ^ 31 }
    requires few_fives { wanted.fives ≤ 65535 }
    ensures allotted { IfOk result (IsAllotted records.now second held.now wanted) }
    ensures room { IfOk result (λ allotment. wanted_count wanted ≤ held_count held.now + free_count records.now) }
    ensures fault { IfErr result (IsAllotFault records.now held.now wanted) }
{
    let free = count_free(records);
    let (has, wants) = (held.count(), wanted.count());
    if has + free < wants {
        return Err(VtocFault::VtocFull((wants - has) as u32, free as u32));
    }
    let given = given_back(alloc, held, wanted)?;
    let pool = pool_of(alloc, records, given.as_slice())?;
    let pool = pool_after_first(alloc, pool, second, held, wanted)?;
    let parts = parts_of(held, wanted, &pool);
    let taken = taken(alloc, &parts)?;
    Ok(Allotment {
        one: kept_or_new(wanted.one, held.one, parts.ones),
        three: kept_or_new(wanted.three, first_of(held.threes.as_slice()), parts.threes),
        fives: fives_after(
            alloc,
            front(held.fives.as_slice(), wanted.fives),
            parts.first,
            parts.fives,
        )?,
        freed: freed(alloc, given.as_slice(), taken.as_slice())?,
    })
}
