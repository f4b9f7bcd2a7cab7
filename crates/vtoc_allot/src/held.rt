//! What a change finds in use, and what it wants.

ghost use Rattle.std.specs.Prelude.{◌≡◌, ◌≤◌, ◌<◌, ◌^◌, ◌++◌, take, drop, IfOk, OnOk};
ghost use Rattle.vtoc_allot.specs.Allotted.{listed, given_back as given_back_in, held_count, wanted_count};

use ckd_image::{Listed, NoMemory};
use std::alloc::Global;
use volume_model::Place;

/// The records of the data set that a change is of, where it is there, and the format 5s in their order.
#[derive(Debug, Drop)]
pub struct Held {
    pub one: Option<Place>,
    pub threes: Listed<Place>,
    pub fives: Listed<Place>,
}

/// So many format 5s, and of the data set a format 1 and a format 3, or not.
#[derive(Clone, Copy, Debug)]
pub struct Wanted {
    pub one: bool,
    pub three: bool,
    pub fives: usize,
}

impl Held {
    /// How many records there are.
    pub(crate) fn count(&self) -> u64
        requires { held_count self.now < 2 ^ 32 }
        ensures { result ≡ held_count self.now }
    {
        u64::from(self.one.is_some()) + self.threes.len() as u64 + self.fives.len() as u64
    }
}

impl Wanted {
    /// How many records are wanted.
    pub(crate) fn count(self) -> u64
        requires { self.fives ≤ 65535 }
        ensures { result ≡ wanted_count self }
    {
        u64::from(self.one) + u64::from(self.three) + self.fives as u64
    }
}

/// Adds a place to a list, if there is one.
pub(crate) fn add_one(places: &mut Listed<Place>, one: Option<Place>) -> Result<(), NoMemory>
    ensures { OnOk result (places.new ≡ places.old ++ listed one) }
{
    if let Some(place) = one {
        places.push(place)?;
    }
    Ok(())
}

/// Adds places to a list.
pub(crate) fn add(places: &mut Listed<Place>, more: &[Place]) -> Result<(), NoMemory>
    ensures { OnOk result (places.new ≡ places.old ++ more.now) }
{
    for place in more {
        places.push(*place)?;
    }
    Ok(())
}

/// Those behind the first so many.
fn behind(places: &[Place], count: usize) -> &[Place]
    ensures { result.now ≡ drop count places.now }
{
    &places[count.min(places.len())..]
}

/// The first so many, or all where there are fewer.
pub(crate) fn front(places: &[Place], count: usize) -> &[Place]
    ensures { result.now ≡ take count places.now }
{
    &places[..count.min(places.len())]
}

/// The places that a change doesn't want any more: those of the data set, and then those of format 5s.
pub(crate) fn given_back(
    alloc: Global,
    held: &Held,
    wanted: Wanted,
) -> Result<Listed<Place>, NoMemory>
    ensures { IfOk result (λ given. given ≡ given_back_in held.now wanted) }
{
    let mut given = Listed::new(alloc);
    if !wanted.one {
        add_one(&mut given, held.one)?;
    }
    add(
        &mut given,
        behind(held.threes.as_slice(), usize::from(wanted.three)),
    )?;
    add(&mut given, behind(held.fives.as_slice(), wanted.fives))?;
    Ok(given)
}
