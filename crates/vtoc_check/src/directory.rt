//! The records of a VTOC with their places.

ghost use Rattle.std.specs.Prelude.{◌≡◌, ◌+◌, ◌*◌, ◌<◌, ◌≤◌, ◌^◌, ◌++◌, length, OnOk, IfOk, IfSome, IfNone, None, Some, slice_index_or};
ghost use Rattle.volume_model.specs.declared.place.Placed.{Placed};
ghost use Rattle.volume_model.specs.Dscbs.{pointer_in};
ghost use Rattle.volume_model.specs.Directory.{placed_from, placed_in, record_at, named_place, named_record, next_format_3};
ghost use Rattle.vtoc_check.specs.Places.{rank_of, AreShort, IsShort, records_on, ranks_of, AreInOrder, blank};

use crate::dscb::{is_format_3, pointer_of};
use ckd_image::{Cchhr, NoMemory};
use std::alloc::Global;
use volume_model::{Dscbs, Place, Placed, Vtoc};

/// The number of a place: places are in the order of their numbers.
pub(crate) fn place_number(place: Place) -> u64
    ensures { result ≡ rank_of place }
{
    256 * u64::from(place.track) + u64::from(place.record_number)
}

/// Adds the records of a track.
fn add_dscbs(records: &mut Vec<Placed>, track: u32, dscbs: &[[u8; 140]]) -> Result<(), NoMemory>
    requires { length dscbs.now ≤ 255 }
    ensures { OnOk result (records.new.items ≡ records.old.items ++ placed_from track 1 dscbs.now) }
{
    for (index, bytes) in dscbs.iter().enumerate() {
        let place = Place {
            track,
            record_number: index as u8 + 1,
        };
        records.push(Placed {
            place,
            bytes: *bytes,
        })?;
    }
    Ok(())
}

/// Adds the records of a track, where it is one of a VTOC.
fn add_track(records: &mut Vec<Placed>, track: u32, dscbs: &Option<Dscbs>) -> Result<(), NoMemory>
    requires { IsShort dscbs.now }
    ensures { OnOk result (records.new.items ≡ records.old.items ++ records_on track dscbs.now) }
{
    match dscbs {
        None => Ok(()),
        Some(dscbs) => add_dscbs(records, track, dscbs.as_slice()),
    }
}

/// The records of a VTOC in the order of their places.
pub fn all_records(
    alloc: Global,
    first: u32,
    tracks: &[Option<Dscbs>],
) -> Result<Vec<Placed>, NoMemory>
    requires short { AreShort tracks.now }
    requires small { first + length tracks.now < 2 ^ 32 }
    ensures { IfOk result (λ records. records.items ≡ placed_in first tracks.now) }
{
    let mut records = Vec::new(alloc);
    for (index, dscbs) in tracks.iter().enumerate() {
        add_track(&mut records, first + index as u32, dscbs)?;
    }
    Ok(records)
}

/// The numbers of the places of records.
pub fn place_numbers(alloc: Global, records: &[Placed]) -> Result<Vec<u64>, NoMemory>
    ensures { IfOk result (λ numbers. numbers.items ≡ ranks_of records.now) }
{
    let mut numbers = Vec::new(alloc);
    for placed in records {
        numbers.push(place_number(placed.place))?;
    }
    Ok(numbers)
}

/// Which of the records stands at a place.
pub fn index_at(records: &[Placed], numbers: &[u64], place: Place) -> Option<usize>
    requires numbers { numbers.now ≡ ranks_of records.now }
    requires in_order { AreInOrder records.now }
    ensures found { IfSome result (λ k. (k < length records.now) × (record_at records.now place ≡ Some (slice_index_or records.now k blank))) }
    ensures none { IfNone result (record_at records.now place ≡ None) }
{
    let number = place_number(place);
    match numbers.binary_search(&number) {
        Ok(index) => Some(index),
        Err(_) => None,
    }
}

/// The records of a VTOC in the order of their places, on a device with so many heads.
#[derive(Debug, Drop)]
pub struct Directory {
    pub(crate) heads: u32,
    pub(crate) records: Vec<Placed>,
    numbers: Vec<u64>,
    ghost small: { heads ≤ 65535 },
    ghost numbers_are: { numbers.items ≡ ranks_of records.items },
    ghost in_order: { AreInOrder records.items },
}

impl Directory {
    pub fn new(
        alloc: Global,
        heads: u32,
        first: u32,
        tracks: &[Option<Dscbs>],
    ) -> Result<Directory, NoMemory>
        requires heads { heads ≤ 65535 }
        requires short { AreShort tracks.now }
        requires small { first + length tracks.now < 2 ^ 32 }
        ensures { IfOk result (λ directory. (directory.heads ≡ heads) × (directory.records.items ≡ placed_in first tracks.now)) }
    {
        let records = all_records(alloc, first, tracks)?;
        let numbers = place_numbers(alloc, &records)?;
        Ok(Directory {
            heads,
            records,
            numbers,
        })
    }

    /// The records in the order of their places.
    pub fn records(&self) -> &[Placed]
        ensures { result.now ≡ self.now.records.items }
    {
        &self.records
    }

    /// Which record the pointer of a DSCB names.
    pub fn target(&self, bytes: &[u8; 140]) -> Option<usize>
        ensures found { IfSome result (λ k. (k < length self.now.records.items)
            × (named_record self.now.heads self.now.records.items (pointer_in bytes.now) ≡ Some (slice_index_or self.now.records.items k blank))) }
        ensures none { IfNone result (named_record self.now.heads self.now.records.items (pointer_in bytes.now) ≡ None) }
    {
        let Some(pointer) = pointer_of(bytes) else {
            return None;
        };
        // an address whose head the device doesn't have is no track's
        if u32::from(pointer.at.head) >= self.heads {
            return None;
        }
        let place = place_at(self.heads, pointer);
        index_at(&self.records, &self.numbers, place)
    }

    /// Which format 3 the pointer of a DSCB names.
    pub fn next_three(&self, bytes: &[u8; 140]) -> Option<usize>
        ensures found { IfSome result (λ k. (k < length self.now.records.items)
            × (next_format_3 self.now.heads self.now.records.items bytes.now ≡ Some (slice_index_or self.now.records.items k blank))) }
        ensures none { IfNone result (next_format_3 self.now.heads self.now.records.items bytes.now ≡ None) }
    {
        let Some(index) = self.target(bytes) else {
            return None;
        };
        if is_format_3(&self.records[index].bytes) {
            return Some(index);
        }
        None
    }
}

/// The place that a pointer names.
pub(crate) fn place_at(heads: u32, pointer: Cchhr) -> Place
    requires { heads ≤ 65535 }
    ensures { result ≡ named_place heads pointer }
{
    Place {
        track: u32::from(pointer.at.cylinder) * heads + u32::from(pointer.at.head),
        record_number: pointer.r,
    }
}
