//! The members of a partitioned data set.

ghost use Rattle.std.specs.Prelude.{◌≡◌, ◌≢◌, ◌↔◌, ◌++◌, map, All, IsTrue, IfOk, IfErr, OnOk, IfSome, IfNone};
ghost use Rattle.org_reloc.specs.Content.{records_of};
ghost use Rattle.org_reloc.specs.Directory.{entries_of};
ghost use Rattle.org_reloc.specs.Member.{number_of_place, place_of_number, NamesRecords, NamesOne, AreNumbers, AreFrom, IsMemberPut, AreMembersPut};
ghost use Rattle.org_reloc.specs.MemberRefusal.{IsMemberRefusal, IsMembersRefusal};

use crate::block::Block;
use crate::directory::Page;
use crate::entry::Entry;
use crate::fault::{RelocFault, Why};
use crate::place::Place;
use crate::run::push_blocks;
use ckd_image::{Listed, NoMemory, Rec, Track};
use std::alloc::Global;

/// The places that entries name, as numbers, each once and in ascending order.
pub fn places_named(alloc: Global, pages: &[Page]) -> Result<Listed<u32>, NoMemory>
    ensures { IfOk result (λ numbers. AreNumbers (entries_of pages.now) numbers) }
{
    let mut numbers = Vec::new(alloc);
    for page in pages {
        push_places(&mut numbers, page.entries.as_slice())?;
    }
    numbers.sort_unstable();
    numbers.dedup();
    Ok(Listed::from_vec(numbers))
}

fn push_places(numbers: &mut Vec<u32>, entries: &[Entry]) -> Result<(), NoMemory>
    ensures { OnOk result (numbers.new.items ≡ numbers.old.items ++ map (λ entry. number_of_place entry.place) entries.now) }
{
    for entry in entries {
        numbers.push(entry.place.ordinal())?;
    }
    Ok(())
}

/// The records of a track from the first with the number.
fn records_from(recs: &[Rec], number: u8) -> Option<&[Rec]>
    ensures found { IfSome result (λ from. AreFrom recs.now number from.now) }
    ensures none { IfNone result (All (λ rec. rec.r ≢ number) recs.now) }
{
    for (index, rec) in recs.iter().enumerate() {
        if rec.r == number {
            return Some(&recs[index..]);
        }
    }
    None
}

/// The records of a data set from a place on: the last ones of its track, and the tracks behind it.
fn start_at(tracks: &[Track], place: Place) -> Option<(&[Rec], &[Track])>
    ensures found { IfSome result (λ x. NamesRecords tracks.now place (x.0.now ++ records_of x.1.now)) }
    ensures none { IfNone result (¬ NamesOne tracks.now place) }
{
    let index = place.track as usize;
    if index >= tracks.len() {
        return None;
    }
    let recs = records_from(tracks[index].recs.as_slice(), place.number)?;
    Some((recs, &tracks[index + 1..]))
}

/// Whether there is a record at each of the places.
pub fn all_named(tracks: &[Track], numbers: &[u32]) -> bool
    ensures { IsTrue result ↔ All (λ number. NamesOne tracks.now (place_of_number number)) numbers.now }
{
    numbers
        .iter()
        .all(|number| start_at(tracks, Place::of(*number)).is_some())
}

/// Puts the blocks of a member and an end of file behind others.
fn push_member(
    alloc: Global,
    tracks: &[Track],
    place: Place,
    blocks: &mut Listed<Block>,
) -> Result<(), RelocFault>
    requires { NamesOne tracks.now place }
    ensures put { OnOk result (IsMemberPut tracks.now place blocks.old blocks.new) }
    ensures refused { IfErr result (IsMemberRefusal tracks.now place) }
{
    let Some((recs, behind)) = start_at(tracks, place) else {
        unreachable!()
    };
    if !push_blocks(alloc, blocks, recs, behind)? {
        return Err(RelocFault::NotRelocatable(Why::NoEnd.number()));
    }
    blocks.push(Block::end_of_file(alloc))?;
    Ok(())
}

/// Puts the members behind other blocks, each with an end of file, and says where each begins.
pub fn push_members(
    alloc: Global,
    tracks: &[Track],
    numbers: &[u32],
    blocks: &mut Listed<Block>,
) -> Result<Listed<usize>, RelocFault>
    requires { All (λ number. NamesOne tracks.now (place_of_number number)) numbers.now }
    ensures put { IfOk result (AreMembersPut tracks.now numbers.now blocks.old blocks.new) }
    ensures refused { IfErr result (IsMembersRefusal tracks.now numbers.now) }
{
    let mut starts = Listed::new(alloc);
    for number in numbers {
        starts.push(blocks.len())?;
        push_member(alloc, tracks, Place::of(*number), blocks)?;
    }
    Ok(starts)
}
