//! A partitioned data set on another device.

ghost use Rattle.std.specs.Prelude.{◌≡◌, ◌≤◌, length, All, IfOk, IfErr};
ghost use Rattle.ckd_image.specs.Track.{IsTrack};
ghost use Rattle.org_reloc.specs.declared.refit.Refit.{Refit};
ghost use Rattle.org_reloc.specs.Packing.{HaveRoom};
ghost use Rattle.org_reloc.specs.Partitioned.{IsPartitionedRefit, HoldsTheItems, IsPartitionedRefusal};
ghost use Rattle.org_reloc.specs.Taken.{IsTaken, IsTakingRefusal, IsPlaceable, IsPut, IsPutRefusal};

use crate::block::Block;
use crate::directory::{Page, read_directory};
use crate::fault::{RelocFault, Why};
use crate::member::{all_named, places_named, push_members};
use crate::moved::{move_places, places_at};
use crate::packing::{check_lengths, pack, places_of};
use crate::refit::Refit;
use crate::run::run_of;
use ckd_image::{Device, Listed, Track};
use std::alloc::Global;

/// The directory and the members of a partitioned data set on tracks of another device. Each entry has the new place of its member;
/// nothing else of the directory changes.
pub fn refit_po(
    alloc: Global,
    _from: Device,
    to: Device,
    tracks: &[Track],
) -> Result<Refit, RelocFault>
    requires { All IsTrack tracks.now }

    // The directory and the members, and nothing else, stand on the fewest tracks, each entry names its member's new place, and the
    // place is that of the last end of file.
    ensures refit { IfOk result (IsPartitionedRefit to tracks.now) }
    // So each entry still names the same blocks.
    ensures same { IfOk result (HoldsTheItems tracks.now) }

    ensures few { IfOk result (λ refit. length refit.tracks ≤ 65535) }
    ensures room { IfOk result (λ refit. HaveRoom to refit.tracks) }

    // A refusal names the first cause that stands against it.
    ensures refused { IfErr result (IsPartitionedRefusal to tracks.now) }
    // Where there is a refit of at most 65,535 tracks, it is given, unless memory runs out.
    ensures only { IfErr result (λ e. (refit : Refit) → IsPartitionedRefit to tracks.now refit → length refit.tracks ≤ 65535 → e ≡ RelocFault.NoMemory) }
{
    refit_members(alloc, to, tracks)
}

/// What a partitioned data set holds: the blocks of its directory up to the one with the last entry, the places of its members as
/// numbers, all blocks in the order in which they are placed, and where each member begins among them.
#[derive(Debug, Drop)]
struct Movable {
    pages: Listed<Page>,
    numbers: Listed<u32>,
    blocks: Listed<Block>,
    starts: Listed<usize>,
}

/// The directory and the members of a data set.
fn take(alloc: Global, tracks: &[Track]) -> Result<Movable, RelocFault>
    requires { All IsTrack tracks.now }
    ensures taken { IfOk result (IsTaken tracks.now) }
    ensures placeable { IfOk result IsPlaceable }
    ensures refused { IfErr result (IsTakingRefusal tracks.now) }
{
    let run = run_of(alloc, tracks)?;
    let pages = read_directory(alloc, run.blocks.as_slice())?;
    let numbers = places_named(alloc, pages.as_slice())?;
    if !all_named(tracks, numbers.as_slice()) {
        return Err(RelocFault::NotRelocatable(Why::Directory.number()));
    }
    if !run.ended {
        return Err(RelocFault::NotRelocatable(Why::NoEnd.number()));
    }
    let mut blocks = run.blocks;
    blocks.push(Block::end_of_file(alloc))?;
    let starts = push_members(alloc, tracks, numbers.as_slice(), &mut blocks)?;
    Ok(Movable {
        pages,
        numbers,
        blocks,
        starts,
    })
}

/// Its blocks on tracks of the device.
fn put(alloc: Global, to: Device, movable: Movable) -> Result<Refit, RelocFault>
    requires { IsPlaceable movable }
    ensures put { IfOk result (IsPut to movable) }
    ensures refused { IfErr result (IsPutRefusal to movable) }
{
    let Movable {
        pages,
        numbers,
        blocks,
        starts,
    } = movable;
    check_lengths(to, blocks.as_slice())?;
    let places = places_of(alloc, to, blocks.as_slice())?;
    let news = places_at(alloc, places.as_slice(), starts.as_slice())?;
    let last = places.as_slice()[places.len() - 1].bytes();
    let blocks = move_places(
        alloc,
        pages.as_slice(),
        numbers.as_slice(),
        news.as_slice(),
        blocks,
    )?;
    let tracks = pack(alloc, to, blocks)?;
    Ok(Refit { tracks, last })
}

/// The refit, or why there is none.
fn refit_members(alloc: Global, to: Device, tracks: &[Track]) -> Result<Refit, RelocFault>
    requires { All IsTrack tracks.now }
    ensures refit { IfOk result (IsPartitionedRefit to tracks.now) }
    ensures same { IfOk result (HoldsTheItems tracks.now) }
    ensures few { IfOk result (λ refit. length refit.tracks ≤ 65535) }
    ensures room { IfOk result (λ refit. HaveRoom to refit.tracks) }
    ensures refused { IfErr result (IsPartitionedRefusal to tracks.now) }
{
    let movable = take(alloc, tracks)?;
    put(alloc, to, movable)
}
