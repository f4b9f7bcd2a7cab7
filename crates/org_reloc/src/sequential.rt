//! A sequential data set on another device.

ghost use Rattle.std.specs.Prelude.{◌≡◌, ◌≤◌, length, All, IfOk, IfErr};
ghost use Rattle.ckd_image.specs.Track.{IsTrack};
ghost use Rattle.org_reloc.specs.declared.refit.Refit.{Refit};
ghost use Rattle.org_reloc.specs.Content.{IsBlock};
ghost use Rattle.org_reloc.specs.Packing.{HaveRoom};
ghost use Rattle.org_reloc.specs.Sequential.{IsContent, IsRefit, HoldsTheSame, IsRefusal, IsContentRefusal, IsPlaceOfLast, IsBlocksRefit, IsBlocksRefusal};

use crate::block::Block;
use crate::fault::{RelocFault, Why};
use crate::packing::{check_lengths, pack, places_of};
use crate::place::Place;
use crate::refit::Refit;
use crate::run::run_of;
use ckd_image::{Device, Listed, Track};
use std::alloc::Global;

/// The blocks of a sequential data set on tracks of another device, with an end of file behind them. `last` is the place of its
/// last block, as a format 1 has it, and zeros where it has none.
pub fn refit_ps(
    alloc: Global,
    _from: Device,
    to: Device,
    tracks: &[Track],
    last: [u8; 3],
) -> Result<Refit, RelocFault>
    requires { All IsTrack tracks.now }

    // The blocks, and nothing else, stand on the fewest tracks, and the place is that of the last.
    ensures refit { IfOk result (IsRefit to tracks.now last) }
    // So nothing is lost.
    ensures same { IfOk result (HoldsTheSame tracks.now last) }

    ensures few { IfOk result (λ refit. length refit.tracks ≤ 65535) }
    ensures room { IfOk result (λ refit. HaveRoom to refit.tracks) }

    // A refusal names the first cause that stands against it.
    ensures refused { IfErr result (IsRefusal to tracks.now last) }
    // Where there is a refit of at most 65,535 tracks, it is given, unless memory runs out.
    ensures only { IfErr result (λ e. (refit : Refit) → IsRefit to tracks.now last refit → length refit.tracks ≤ 65535 → e ≡ RelocFault.NoMemory) }
{
    refit_content(alloc, to, tracks, last)
}

/// The refit, or why there is none.
fn refit_content(
    alloc: Global,
    to: Device,
    tracks: &[Track],
    last: [u8; 3],
) -> Result<Refit, RelocFault>
    requires { All IsTrack tracks.now }
    ensures refit { IfOk result (IsRefit to tracks.now last) }
    ensures same { IfOk result (HoldsTheSame tracks.now last) }
    ensures few { IfOk result (λ refit. length refit.tracks ≤ 65535) }
    ensures room { IfOk result (λ refit. HaveRoom to refit.tracks) }
    ensures refused { IfErr result (IsRefusal to tracks.now last) }
{
    let content = content_of(alloc, tracks, last)?;
    refit_blocks(alloc, to, content)
}

/// The blocks that a sequential data set holds.
fn content_of(alloc: Global, tracks: &[Track], last: [u8; 3]) -> Result<Listed<Block>, RelocFault>
    requires { All IsTrack tracks.now }
    ensures content { IfOk result (IsContent tracks.now last) }
    ensures blocks { IfOk result (All IsBlock) }
    ensures refused { IfErr result (IsContentRefusal tracks.now last) }
{
    if last == [0, 0, 0] {
        return Ok(Listed::new(alloc));
    }
    let run = run_of(alloc, tracks)?;
    if !run.ended {
        return Err(RelocFault::NotRelocatable(Why::NoEnd.number()));
    }
    Ok(run.blocks)
}

/// The place of the last of so many blocks.
fn last_place(places: &[Place], count: usize) -> [u8; 3]
    requires { count ≤ length places.now }
    ensures { IsPlaceOfLast places.now count result }
{
    if count == 0 {
        return [0, 0, 0];
    }
    places[count - 1].bytes()
}

/// The blocks and an end of file on tracks.
fn refit_blocks(alloc: Global, to: Device, content: Listed<Block>) -> Result<Refit, RelocFault>
    requires { All IsBlock content }
    ensures refit { IfOk result (IsBlocksRefit to content) }
    ensures refused { IfErr result (IsBlocksRefusal to content) }
{
    let mut blocks = content;
    check_lengths(to, blocks.as_slice())?;
    let count = blocks.len();
    blocks.push(Block::end_of_file(alloc))?;
    let places = places_of(alloc, to, blocks.as_slice())?;
    let last = last_place(places.as_slice(), count);
    let tracks = pack(alloc, to, blocks)?;
    Ok(Refit { tracks, last })
}
