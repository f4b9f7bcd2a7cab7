//! A change of a VTOC that is no mark.

ghost use Rattle.std.specs.Prelude.{◌≡◌, ◌≤◌, All, IfOk, IfErr, length};
ghost use Rattle.std.specs.Option.{option_copied};
ghost use Rattle.volume_change.specs.declared.change.Change.{Change as ChangeOf};
ghost use Rattle.vtoc_making.specs.Places.{IsPlace};
ghost use Rattle.vtoc_render.specs.Loads.{LoadsFrom};
ghost use Rattle.vtoc_render.specs.Next.{MayChange};
ghost use Rattle.vtoc_render.specs.Steps.{IsAimOf};
ghost use Rattle.vtoc_render.specs.Written.{second_of as second_in, StateFree, IsWritten, IsPutFault};

use crate::aim::{Aim, gone_from, spot_for};
use crate::change::Rendered;
use crate::edits::edits_with;
use crate::four::{four_for, free_left};
use crate::ground::{ground_of, held_of};
use crate::next::volume_with;
use crate::set::{row_for, set_for, wanted_for};
use crate::space::{entries_for, free_with};
use ckd_image::{Listed, NoMemory};
use free_map::FreeMap;
use std::alloc::Global;
use volume_model::{Place, Placed};
use vtoc_allot::allot;
use vtoc_check::VtocFault;
use vtoc_core::Volume;
use vtoc_making::fives_with;
use vtoc_write::changed_tracks;

/// The record that a first format 5 takes where it is free.
fn second_of(volume: &Volume) -> Place
    ensures { result ≡ second_in volume.now }
{
    Place {
        track: volume.vtoc.first,
        record_number: 2,
    }
}

/// Format 5s at these places, which state free tracks.
fn fives_at(
    alloc: Global,
    heads: u32,
    free: &FreeMap,
    places: &[Place],
) -> Result<Listed<Placed>, NoMemory>
    requires some_heads { 1 ≤ heads }
    requires few_heads { heads ≤ 255 }
    requires places { All IsPlace places.now }
    requires few { length places.now ≤ 65535 }
    ensures { IfOk result (StateFree heads free.now places.now) }
{
    let entries = entries_for(free)?;
    fives_with(alloc, heads, &entries, places)
}

/// The tracks and the volume once the data set of a name is away, if one is named and is there, and a row is put, if one is.
pub(crate) fn put_in(
    alloc: Global,
    volume: &Volume,
    slots: &[u8],
    aim: Aim<'_>,
) -> Result<Rendered, VtocFault>
    requires loads { LoadsFrom volume.now slots.now }
    requires may { (change : ChangeOf) × IsAimOf change aim.name (option_copied aim.put) × MayChange volume.now change }
    ensures written { IfOk result (IsWritten volume.now slots.now aim.entry.name (option_copied aim.entry.put)) }
    ensures fault { IfErr result (IsPutFault volume.now slots.now aim.entry.name (option_copied aim.entry.put)) }
{
    let heads = volume.device.heads();
    let rows = volume.rows.as_slice();
    let spot = spot_for(rows, aim.name);
    let free = free_with(alloc, volume, gone_from(rows, spot), aim.put)?;
    let ground = ground_of(alloc, volume, slots)?;
    let records = ground.directory.records();
    let held = held_of(alloc, volume, slots, &ground, aim.name)?;
    let wanted = wanted_for(aim.put, &free);
    let places = allot(alloc, records, second_of(volume), &held, wanted)?;
    let set = set_for(heads, aim.put, &places);
    let left = free_left(volume.free_dscbs, &held, wanted);
    let four = four_for(heads, records, ground.four, held.one, places.one, left);
    let fives = fives_at(alloc, heads, &free, places.fives.as_slice())?;
    let edits = edits_with(alloc, four, fives.as_slice(), set, places.freed.as_slice())?;
    let tracks = changed_tracks(alloc, volume.device, volume.vtoc, slots, edits.as_slice())?;
    let row = row_for(alloc, heads, aim.put, &places, set)?;
    let next = volume_with(alloc, volume, spot, row, free, left)?;
    Ok(Rendered {
        blocks: tracks,
        next,
    })
}
