//! The tracks that are copied for a plan.

ghost use Rattle.std.specs.Prelude.{◌≡◌, ◌==◌, ◌++◌, ◌∷◌, [], ◌+◌, ◌*◌, ◌<◌, ℕ, Some, IfOk, OnOk, IfSome, IfNone};
ghost use Rattle.ckd_image.specs.Device.{heads_of};
ghost use Rattle.volume_model.specs.Space.{run_of};
ghost use Rattle.volume_model.specs.Unit as models;
ghost use Rattle.vtoc_core.specs.declared.volume.Row.{Row as RowOf};
ghost use Rattle.vtoc_core.specs.declared.volume.Volume.{Volume as VolumeOf};
ghost use Rattle.vtoc_core.specs.Loaded.{field_of};
ghost use Rattle.volume_change.specs.Spot.{AreNamed};
ghost use Rattle.unit_steps.specs.unit_change.Changed.{extents_of};
ghost use Rattle.unit_steps.specs.Plans.{IsLoadedAt, IsPlan};
ghost use Rattle.unit_steps.specs.Copied.{IsPutBy};
ghost use Rattle.unit_session.specs.Copies.{moves_between, HasSource, HasTarget, AreRowCopies, AreCopiesOf};
ghost use Rattle.unit_session.specs.Given.{AreGivenOf, AreTracksPut};
ghost use Rattle.unit_session.specs.declared.copies.Copies.{Copies as CopiesOf};
ghost use Rattle.unit_session.specs.declared.copies.GivenTracks.{GivenTracks as GivenOf};

use ckd_image::{Device, NoMemory};
use dscb_rec::Extent;
use dsn_filter::Dsn;
use std::alloc::Global;
use unit_load::UnitState;
use unit_steps::{Plan, Tracks};
use volume_change::{Change, find};
use vtoc_core::{Row, Volume};

/// A text that goes from one track to another.
#[derive(Clone, Copy, Debug, PartialEq, Eq)]
pub struct TextMove {
    pub from: u32,
    pub to: u32,
}

/// The texts that go from tracks of one unit to tracks of the same or another of a like device, and the tracks that are emptied.
#[derive(Debug, Drop)]
pub struct Copies {
    pub device: Device,
    pub from: u32,
    pub unit: u32,
    pub moves: Vec<TextMove>,
    pub empty: Vec<u32>,
}

/// The tracks of a row that a plan puts on a unit, in order, where the caller gives the text of each.
#[derive(Debug, Drop)]
pub struct GivenTracks {
    pub device: Device,
    pub unit: u32,
    pub tracks: Vec<u32>,
}

/// The volume of a unit, if it is online.
pub(crate) fn volume_at(units: &[UnitState], unit: u32) -> Option<&Volume>
    ensures found { IfSome result (λ volume. IsLoadedAt units.now unit volume.now) }
    ensures none { IfNone result ((volume : VolumeOf) → ¬ IsLoadedAt units.now unit volume) }
{
    match units.get(unit as usize) {
        Some(UnitState::Online(volume)) => Some(volume),
        _ => None,
    }
}

/// Adds the tracks of an extent.
fn add_extent(device: Device, extent: &Extent, tracks: &mut Vec<u32>) -> Result<(), NoMemory>
    ensures { OnOk result (tracks.new.items ≡ tracks.old.items ++ models.tracks_in (run_of (heads_of device) (field_of extent.now))) }
{
    let first = device.track_of(extent.first);
    let last = device.track_of(extent.last);
    for track in first..last + 1 {
        tracks.push(track)?;
    }
    Ok(())
}

/// The tracks of a row's extents, in order.
pub fn tracks_of(alloc: Global, device: Device, row: &Row) -> Result<Vec<u32>, NoMemory>
    ensures { IfOk result (λ tracks. tracks.items ≡ models.tracks_of (extents_of (heads_of device) row.now)) }
{
    let mut tracks = Vec::new(alloc);
    for extent in row.extents.as_slice() {
        add_extent(device, extent, &mut tracks)?;
    }
    Ok(tracks)
}

/// Adds the text that goes from one track to another, if it is another.
fn add_move(one_unit: bool, from: u32, to: u32, moves: &mut Vec<TextMove>) -> Result<(), NoMemory>
    ensures { OnOk result (moves.new.items ≡ moves.old.items ++ moves_between one_unit (from ∷ []) (to ∷ [])) }
{
    if !(one_unit && from == to) {
        moves.push(TextMove { from, to })?;
    }
    Ok(())
}

/// The texts that go from some tracks to others, the first to the first. One that would go to its own track stays.
fn moves_of(
    alloc: Global,
    one_unit: bool,
    source: &[u32],
    target: &[u32],
) -> Result<Vec<TextMove>, NoMemory>
    ensures { IfOk result (λ moves. moves.items ≡ moves_between one_unit source.now target.now) }
{
    let mut moves = Vec::new(alloc);
    for place in 0..source.len().min(target.len()) {
        add_move(one_unit, source[place], target[place], &mut moves)?;
    }
    Ok(moves)
}

/// The row that a change puts.
fn put_by(change: &Change) -> Option<&Row>
    ensures found { IfSome result (λ row. IsPutBy change.now row.now) }
    ensures none { IfNone result ((row : RowOf) → ¬ IsPutBy change.now row) }
{
    match change {
        Change::Put(row) | Change::Swap(_, row) => Some(row),
        _ => None,
    }
}

/// The copies of a plan, if its new tracks take the texts of a data set.
pub(crate) fn copies_of(
    alloc: Global,
    units: &[UnitState],
    plan: &Plan,
) -> Result<Option<Copies>, NoMemory>
    requires plan { IsPlan units.now plan.now }
    requires named { (unit : ℕ) (volume : VolumeOf) → IsLoadedAt units.now unit volume → AreNamed volume.rows }
    ensures { IfOk result (AreCopiesOf units.now plan.now.tracks plan.now.changes) }
{
    match (plan.tracks, plan.changes.as_slice().first()) {
        (Tracks::Rows { unit, name }, Some((target, change))) => {
            let source = Source { unit, name };
            copies_from(alloc, units, source, *target, change)
        }
        _ => Ok(None),
    }
}

/// A data set of a unit whose texts are copied.
#[derive(Clone, Copy, Debug, PartialEq, Eq)]
pub(crate) struct Source {
    pub unit: u32,
    pub name: Dsn,
}

/// The copies of a data set's tracks onto those of what a change puts on a unit.
fn copies_from(
    alloc: Global,
    units: &[UnitState],
    source: Source,
    unit: u32,
    change: &Change,
) -> Result<Option<Copies>, NoMemory>
    requires source { HasSource units.now source.unit source.name }
    requires named { (unit : ℕ) (volume : VolumeOf) → IsLoadedAt units.now unit volume → AreNamed volume.rows }
    requires target { HasTarget units.now unit change.now }
    ensures { IfOk result (λ copies. (c : CopiesOf) × (copies ≡ Some c) × AreRowCopies units.now source.unit source.name unit change.now c) }
{
    let (Some(from), Some(volume), Some(row)) = (
        volume_at(units, source.unit),
        volume_at(units, unit),
        put_by(change),
    ) else {
        unreachable!()
    };
    let Some(place) = find(from, &source.name) else {
        unreachable!()
    };
    let old = tracks_of(alloc, from.device, &from.rows.as_slice()[place])?;
    let new = tracks_of(alloc, volume.device, row)?;
    let mut empty = Vec::new(alloc);
    empty.extend_from_slice(&new[old.len().min(new.len())..])?;
    Ok(Some(Copies {
        device: volume.device,
        from: source.unit,
        unit,
        moves: moves_of(alloc, source.unit == unit, &old, &new)?,
        empty,
    }))
}

/// The given tracks of a plan, if the caller gives the texts of its new tracks.
pub(crate) fn given_of(
    alloc: Global,
    units: &[UnitState],
    plan: &Plan,
) -> Result<Option<GivenTracks>, NoMemory>
    requires { IsPlan units.now plan.now }
    ensures { IfOk result (AreGivenOf units.now plan.now.tracks plan.now.changes) }
{
    match (plan.tracks, plan.changes.as_slice().first()) {
        (Tracks::Given, Some((unit, change))) => given_by(alloc, units, *unit, change),
        _ => Ok(None),
    }
}

/// The tracks of what a change puts on a unit.
fn given_by(
    alloc: Global,
    units: &[UnitState],
    unit: u32,
    change: &Change,
) -> Result<Option<GivenTracks>, NoMemory>
    requires { HasTarget units.now unit change.now }
    ensures { IfOk result (λ given. (some : GivenOf) × (given ≡ Some some) × AreTracksPut units.now unit change.now some) }
{
    let (Some(volume), Some(row)) = (volume_at(units, unit), put_by(change)) else {
        unreachable!()
    };
    let tracks = tracks_of(alloc, volume.device, row)?;
    Ok(Some(GivenTracks {
        device: volume.device,
        unit,
        tracks,
    }))
}
