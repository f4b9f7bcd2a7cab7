//! Plans of steps.

ghost use Rattle.std.specs.Prelude.{◌≡◌, ◌⊎◌, [], ◌∷◌, IfOk, IfSome, IfNone};
ghost use Rattle.dsn_filter.specs.Dsn.{IsDsn};
ghost use Rattle.move_core.specs.declared.steps.Step.TheVariants as steps;
ghost use Rattle.unit_steps.specs.declared.plan.Tracks.TheVariants as texts;
ghost use Rattle.unit_steps.specs.Plans.{HasRow};
ghost use Rattle.vtoc_core.specs.declared.volume.Row.{Row as RowOf};
ghost use Rattle.step_plans.specs.Plans.{IsSound, IsPlanFor, IsPlaceOn, IsJoinPlan, IsWhole, HasNone, HasManyExtents, HasFewTracks};

use crate::extents::{cut_extents, kind_for};
use crate::rows::{moved_row, reset_row, row_of};
use ckd_image::{Listed, NoMemory};
use dsn_filter::Dsn;
use free_map::Run;
use move_core::Step;
use plan_core::count_tracks;
use std::alloc::Global;
use unit_steps::{Plan, Tracks};
use volume_change::Change;
use vtoc_core::{Row, Volume};

/// The most extents that a data set has on one volume.
pub const MOST_EXTENTS: usize = 16;

/// A step and its one change.
pub(crate) fn plan_of(
    alloc: Global,
    step: Step,
    tracks: Tracks,
    unit: u32,
    change: Change,
) -> Result<Plan, NoMemory>
    ensures { IfOk result (λ plan. plan ≡ record { step = step; tracks = tracks; changes = (unit, change) ∷ [] }) }
{
    let mut changes = Vec::new(alloc);
    changes.push((unit, change))?;
    Ok(Plan {
        step,
        tracks,
        changes: Listed::from_vec(changes),
    })
}

/// A step that copies no track, and its one change.
fn quiet_plan(alloc: Global, step: Step, unit: u32, change: Change) -> Result<Plan, NoMemory>
    ensures step { IfOk result (λ plan. plan.step ≡ step) }
    ensures tracks { IfOk result (λ plan. plan.tracks ≡ texts.None) }
    ensures changes { IfOk result (λ plan. plan.changes ≡ (unit, change) ∷ []) }
{
    plan_of(alloc, step, Tracks::None, unit, change)
}

/// The free space of a volume is stated anew.
pub fn repair_space(alloc: Global, unit: u32, volume: &Volume) -> Result<Plan, NoMemory>
    ensures { IfOk result (IsPlanFor volume.now unit (steps.Repair unit)) }
{
    let _repaired = volume;
    quiet_plan(alloc, Step::Repair { unit }, unit, Change::Repair)
}

/// A data set is deleted, if the volume has one of the name.
pub fn delete_set(
    alloc: Global,
    unit: u32,
    volume: &Volume,
    name: Dsn,
) -> Result<Option<Plan>, NoMemory>
    requires sound { IsSound volume.now }
    requires name { IsDsn name }
    ensures plan { IfOk result (λ found. IfSome found (IsPlanFor volume.now unit (steps.Delete unit name))) }
    ensures none { IfOk result (λ found. IfNone found (HasNone volume.now name)) }
{
    let Some(_row) = row_of(volume, &name) else {
        return Ok(None);
    };
    let step = Step::Delete { unit, name };
    Ok(Some(quiet_plan(alloc, step, unit, Change::Remove(name))?))
}

/// A data set counts as dumped, if the volume has one of the name with at most 16 extents.
pub fn reset_flag(
    alloc: Global,
    unit: u32,
    volume: &Volume,
    name: Dsn,
) -> Result<Option<Plan>, NoMemory>
    requires sound { IsSound volume.now }
    requires name { IsDsn name }
    ensures plan { IfOk result (λ found. IfSome found (IsPlanFor volume.now unit (steps.ResetFlag unit name))) }
    ensures none { IfOk result (λ found. IfNone found (HasNone volume.now name ⊎ HasManyExtents volume.now name)) }
    ensures few { IfOk result (λ found. IfSome found (λ plan. ¬ HasManyExtents volume.now name)) }
{
    let Some(row) = row_of(volume, &name) else {
        return Ok(None);
    };
    if row.extents.as_slice().len() > MOST_EXTENTS {
        return Ok(None);
    }
    let change = Change::Swap(name, reset_row(alloc, row)?);
    let step = Step::ResetFlag { unit, name };
    Ok(Some(quiet_plan(alloc, step, unit, change)?))
}

/// A data set keeps its first tracks alone, if the volume has one of the name with more tracks, and with at most 16 extents.
pub fn shrink_set(
    alloc: Global,
    unit: u32,
    volume: &Volume,
    name: Dsn,
    keep: u32,
) -> Result<Option<Plan>, NoMemory>
    requires sound { IsSound volume.now }
    requires name { IsDsn name }
    ensures plan { IfOk result (λ found. IfSome found (IsPlanFor volume.now unit (steps.Shrink unit name keep))) }
    ensures none { IfOk result (λ found. IfNone found (HasNone volume.now name ⊎ (HasManyExtents volume.now name ⊎ HasFewTracks volume.now name keep))) }
    ensures few { IfOk result (λ found. IfSome found (λ plan. ¬ HasManyExtents volume.now name)) }
{
    let Some(row) = row_of(volume, &name) else {
        return Ok(None);
    };
    let extents = row.extents.as_slice();
    if extents.len() > MOST_EXTENTS || count_tracks(volume.device, extents) <= keep {
        return Ok(None);
    }
    let kept = Row {
        name: row.name,
        f1: row.f1,
        extents: cut_extents(alloc, volume.device, extents, keep)?,
        threes: row.threes,
    };
    let step = Step::Shrink { unit, name, keep };
    Ok(Some(quiet_plan(alloc, step, unit, Change::Swap(name, kept))?))
}

/// A data set moves into one extent from a track on, if the volume has one of the name with another number of extents, at most 16, and with
/// tracks.
pub fn join_set(
    alloc: Global,
    unit: u32,
    volume: &Volume,
    name: Dsn,
    first: u32,
) -> Result<Option<Plan>, NoMemory>
    requires sound { IsSound volume.now }
    requires name { IsDsn name }
    requires place { (row : RowOf) → HasRow volume.now name row → IsPlaceOn volume.now row volume.now first }
    ensures plan { IfOk result (λ found. IfSome found (IsJoinPlan volume.now unit name first)) }
    ensures none { IfOk result (λ found. IfNone found (HasNone volume.now name ⊎ (HasManyExtents volume.now name ⊎ IsWhole volume.now name))) }
    ensures few { IfOk result (λ found. IfSome found (λ plan. ¬ HasManyExtents volume.now name)) }
    ensures several { IfOk result (λ found. IfSome found (λ plan. ¬ IsWhole volume.now name)) }
{
    let Some(row) = row_of(volume, &name) else {
        return Ok(None);
    };
    let extents = row.extents.as_slice();
    if extents.len() > MOST_EXTENTS || extents.len() == 1 {
        return Ok(None);
    }
    let len = count_tracks(volume.device, extents);
    if len == 0 {
        return Ok(None);
    }
    let run = Run { first, len };
    let moved = moved_row(alloc, row, volume.device, kind_for(extents), &[run])?;
    let mut to = Vec::new(alloc);
    to.push(run)?;
    let step = Step::Move {
        unit,
        name,
        to: Listed::from_vec(to),
    };
    let texts = Tracks::Rows { unit, name };
    let change = Change::Swap(name, moved);
    Ok(Some(plan_of(alloc, step, texts, unit, change)?))
}
