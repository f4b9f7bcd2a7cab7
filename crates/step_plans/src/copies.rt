//! Plans of copies from one volume to another, or to the same.

ghost use Rattle.std.specs.Prelude.{◌≡◌, ◌≢◌, ◌⊎◌, IfOk, IfSome, IfNone};
ghost use Rattle.std.specs.Bool.{OnTrue, OnFalse};
ghost use Rattle.dsn_filter.specs.Dsn.{IsDsn};
ghost use Rattle.unit_steps.specs.Plans.{HasRow};
ghost use Rattle.vtoc_core.specs.declared.volume.Row.{Row as RowOf};
ghost use Rattle.step_plans.specs.Plans.{IsSound, IsPlanForBoth, IsInTheWay, IsClear, ArePlacesOn, HasNone, HasManyExtents, step_of_copy, step_of_carry};
ghost use Rattle.step_plans.specs.Copies.{IsNewRow};

use crate::extents::kind_for;
use crate::plans::{MOST_EXTENTS, plan_of};
use crate::rows::{copied_row, moved_row, row_of};
use ckd_image::NoMemory;
use dsn_filter::Dsn;
use free_map::Runs;
use move_core::{Origin, Step};
use std::alloc::Global;
use unit_steps::{Plan, Tracks};
use volume_change::Change;
use vtoc_core::{Row, Volume};

/// A data set of a unit.
#[derive(Clone, Copy, Debug, PartialEq, Eq)]
pub struct SetAt {
    pub unit: u32,
    pub name: Dsn,
}

/// A copy of one data set under the name of another, which it replaces or which isn't there, on free runs of tracks.
#[derive(Debug, Drop)]
pub struct SetCopy {
    pub from: SetAt,
    pub to: SetAt,
    pub runs: Runs,
    pub replaced: bool,
}

/// Whether something is in the way of a data set that is put: one of its name that it doesn't replace, or none that it does.
pub(crate) fn is_in_the_way(target: &Volume, name: &Dsn, replaced: bool) -> bool
    requires sound { IsSound target.now }
    requires name { IsDsn name.now }
    ensures way { OnTrue result (IsInTheWay replaced target.now name.now) }
    ensures clear { OnFalse result (IsClear replaced target.now name.now) }
{
    match row_of(target, name) {
        Some(_row) => !replaced,
        None => replaced,
    }
}

/// The row that is put for a copy, if the data set is there with at most 16 extents, and nothing is in the way.
fn new_row(
    alloc: Global,
    source: &Volume,
    target: &Volume,
    copy: &SetCopy,
) -> Result<Option<Row>, NoMemory>
    requires sound { IsSound source.now × IsSound target.now }
    requires names { IsDsn copy.now.from.name × IsDsn copy.now.to.name }
    requires places { (row : RowOf) → HasRow source.now copy.now.from.name row → ArePlacesOn source.now row target.now copy.now.runs }
    ensures row { IfOk result (λ found. IfSome found (IsNewRow source.now target.now copy.now)) }
    ensures none { IfOk result (λ found. IfNone found (HasNone source.now copy.now.from.name ⊎ (HasManyExtents source.now copy.now.from.name ⊎ IsInTheWay copy.now.replaced target.now copy.now.to.name))) }
    ensures few { IfOk result (λ found. IfSome found (λ row. ¬ HasManyExtents source.now copy.now.from.name)) }
{
    let Some(row) = row_of(source, &copy.from.name) else {
        return Ok(None);
    };
    let extents = row.extents.as_slice();
    if extents.len() > MOST_EXTENTS || is_in_the_way(target, &copy.to.name, copy.replaced) {
        return Ok(None);
    }
    let runs = copy.runs.as_slice();
    let moved = moved_row(alloc, row, target.device, kind_for(extents), runs)?;
    Ok(Some(copied_row(moved, &copy.to.name, target.serial)))
}

/// The change that puts a row, beside the others or in the place of the one of a name.
pub(crate) fn putting(replaced: bool, name: Dsn, row: Row) -> Change
    ensures { result ≡ Rattle.unit_steps.specs.Plans.putting replaced name row }
{
    if replaced {
        Change::Swap(name, row)
    } else {
        Change::Put(row)
    }
}

/// A data set is copied onto free tracks of a volume of a like device.
pub fn copy_set(
    alloc: Global,
    source: &Volume,
    target: &Volume,
    copy: SetCopy,
) -> Result<Option<Plan>, NoMemory>
    requires sound { IsSound source.now × IsSound target.now }
    requires like { target.now.device ≡ source.now.device }
    requires names { IsDsn copy.from.name × IsDsn copy.to.name }
    requires places { (row : RowOf) → HasRow source.now copy.from.name row → ArePlacesOn source.now row target.now copy.runs }
    ensures plan { IfOk result (λ found. IfSome found (IsPlanForBoth source.now copy.from.unit target.now copy.to.unit (step_of_copy copy))) }
    ensures none { IfOk result (λ found. IfNone found (HasNone source.now copy.from.name ⊎ (HasManyExtents source.now copy.from.name ⊎ IsInTheWay copy.replaced target.now copy.to.name))) }
    ensures few { IfOk result (λ found. IfSome found (λ plan. ¬ HasManyExtents source.now copy.from.name)) }
{
    let Some(row) = new_row(alloc, source, target, &copy)? else {
        return Ok(None);
    };
    let SetCopy {
        from,
        to,
        runs,
        replaced,
    } = copy;
    let SetAt { unit, name } = to;
    let texts = Tracks::Rows {
        unit: from.unit,
        name: from.name,
    };
    let origin = Origin::Row(from.unit, from.name);
    let to = runs;
    let step = if replaced {
        Step::Replace {
            unit,
            name,
            to,
            origin,
        }
    } else {
        Step::Add {
            unit,
            name,
            to,
            origin,
        }
    };
    let change = putting(replaced, name, row);
    Ok(Some(plan_of(alloc, step, texts, unit, change)?))
}

/// A data set is copied onto free tracks of another unit's volume, of a like device, and taken away.
pub fn carry_set(
    alloc: Global,
    source: &Volume,
    target: &Volume,
    copy: SetCopy,
) -> Result<Option<Plan>, NoMemory>
    requires sound { IsSound source.now × IsSound target.now }
    requires like { target.now.device ≡ source.now.device }
    requires apart { copy.from.unit ≢ copy.to.unit }
    requires names { IsDsn copy.from.name × IsDsn copy.to.name }
    requires places { (row : RowOf) → HasRow source.now copy.from.name row → ArePlacesOn source.now row target.now copy.runs }
    ensures plan { IfOk result (λ found. IfSome found (IsPlanForBoth source.now copy.from.unit target.now copy.to.unit (step_of_carry copy))) }
    ensures none { IfOk result (λ found. IfNone found (HasNone source.now copy.from.name ⊎ (HasManyExtents source.now copy.from.name ⊎ IsInTheWay copy.replaced target.now copy.to.name))) }
    ensures few { IfOk result (λ found. IfSome found (λ plan. ¬ HasManyExtents source.now copy.from.name)) }
{
    let Some(row) = new_row(alloc, source, target, &copy)? else {
        return Ok(None);
    };
    let SetCopy {
        from,
        to,
        runs,
        replaced,
    } = copy;
    let texts = Tracks::Rows {
        unit: from.unit,
        name: from.name,
    };
    let step = Step::Carry {
        from: from.unit,
        old: from.name,
        unit: to.unit,
        name: to.name,
        to: runs,
        replaced,
    };
    let change = putting(replaced, to.name, row);
    let mut plan = plan_of(alloc, step, texts, to.unit, change)?;
    plan.changes.push((from.unit, Change::Remove(from.name)))?;
    Ok(Some(plan))
}
