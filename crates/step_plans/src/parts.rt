//! Plans of parts of a dump.

ghost use Rattle.std.specs.Prelude.{◌≡◌, take, map, All, IfOk, IfSome, IfNone, slice_index};
ghost use Rattle.dsn_filter.specs.Dsn.{IsDsn};
ghost use Rattle.volume_model.specs.Pinned.{IsNameOf};
ghost use Rattle.volume_model.specs.Reads.{fields_of_1};
ghost use Rattle.move_core.specs.Steps.{fields_at};
ghost use Rattle.step_plans.specs.Plans.{IsRoom, IsSound, IsInTheWay, field_on};
ghost use Rattle.step_plans.specs.Parts.{ArePlacesOfPart, IsPartPlan};

use crate::copies::{SetAt, is_in_the_way, putting};
use crate::extents::extents_of_runs;
use crate::plans::plan_of;
use crate::rows::copied_row;
use ckd_image::NoMemory;
use dd_names::DdName;
use free_map::Runs;
use move_core::{Origin, Step};
use std::alloc::Global;
use unit_steps::{Plan, Tracks};
use vtoc_core::{Row, Volume};

/// A part of a dump on free runs of tracks, under a name that it replaces or that isn't there: the input that holds it and its number among the whole
/// parts, its format 1, the type of its new extents, and how many tracks it has.
#[derive(Debug, Drop)]
pub struct PartSet {
    pub input: DdName,
    pub number: u32,
    pub f1: [u8; 140],
    pub kind: u8,
    pub tracks: u32,
    pub to: SetAt,
    pub runs: Runs,
    pub replaced: bool,
}

/// The row that is put for a part.
fn part_row(alloc: Global, target: &Volume, part: &PartSet) -> Result<Row, NoMemory>
    requires rooms { All IsRoom part.now.runs }
    requires lawful { IsDsn part.now.to.name }
    ensures name { IfOk result (λ row. IsNameOf part.now.to.name row.name) }
    ensures front { IfOk result (λ row. take 44 row.f1 ≡ row.name) }
    ensures code { IfOk result (λ row. slice_index row.f1 44 ≡ slice_index part.now.f1 44) }
    ensures fields { IfOk result (λ row. fields_of_1 row.f1 ≡ fields_at row.name target.now.serial (fields_of_1 part.now.f1)) }
    ensures extents { IfOk result (λ row. row.extents ≡ map (field_on target.now.device part.now.kind) part.now.runs) }
{
    let row = Row {
        name: [0; 44],
        f1: part.f1,
        extents: extents_of_runs(alloc, target.device, part.kind, part.runs.as_slice())?,
        threes: 0,
    };
    Ok(copied_row(row, &part.to.name, target.serial))
}

/// A part of a dump is put on free tracks of a volume of its device.
pub fn part_set(alloc: Global, target: &Volume, part: PartSet) -> Result<Option<Plan>, NoMemory>
    requires sound { IsSound target.now }
    requires name { IsDsn part.to.name }
    requires format { slice_index part.f1 44 ≡ 0xf1 }
    requires places { ArePlacesOfPart target.now part }
    ensures plan { IfOk result (λ found. IfSome found (IsPartPlan target.now part)) }
    ensures none { IfOk result (λ found. IfNone found (IsInTheWay part.replaced target.now part.to.name)) }
{
    if is_in_the_way(target, &part.to.name, part.replaced) {
        return Ok(None);
    }
    let row = part_row(alloc, target, &part)?;
    let PartSet {
        input,
        number,
        to: SetAt { unit, name },
        runs: to,
        replaced,
        ..
    } = part;
    let origin = Origin::Part(input, number);
    let step = if replaced {
        Step::Replace {
            unit,
            name,
            to,
            origin,
        }
    } else {
        Step::Add {
            unit,
            name,
            to,
            origin,
        }
    };
    let change = putting(replaced, name, row);
    Ok(Some(plan_of(alloc, step, Tracks::Given, unit, change)?))
}
