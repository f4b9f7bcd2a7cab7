//! Which data sets of a volume a filter takes.

ghost use Rattle.std.specs.Prelude.{◌≢◌, ◌↔◌, IsTrue, All, AllPairs, Contains, IfOk, IfSome, IfNone};
ghost use Rattle.by_rules.specs.Day.{IsToday};
ghost use Rattle.ckd_image.specs.Device.{heads_of};
ghost use Rattle.volume_model.specs.Unit.{DataSet, OnlineVolume};
ghost use Rattle.vtoc_core.specs.declared.volume.Row.{Row as RowOf};
ghost use Rattle.step_plans.specs.unit_change.Described.{Describes, DescribesSet};
ghost use Rattle.step_plans.specs.unit_steps.Plans.{HasRow};
ghost use Rattle.step_plans.specs.Plans.{IsSound};
ghost use Rattle.job_select.specs.Selection.{ArePicked, Takes, Selects};

use crate::names::name_of;
use crate::tracks::track_count;
use by_rules::Day;
use ckd_image::NoMemory;
use dsn_filter::Dsn;
use set_facts::{is_selected, row_facts};
use std::alloc::Global;
use sysin_lang::Filter;
use vtoc_core::{Row, Volume};

/// Whether a filter takes the data set of a name.
fn takes(volume: &Volume, row: &Row, name: &Dsn, filter: &Filter, today: Day) -> bool
    requires sound { IsSound volume.now }
    requires there { HasRow volume.now name.now row.now }
    requires today { IsToday today }
    ensures { (set : DataSet) → DescribesSet (heads_of volume.now.device) row.now set → (IsTrue result ↔ Takes filter.now today set) }
{
    let extents = row.extents.len() as u32;
    let facts = row_facts(&row.f1, extents, track_count(volume, row));
    let include = filter.include.as_slice();
    let exclude = filter.exclude.as_slice();
    is_selected(include, exclude, &filter.by, today, name, &facts)
}

/// The name of a data set, if it has one and a filter takes it.
fn name_taken(volume: &Volume, row: &Row, filter: &Filter, today: Day) -> Option<Dsn>
    requires sound { IsSound volume.now }
    requires there { Contains volume.now.rows row.now }
    requires today { IsToday today }
    ensures row { IfSome result (λ name. HasRow volume.now name row.now) }
    ensures taken { IfSome result (λ name. (set : DataSet) → DescribesSet (heads_of volume.now.device) row.now set → Takes filter.now today set) }
    ensures none { IfNone result ((set : DataSet) → DescribesSet (heads_of volume.now.device) row.now set → ¬ Takes filter.now today set) }
{
    let name = name_of(row)?;
    if !takes(volume, row, &name, filter, today) {
        return None;
    }
    Some(name)
}

/// The names of the data sets that a filter takes, in the order of names, none of them twice. It is one pass over the data sets.
pub fn select(
    alloc: Global,
    volume: &Volume,
    filter: &Filter,
    today: Day,
) -> Result<Vec<Dsn>, NoMemory>
    requires sound { IsSound volume.now }
    requires today { IsToday today }
    ensures selected { IfOk result (λ names. (described : OnlineVolume) → Describes volume.now described → Selects filter.now today described.sets names.items) }
    ensures there { IfOk result (λ names. All (λ name. (row : RowOf) × HasRow volume.now name row) names.items) }
    ensures apart { IfOk result (λ names. AllPairs (λ name other. name ≢ other) names.items) }
    ensures rows { IfOk result (λ names. ArePicked volume.now volume.now.rows names.items) }
{
    let rows = volume.rows.as_slice();
    let mut names = Vec::new(alloc);
    for row in rows {
        if let Some(name) = name_taken(volume, row, filter, today) {
            names.push(name)?;
        }
    }
    Ok(names)
}
