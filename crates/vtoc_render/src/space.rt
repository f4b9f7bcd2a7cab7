//! The free tracks after a change.

ghost use Rattle.std.specs.Prelude.{◌≡◌, ◌≤◌, IfOk, IfSome, All, length, map, option_to_list};
ghost use Rattle.std.specs.Option.{option_copied};
ghost use Rattle.ckd_image.specs.Device.{heads_of};
ghost use Rattle.dscb_rec.specs.Field.{IsEntry5};
ghost use Rattle.free_map.specs.Entries.{entry_of};
ghost use Rattle.free_map.specs.Runs.{AreMaximalRuns};
ghost use Rattle.volume_model.specs.Space.{end_of};
ghost use Rattle.volume_change.specs.Runs.{runs_in, IsFreeAfter};
ghost use Rattle.vtoc_render.specs.Next.{runs_of_rows};
ghost use Rattle.vtoc_render.specs.Steps.{AreBelow};

use ckd_image::NoMemory;
use dscb_rec::{Entry5, Extent};
use free_map::{FreeMap, Run};
use std::alloc::Global;
use volume_change::{extents_runs, free_after};
use vtoc_core::{Row, Volume};

/// The tracks of extents.
fn runs_below(alloc: Global, volume: &Volume, extents: &[Extent]) -> Result<Vec<Run>, NoMemory>
    requires { AreBelow volume.now extents.now }
    ensures runs { IfOk result (λ runs. runs.items ≡ runs_in (heads_of volume.now.device) extents.now) }
    ensures below { IfOk result (λ runs. All (λ run. end_of run ≤ volume.now.usable) runs.items) }
{
    let runs = extents_runs(alloc, volume.device, extents)?;
    Ok(runs)
}

/// The tracks of a data set, if there is one.
fn runs_of(alloc: Global, volume: &Volume, row: Option<&Row>) -> Result<Vec<Run>, NoMemory>
    requires { IfSome (option_copied row) (λ row. AreBelow volume.now row.extents) }
    ensures runs { IfOk result (λ runs. runs.items ≡ runs_of_rows volume.now (option_to_list (option_copied row.entry))) }
    ensures below { IfOk result (λ runs. All (λ run. end_of run ≤ volume.now.usable) runs.items) }
{
    match row {
        Some(row) => runs_below(alloc, volume, row.extents.as_slice()),
        None => Ok(Vec::new(alloc)),
    }
}

/// The free tracks once one data set is away and another is put.
pub(crate) fn free_with(
    alloc: Global,
    volume: &Volume,
    gone: Option<&Row>,
    put: Option<&Row>,
) -> Result<FreeMap, NoMemory>
    requires gone { IfSome (option_copied gone) (λ row. AreBelow volume.now row.extents) }
    requires put { IfSome (option_copied put) (λ row. AreBelow volume.now row.extents) }
    requires small { volume.now.usable ≤ 65535 }
    requires usable { volume.now.free.usable ≡ volume.now.usable }
    requires heads { volume.now.free.heads ≡ heads_of volume.now.device }
    ensures sizes { IfOk result (λ after. (after.usable ≡ volume.now.free.usable) × (after.heads ≡ volume.now.free.heads)) }
    ensures free { IfOk result (λ after. AreMaximalRuns (IsFreeAfter volume.now.free (runs_of_rows volume.now (option_to_list (option_copied gone.entry))) (runs_of_rows volume.now (option_to_list (option_copied put.entry)))) after.runs) }
{
    let given = runs_of(alloc, volume, gone)?;
    let taken = runs_of(alloc, volume, put)?;
    free_after(alloc, volume, &given, &taken)
}

/// The entries of format 5s that state free tracks.
pub(crate) fn entries_for(free: &FreeMap) -> Result<Vec<Entry5>, NoMemory>
    ensures told { IfOk result (λ entries. entries.items ≡ map (entry_of free.now.heads) free.now.runs) }
    ensures fits { IfOk result (λ entries. All IsEntry5 entries.items) }
{
    match free.entries5() {
        Ok(entries) => Ok(entries),
        Err(_) => Err(NoMemory),
    }
}

/// How many runs of free tracks there are.
pub(crate) fn count_runs(free: &FreeMap) -> usize
    ensures value { result ≡ length free.now.runs }
    ensures few { length free.now.runs ≤ 65535 }
{
    free.runs().len()
}
