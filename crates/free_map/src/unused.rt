//! The runs that used ones leave.

ghost use Rattle.std.specs.Prelude.{◌≡◌, ◌+◌, ◌<◌, ◌≤◌, ◌++◌, All, IfOk, OnOk};
ghost use Rattle.std.specs.List.Sorted.{IsNonDecreasingBy};
ghost use Rattle.free_map.specs.Runs.{AreMaximalRuns, InRuns, tracks_between};

use crate::run::Run;
use ckd_image::NoMemory;
use std::alloc::Global;

/// The maximal runs of the tracks below `usable` that no used run holds.
pub(crate) fn unused_runs(alloc: Global, usable: u32, used: &[Run]) -> Result<Vec<Run>, NoMemory>
    requires tracks { usable ≤ 65535 }
    requires within { All (λ run. run.first + run.len ≤ usable) used.now }
    ensures maximal { IfOk result (λ runs. AreMaximalRuns (λ track. (track < usable) × ¬ InRuns used.now track) runs.items) }
    ensures within { IfOk result (λ runs. All (λ run. run.first + run.len ≤ usable) runs.items) }
{
    let mut used = Vec::from_slice(alloc, used)?;
    used.sort_unstable_by_key(|run| run.first);
    gaps(alloc, usable, used.as_slice())
}

/// The same where the used runs are in ascending order.
fn gaps(alloc: Global, usable: u32, used: &[Run]) -> Result<Vec<Run>, NoMemory>
    requires tracks { usable ≤ 65535 }
    requires within { All (λ run. run.first + run.len ≤ usable) used.now }
    requires ascending { IsNonDecreasingBy (λ run. run.first) used.now }
    ensures maximal { IfOk result (λ runs. AreMaximalRuns (λ track. (track < usable) × ¬ InRuns used.now track) runs.items) }
    ensures within { IfOk result (λ runs. All (λ run. run.first + run.len ≤ usable) runs.items) }
{
    let mut free = Vec::new(alloc);
    let mut next = 0;
    for run in used {
        if run.len > 0 {
            push_tracks(&mut free, next, run.first)?;
            next = next.max(run.end());
        }
    }
    push_tracks(&mut free, next, usable)?;
    Ok(free)
}

/// Adds the tracks from one up to another, where there are any.
fn push_tracks(runs: &mut Vec<Run>, from: u32, to: u32) -> Result<(), NoMemory>
    ensures { OnOk result (runs.new.items ≡ runs.old.items ++ tracks_between from to) }
{
    if from < to {
        runs.push(Run {
            first: from,
            len: to - from,
        })?;
    }
    Ok(())
}
