//! Places for a number of tracks among free runs.

ghost use Rattle.std.specs.Prelude.{◌≡◌, ℕ, ◌+◌, ◌<◌, ◌≤◌, All, IfSome, IfNone};
ghost use Rattle.free_map.specs.Runs.{AreApart, InRuns};
ghost use Rattle.free_map.specs.Place.{rounded, aligned_part, IsPlace, IsLowestPlace};

use crate::run::Run;

/// A need in whole steps.
pub(crate) fn round_up(need: u32, step: u32) -> u64
    requires { 1 ≤ step }
    ensures { result ≡ rounded need step }
{
    u64::from(need).div_ceil(u64::from(step)) * u64::from(step)
}

/// The part of a run that lies on whole steps.
pub(crate) fn aligned(run: Run, step: u32) -> Run
    requires some { 1 ≤ step }
    requires few { step ≤ 255 }
    requires within { run.first + run.len ≤ 65535 }
    ensures { result ≡ aligned_part step run }
{
    let first = run.first.div_ceil(step) * step;
    let end = run.end() / step * step;
    Run {
        first,
        len: end.saturating_sub(first),
    }
}

pub(crate) fn lowest_place(runs: &[Run], need: u32, step: u32) -> Option<u32>
    requires need { 1 ≤ need }
    requires some { 1 ≤ step }
    requires few { step ≤ 255 }
    requires apart { AreApart 0 runs.now }
    requires within { All (λ run. run.first + run.len ≤ 65535) runs.now }
    ensures found { IfSome result (IsLowestPlace (InRuns runs.now) need step) }
    ensures none { IfNone result ((start : ℕ) → ¬ IsPlace (InRuns runs.now) need step start) }
{
    let tracks = round_up(need, step);
    for run in runs {
        let part = aligned(*run, step);
        if tracks <= u64::from(part.len) {
            return Some(part.first);
        }
    }
    None
}
