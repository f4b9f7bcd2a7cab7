//! Places for a number of tracks in several free runs.

ghost use Rattle.std.specs.Prelude.{◌≡◌, ◌+◌, ◌<◌, ◌≤◌, take, All, IfOk, IfErr, IfSome, IfNone};
ghost use Rattle.free_map.specs.Runs.{AreApart};
ghost use Rattle.free_map.specs.Free.{count_of};
ghost use Rattle.free_map.specs.Several.{AreLongestFirst, IsCutFront, AreChosen, IsChoiceFault};

use crate::fault::FreeFault;
use crate::places::{aligned, lowest_place, round_up};
use crate::run::{Run, Runs};
use crate::sums::longest;
use ckd_image::NoMemory;
use std::alloc::Global;

/// A place has at most so many runs, as a data set has extents.
const MOST_RUNS: usize = 16;

pub(crate) fn several_places(
    alloc: Global,
    runs: &[Run],
    need: u32,
    step: u32,
) -> Result<Runs, FreeFault>
    requires some { 1 ≤ step }
    requires few { step ≤ 255 }
    requires apart { AreApart 0 runs.now }
    requires within { All (λ run. run.first + run.len ≤ 65535) runs.now }
    ensures chosen { IfOk result (AreChosen runs.now need step) }
    ensures refused { IfErr result (IsChoiceFault runs.now need step) }
{
    if need == 0 {
        return Ok(Runs::new(alloc));
    }
    let tracks = round_up(need, step);
    if let Some(first) = lowest_place(runs, need, step) {
        let mut one = Runs::new(alloc);
        one.push(Run {
            first,
            len: tracks as u32,
        })?;
        return Ok(one);
    }
    let parts = longest_first(alloc, runs, step)?;
    match cut_front(alloc, most_runs(parts.as_slice()), tracks)? {
        Some(chosen) => Ok(Runs::from_vec(chosen)),
        None => Err(FreeFault::NoRun(longest(parts.as_slice()))),
    }
}

/// The parts of runs on whole steps, the longest first.
fn longest_first(alloc: Global, runs: &[Run], step: u32) -> Result<Vec<Run>, NoMemory>
    requires some { 1 ≤ step }
    requires few { step ≤ 255 }
    requires within { All (λ run. run.first + run.len ≤ 65535) runs.now }
    ensures { IfOk result (λ parts. AreLongestFirst (Rattle.free_map.specs.Several.parts_of step runs.now) parts.items) }
{
    let mut parts = parts_of(alloc, runs, step)?;
    sort_longest_first(&mut parts);
    Ok(parts)
}

fn parts_of(alloc: Global, runs: &[Run], step: u32) -> Result<Vec<Run>, NoMemory>
    requires some { 1 ≤ step }
    requires few { step ≤ 255 }
    requires within { All (λ run. run.first + run.len ≤ 65535) runs.now }
    ensures { IfOk result (λ parts. parts.items ≡ Rattle.free_map.specs.Several.parts_of step runs.now) }
{
    Ok(
        runs.iter()
            .map(|run| aligned(*run, step))
            .filter(|part| part.len > 0)
            .collect(alloc)?,
    )
}

fn sort_longest_first(parts: &mut Vec<Run>)
    ensures { AreLongestFirst parts.old.items parts.new.items }
{
    parts.sort_unstable_by(|a, b| b.len.cmp(&a.len).then(a.first.cmp(&b.first)));
}

/// The first of them, as many as a place may have.
fn most_runs(parts: &[Run]) -> &[Run]
    ensures { result.now ≡ take 16 parts.now }
{
    &parts[..parts.len().min(MOST_RUNS)]
}

/// The shortest front of runs that has so many tracks, its last run cut to what remains, if all of them have as many.
fn cut_front(alloc: Global, runs: &[Run], tracks: u64) -> Result<Option<Vec<Run>>, NoMemory>
    requires { 1 ≤ tracks }
    ensures cut { IfOk result (λ cut. IfSome cut (λ chosen. IsCutFront tracks runs.now chosen.items)) }
    ensures short { IfOk result (λ cut. IfNone cut (count_of runs.now < tracks)) }
{
    let mut chosen = Vec::new(alloc);
    let mut left = tracks;
    for run in runs {
        let len = u64::from(run.len);
        if left <= len {
            chosen.push(Run {
                first: run.first,
                len: left as u32,
            })?;
            return Ok(Some(chosen));
        }
        chosen.push(*run)?;
        left -= len;
    }
    Ok(None)
}
