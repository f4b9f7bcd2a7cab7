//! Runs that are taken from free ones, and given back.

ghost use Rattle.std.specs.Prelude.{◌≡◌, ℕ, ◌+◌, ◌<◌, ◌≤◌, ◌++◌, length, take, drop, slice_index_or, All, OnOk, OnErr};
ghost use Rattle.free_map.specs.Runs.{HasTrack, InRuns, AreApart};
ghost use Rattle.free_map.specs.Change.{parts_without, TakesRun, AddsRun};

use crate::run::Run;
use ckd_image::NoMemory;

/// The place of the first run that ends at a track or behind it.
fn place_of(runs: &[Run], track: u32) -> usize
    requires { All (λ run. run.first + run.len ≤ 65535) runs.now }
    ensures within { result ≤ length runs.now }
    ensures before { All (λ run. run.first + run.len < track) (take result runs.now) }
    ensures at { (d : Run) → result < length runs.now → track ≤ (slice_index_or runs.now result d).first + (slice_index_or runs.now result d).len }
{
    for (place, run) in runs.iter().enumerate() {
        if track <= run.end() {
            return place;
        }
    }
    runs.len()
}

/// Takes a run of free tracks.
pub(crate) fn take_run(runs: &mut Vec<Run>, run: Run) -> Result<(), NoMemory>
    requires some { 1 ≤ run.len }
    requires within { run.first + run.len ≤ 65535 }
    requires apart { AreApart 0 runs.old.items }
    requires all_within { All (λ run. run.first + run.len ≤ 65535) runs.old.items }
    requires free { (track : ℕ) → HasTrack run track → InRuns runs.old.items track }
    ensures ok { OnOk result (TakesRun run runs.old.items runs.new.items) }
    ensures err { OnErr result (runs.new.items ≡ runs.old.items) }
{
    let place = place_of(runs, run.first + 1);
    cut_out(runs, place, run)
}

/// Leaves of the run at a place what lies before and behind another, which it covers.
fn cut_out(runs: &mut Vec<Run>, place: usize, run: Run) -> Result<(), NoMemory>
    requires place { place < length runs.old.items }
    requires within { All (λ run. run.first + run.len ≤ 65535) runs.old.items }
    requires begins { (d : Run) → (slice_index_or runs.old.items place d).first ≤ run.first }
    requires ends { (d : Run) → run.first + run.len ≤ (slice_index_or runs.old.items place d).first + (slice_index_or runs.old.items place d).len }
    ensures ok { OnOk result ((d : Run) → runs.new.items ≡ take place runs.old.items ++ (parts_without run (slice_index_or runs.old.items place d) ++ drop (place + 1) runs.old.items)) }
    ensures err { OnErr result (runs.new.items ≡ runs.old.items) }
{
    let whole = runs[place];
    let before = Run {
        first: whole.first,
        len: run.first - whole.first,
    };
    let behind = Run {
        first: run.end(),
        len: whole.end() - run.end(),
    };
    if before.len == 0 && behind.len == 0 {
        runs.remove(place);
        return Ok(());
    }
    if before.len == 0 {
        runs[place] = behind;
        return Ok(());
    }
    if behind.len == 0 {
        runs[place] = before;
        return Ok(());
    }
    runs.insert(place + 1, behind)?;
    runs[place] = before;
    Ok(())
}

/// Adds a run of tracks of which none is free, and joins it to the runs that it touches.
pub(crate) fn give_run(runs: &mut Vec<Run>, run: Run) -> Result<(), NoMemory>
    requires some { 1 ≤ run.len }
    requires within { run.first + run.len ≤ 65535 }
    requires apart { AreApart 0 runs.old.items }
    requires all_within { All (λ run. run.first + run.len ≤ 65535) runs.old.items }
    requires used { (track : ℕ) → HasTrack run track → ¬ InRuns runs.old.items track }
    ensures ok { OnOk result (AddsRun run runs.old.items runs.new.items) }
    ensures err { OnErr result (runs.new.items ≡ runs.old.items) }
{
    let place = place_of(runs, run.first);
    if place == runs.len() {
        runs.push(run)?;
        return Ok(());
    }
    let found = runs[place];
    if found.end() == run.first {
        join(runs, place, run);
        return Ok(());
    }
    if found.first == run.end() {
        runs[place] = Run {
            first: run.first,
            len: run.len + found.len,
        };
        return Ok(());
    }
    runs.insert(place, run)?;
    Ok(())
}

/// Joins a run to the one at a place, at whose end it begins, and to the next where that begins at its own end.
fn join(runs: &mut Vec<Run>, place: usize, run: Run)
    requires some { 1 ≤ run.len }
    requires within { run.first + run.len ≤ 65535 }
    requires apart { AreApart 0 runs.old.items }
    requires all_within { All (λ run. run.first + run.len ≤ 65535) runs.old.items }
    requires used { (track : ℕ) → HasTrack run track → ¬ InRuns runs.old.items track }
    requires place { place < length runs.old.items }
    requires touches { (d : Run) → (slice_index_or runs.old.items place d).first + (slice_index_or runs.old.items place d).len ≡ run.first }
    ensures { AddsRun run runs.old.items runs.new.items }
{
    let found = runs[place];
    let whole = Run {
        first: found.first,
        len: found.len + run.len,
    };
    if place + 1 == runs.len() {
        runs[place] = whole;
        return;
    }
    let next = runs[place + 1];
    if run.end() < next.first {
        runs[place] = whole;
        return;
    }
    runs.remove(place + 1);
    runs[place] = Run {
        first: whole.first,
        len: whole.len + next.len,
    };
}
