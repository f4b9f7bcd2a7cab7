//! The runs of free tracks behind a move are counted from those before it: only the tracks beside the two places decide.

ghost use Rattle.std.specs.Prelude.{◌≡◌, ℕ, ◌+◌, ◌<◌, ◌≤◌, ◌⊎◌, ◌↔◌, IsTrue, Any, List, length};
ghost use Rattle.free_map.specs.declared.run.Run.{Run as RunOf};
ghost use Rattle.free_map.specs.Free.{IsFree};
ghost use Rattle.free_map.specs.Runs.{HasTrack, InRuns, AreMaximalRuns};
ghost use Rattle.runs_after.specs.After.{IsFreeThen, IsBeside};

use free_map::Run;
use vtoc_core::Volume;

/// Whether a track is one of a run's.
fn holds_track(run: Run, track: u32) -> bool
    ensures { IsTrue result ↔ HasTrack run track }
{
    run.first <= track && track - run.first < run.len
}

/// Whether a track is in one of the runs.
fn is_in(runs: &[Run], track: u32) -> bool
    ensures { IsTrue result ↔ Any (λ run. HasTrack run track) runs.now }
{
    runs.iter().any(|run| holds_track(*run, track))
}

/// Whether a track is in one of the runs, or of more of them.
fn is_free_in(runs: &[Run], more: &[Run], track: u32) -> bool
    ensures { IsTrue result ↔ (InRuns runs.now track ⊎ InRuns more.now track) }
{
    is_in(runs, track) || is_in(more, track)
}

/// How many of the two tracks beside a run are in one of the runs, or of more of them.
fn beside(runs: &[Run], more: &[Run], run: Run) -> u32
    requires { run.first + run.len ≤ 65535 }
    ensures value { IsBeside (λ track. InRuns runs.now track ⊎ InRuns more.now track) run result }
    ensures few { result ≤ 2 }
{
    let is_before = run.first > 0 && is_free_in(runs, more, run.first - 1);
    u32::from(is_before) + u32::from(is_free_in(runs, more, run.first + run.len))
}

/// The number of runs of free tracks once an extent went from one run to another, of as many tracks, which are free or in the first.
pub fn runs_after(volume: &Volume, from: Run, to: Run) -> u32
    requires some { 1 ≤ from.len }
    requires as_many { to.len ≡ from.len }
    requires within { from.first + from.len ≤ volume.now.free.usable }
    requires used { (track : ℕ) → HasTrack from track → ¬ IsFree volume.now.free track }
    requires free { (track : ℕ) → HasTrack to track → IsFree volume.now.free track ⊎ HasTrack from track }
    ensures { (runs : List RunOf) → AreMaximalRuns (IsFreeThen volume.now.free from to) runs → result ≡ length runs }
{
    let free = volume.free.runs();
    let joined = beside(free, &[], from);
    let left = beside(free, &[from], to);
    (free.len() as u32 + left).saturating_sub(joined)
}
