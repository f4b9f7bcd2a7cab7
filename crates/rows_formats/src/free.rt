//! Tests: free tracks and places for new extents.

ghost use Rattle.std.specs.Prelude.{◌≡◌, ℕ, ◌+◌, ◌≤◌, ◌↔◌, All, IsTrue};
ghost use Rattle.free_map.specs.Runs.{HasTrack, InRuns};

use dscb_rec::Entry5;
use free_map::*;
use std::process::Abort;
use std::test::*;

/// The answer of a helper below where its arguments don't meet what the call needs.
const UNMET: FreeFault = FreeFault::NoRun(u32::MAX);

fn run(first: u32, len: u32) -> Run {
    Run { first, len }
}

/// Whether a run ends at or below a track.
fn ends_by(run: Run, track: u32) -> bool
    ensures { IsTrue result ↔ (run.first + run.len ≤ track) }
{
    u64::from(run.first) + u64::from(run.len) <= u64::from(track)
}

/// Whether one of some runs covers a run.
fn covered(runs: &[Run], run: Run) -> bool
    requires all_within { All (λ run. run.first + run.len ≤ 65535) runs.now }
    requires within { run.first + run.len ≤ 65535 }
    ensures { IsTrue result → (track : ℕ) → HasTrack run track → InRuns runs.now track }
{
    for free in runs {
        if free.first <= run.first && run.end() <= free.end() {
            return true;
        }
    }
    false
}

/// Whether no run has a track of another one.
fn apart(runs: &[Run], run: Run) -> bool
    requires all_within { All (λ run. run.first + run.len ≤ 65535) runs.now }
    requires within { run.first + run.len ≤ 65535 }
    ensures { IsTrue result → (track : ℕ) → HasTrack run track → ¬ InRuns runs.now track }
{
    for free in runs {
        if free.first < run.end() && run.first < free.end() {
            return false;
        }
    }
    true
}

/// A map, and up to where its tracks go.
#[derive(Drop)]
struct Volume {
    map: FreeMap,
    usable: u32,
    ghost same: { usable ≡ map.usable },
    ghost cylinders: { map.heads ≡ 15 },
}

impl Volume {
    /// What used runs leave of a volume.
    fn left_by(rt: &HostRuntime, usable: u32, used: &[Run]) -> Result<Volume, FreeFault> {
        if usable > 65_535 || !used.iter().all(|run| ends_by(*run, usable)) {
            return Err(UNMET);
        }
        let map = FreeMap::from_used(rt.alloc(), usable, 15, used)?;
        Ok(Volume { map, usable })
    }

    fn take(&mut self, run: Run) -> Result<(), FreeFault> {
        if run.len == 0 || !ends_by(run, 65_535) || !covered(self.map.runs(), run) {
            return Err(UNMET);
        }
        self.map.take(run)
    }

    fn give(&mut self, run: Run) -> Result<(), FreeFault> {
        if run.len == 0 || !ends_by(run, self.usable) || !apart(self.map.runs(), run) {
            return Err(UNMET);
        }
        self.map.give(run)
    }
}

#[test]
fn used_runs_leave_the_maximal_runs_of_the_rest(rt: HostRuntime) -> Result<(), Fail> {
    let used = [run(15, 30), run(0, 2), run(20, 5), run(9, 0)];
    let volume = Volume::left_by(&rt, 60, &used)?;
    assert_eq!(rt; volume.map.runs(), [run(2, 13), run(45, 15)].as_slice());
    assert_eq!(rt; volume.map.count(), 28);
    // 1000 less 1000 times 15 over 28
    assert_eq!(rt; volume.map.index(), 465);
    let short = Entry5 {
        first: 2,
        cylinders: 0,
        tracks: 13,
    };
    let cylinder = Entry5 {
        first: 45,
        cylinders: 1,
        tracks: 0,
    };
    assert_eq!(rt;
        volume.map.entries5()?.as_slice(),
        [short, cylinder].as_slice()
    );
    Ok(())
}

#[test]
fn places_are_the_lowest_that_hold_a_need_and_else_the_longest(
    rt: HostRuntime,
) -> Result<(), Fail> {
    // free: 2 to 9, 20 to 46, 50 to 89
    let volume = Volume::left_by(&rt, 90, &[run(0, 2), run(10, 10), run(47, 3)])?;
    assert_eq!(rt; volume.map.first_fit(9, 1), Some(20));
    assert_eq!(rt; volume.map.first_fit(16, 15), Some(60));
    assert_eq!(rt;
        volume.map.several(9, 1)?.as_slice(),
        [run(20, 9)].as_slice()
    );
    let both = [run(60, 30), run(30, 15)];
    assert_eq!(rt; volume.map.several(31, 15)?.as_slice(), both.as_slice());
    Ok(())
}

/// A run, and what is free once it is taken or given back, each by its first track and its length.
type Change = ((u32, u32), &'static [(u32, u32)]);

static TAKEN: [Change; 5] = [
    ((0, 5), &[(5, 25)]),
    ((25, 5), &[(5, 20)]),
    ((10, 5), &[(5, 5), (15, 10)]),
    ((15, 10), &[(5, 5)]),
    ((5, 5), &[]),
];

static GIVEN: [Change; 6] = [
    ((10, 5), &[(10, 5)]),
    ((5, 5), &[(5, 10)]),
    ((15, 5), &[(5, 15)]),
    ((25, 5), &[(5, 15), (25, 5)]),
    ((0, 4), &[(0, 4), (5, 15), (25, 5)]),
    ((20, 5), &[(0, 4), (5, 25)]),
];

fn are_runs(runs: &[Run], want: &[(u32, u32)]) -> bool {
    runs.len() == want.len()
        && runs
            .iter()
            .zip(want)
            .all(|(found, (first, len))| *found == run(*first, *len))
}

fn assert_taken(rt: &impl Abort, volume: &mut Volume) -> Result<(), FreeFault> {
    for &((first, len), left) in &TAKEN {
        volume.take(run(first, len))?;
        assert!(rt; are_runs(volume.map.runs(), left), "{first} {len}");
    }
    Ok(())
}

fn assert_given(rt: &impl Abort, volume: &mut Volume) -> Result<(), FreeFault> {
    for &((first, len), left) in &GIVEN {
        volume.give(run(first, len))?;
        assert!(rt; are_runs(volume.map.runs(), left), "{first} {len}");
    }
    Ok(())
}

#[test]
fn ends_of_a_run_are_taken_and_given(rt: HostRuntime) -> Result<(), Fail> {
    let mut volume = Volume::left_by(&rt, 30, &[])?;
    assert_taken(&rt, &mut volume)?;
    assert_given(&rt, &mut volume)?;
    Ok(())
}
