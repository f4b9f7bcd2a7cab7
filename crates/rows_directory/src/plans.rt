//! Tests: how many runs of tracks are free once an extent went to another place. No run asks it yet.

ghost use Rattle.std.specs.Prelude.{◌≡◌, ◌∷◌, ◌≤◌, ◌<◌, ◌+◌, ◌⊎◌, ◌↔◌, ℕ, All, IsTrue, IfOk};
ghost use Rattle.ckd_image.specs.declared.device.Device.TheVariants.{D3390};
ghost use Rattle.free_map.specs.Free.{IsFree};
ghost use Rattle.free_map.specs.Runs.{InRuns};

use ckd_image::{Device, NoMemory};
use free_map::{FreeFault, FreeMap, Run};
use runs_after::runs_after;
use std::alloc::Global;
use std::process::Abort;
use std::test::*;
use vol_label::Serial;
use vtoc_core::{Rows, Volume};

/// Whether runs end at or below a track.
fn end_by(runs: &[Run], track: u32) -> bool
    ensures { IsTrue result ↔ All (λ run. run.first + run.len ≤ track) runs.now }
{
    runs.iter().all(|run| u64::from(run.first) + u64::from(run.len) <= u64::from(track))
}

/// A 3390 of so many tracks, of which these runs are used.
fn volume_of(alloc: Global, usable: u32, used: &[Run]) -> Result<Volume, FreeFault>
    requires few { usable ≤ 65535 }
    requires within { All (λ run. run.first + run.len ≤ usable) used.now }
    ensures heads { IfOk result (λ volume. volume.free.heads ≡ 15) }
    ensures usable { IfOk result (λ volume. volume.free.usable ≡ usable) }
    ensures free { IfOk result (λ volume. (track : ℕ) → IsFree volume.free track ↔ ((track < usable) × ¬ InRuns used.now track)) }
    ensures device { IfOk result (λ volume. volume.device ≡ D3390) }
{
    Ok(Volume {
        serial: Serial { text: [0x40; 6] },
        device: Device::D3390,
        usable,
        vtoc: Run { first: 1, len: 1 },
        rows: Rows::new(alloc),
        free: FreeMap::from_used(alloc, usable, 15, used)?,
        repair: false,
        indexed: false,
        dscbs: 50,
        free_dscbs: 48,
        fives: 1,
    })
}

/// Whether a run has no track of any of some.
fn is_apart(run: Run, others: &[Run]) -> bool
    ensures { IsTrue result ↔ All (λ other. (run.first + run.len ≤ other.first) ⊎ (other.first + other.len ≤ run.first)) others.now }
{
    others.iter().all(|other| {
        u64::from(run.first) + u64::from(run.len) <= u64::from(other.first)
            || u64::from(other.first) + u64::from(other.len) <= u64::from(run.first)
    })
}

/// A run, and others.
fn with_first(alloc: Global, first: Run, others: &[Run]) -> Result<Vec<Run>, NoMemory>
    ensures { IfOk result (λ runs. runs.items ≡ first ∷ others.now) }
{
    let mut runs = Vec::new(alloc);
    runs.push(first)?;
    runs.extend_from_slice(others)?;
    Ok(runs)
}

/// How many runs of free tracks there are once an extent went from one run to another on a volume of so many tracks, of which other runs are used too.
/// `None` where what is given can't be.
fn runs_behind(
    alloc: Global,
    usable: u32,
    others: &[Run],
    from: Run,
    to: Run,
) -> Result<Option<u32>, FreeFault> {
    let Ok(used) = with_first(alloc, from, others) else {
        return Err(FreeFault::NoMemory);
    };
    if usable > 65_535 || !end_by(&used, usable) || !end_by(&[to], usable) {
        return Ok(None);
    }
    if from.len == 0 || to.len != from.len || !is_apart(to, others) {
        return Ok(None);
    }
    let volume = volume_of(alloc, usable, &used)?;
    Ok(Some(runs_after(&volume, from, to)))
}

/// The first track of an extent, where it goes to, how many tracks it has, and how many runs are free then, on 30 tracks of which 0 to 7 are used too.
static MOVES: [(u32, u32, u32, u32); 6] = [
    (8, 11, 3, 2), // 8 to 10 and 14 to 29
    (8, 20, 3, 2), // 8 to 19 and 23 to 29
    (8, 27, 3, 1), // 8 to 26
    (20, 8, 5, 1), // 13 to 29
    (20, 18, 5, 2), // 8 to 17 and 23 to 29
    (8, 8, 22, 0),
];

fn assert_moves(rt: &impl Abort, alloc: Global) -> Result<(), FreeFault> {
    for &(from, to, len, count) in &MOVES {
        let label = Run { first: 0, len: 8 };
        let (old, new) = (Run { first: from, len }, Run { first: to, len });
        let found = runs_behind(alloc, 30, &[label], old, new)?;
        assert_eq!(rt; found, Some(count), "{from} to {to}");
    }
    Ok(())
}

#[test]
fn runs_of_free_tracks_are_counted_behind_a_move(rt: HostRuntime) -> Result<(), Fail> {
    Ok(assert_moves(&rt, rt.alloc())?)
}
