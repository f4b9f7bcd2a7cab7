//! The tracks of data sets, and the free tracks once some are given back and others are taken.

ghost use Rattle.std.specs.Prelude.{◌≡◌, ◌≤◌, ◌++◌, All, IfOk};
ghost use Rattle.free_map.specs.Runs.{AreMaximalRuns};
ghost use Rattle.volume_model.specs.Space.{end_of};
ghost use Rattle.ckd_image.specs.Device.{heads_of};
ghost use Rattle.volume_change.specs.Runs.{runs_in, IsFreeAfter};

use ckd_image::{Device, NoMemory};
use dscb_rec::Extent;
use free_map::{FreeMap, Run, unused_tracks};
use std::alloc::Global;
use vtoc_core::{Volume, run_of};

/// The tracks of extents, in order.
pub fn extents_runs(alloc: Global, device: Device, extents: &[Extent]) -> Result<Vec<Run>, NoMemory>
    ensures { IfOk result (λ runs. runs.items ≡ runs_in (heads_of device) extents.now) }
{
    let mut runs = Vec::new(alloc);
    for extent in extents {
        runs.push(run_of(device, extent))?;
    }
    Ok(runs)
}

/// Runs, and others behind them.
fn appended(alloc: Global, front: &[Run], back: &[Run]) -> Result<Vec<Run>, NoMemory>
    ensures { IfOk result (λ runs. runs.items ≡ front.now ++ back.now) }
{
    let mut runs = Vec::new(alloc);
    runs.extend_from_slice(front)?;
    runs.extend_from_slice(back)?;
    Ok(runs)
}

/// The free tracks of a volume once the tracks of some runs are given back and then those of others are taken.
pub fn free_after(
    alloc: Global,
    volume: &Volume,
    gone: &[Run],
    put: &[Run],
) -> Result<FreeMap, NoMemory>
    requires usable { volume.now.free.usable ≡ volume.now.usable }
    requires heads { volume.now.free.heads ≡ heads_of volume.now.device }
    requires gone { All (λ run. end_of run ≤ volume.now.usable) gone.now }
    requires put { All (λ run. end_of run ≤ volume.now.usable) put.now }
    ensures sizes { IfOk result (λ after. (after.usable ≡ volume.now.free.usable) × (after.heads ≡ volume.now.free.heads)) }
    ensures free { IfOk result (λ after. AreMaximalRuns (IsFreeAfter volume.now.free gone.now put.now) after.runs) }
{
    let usable = volume.usable;
    let heads = volume.device.heads();
    let empty = appended(alloc, volume.free.runs(), gone)?;
    let used = unused_tracks(alloc, usable, heads, &empty)?;
    let taken = appended(alloc, used.runs(), put)?;
    unused_tracks(alloc, usable, heads, &taken)
}
