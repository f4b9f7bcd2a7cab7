//! The front of a data set's extents, and extents on other tracks.

ghost use Rattle.std.specs.Prelude.{◌≡◌, ◌+◌, ◌*◌, ◌<◌, [], ◌∷◌, map, All, IfOk};
ghost use Rattle.ckd_image.specs.Device.{heads_of};
ghost use Rattle.ckd_image.specs.declared.device.Device.{Device as DeviceOf};
ghost use Rattle.volume_model.specs.Space.{run_of as run_in};
ghost use Rattle.vtoc_core.specs.Loaded.{field_of};
ghost use Rattle.move_core.specs.Steps.{IsNewKind, cut};
ghost use Rattle.step_plans.specs.Plans.{AreRuns, IsRoom, extents_from, field_on};

use ckd_image::{Device, Listed, NoMemory, TrackAt};
use dscb_rec::Extent;
use free_map::Run;
use set_facts::{CYLINDERS, is_by_cylinders};
use std::alloc::Global;
use vtoc_core::{Extents, run_of};

/// The type of an extent of tracks.
const TRACKS: u8 = 0x01;

/// The first tracks of an extent, fewer than it has.
fn front_of(device: Device, extent: &Extent, keep: u32) -> Extent
    requires some { 0 < keep }
    requires fewer { keep < (run_in (heads_of device) (field_of extent.now)).len }
    requires runs { AreRuns device (extent.now ∷ []) }
    ensures cut { extents_from device (result ∷ []) ≡ cut keep (extents_from device (extent.now ∷ [])) }
    ensures run { AreRuns device (result ∷ []) }
{
    let last = device.track_of(extent.first) + keep - 1;
    Extent {
        last: TrackAt::of(last, device.heads()),
        ..*extent
    }
}

/// So many tracks from the front of extents.
pub(crate) fn cut_extents(
    alloc: Global,
    device: Device,
    extents: &[Extent],
    keep: u32,
) -> Result<Extents, NoMemory>
    requires runs { AreRuns device extents.now }
    ensures cut { IfOk result (λ kept. extents_from device kept ≡ cut keep (extents_from device extents.now)) }
    ensures runs { IfOk result (AreRuns device) }
{
    let mut kept = Vec::new(alloc);
    let mut left = keep;
    for extent in extents {
        let count = run_of(device, extent).len;
        if left == 0 {
            break;
        }
        if count <= left {
            kept.push(*extent)?;
            left -= count;
        } else {
            kept.push(front_of(device, extent, left))?;
            left = 0;
        }
    }
    Ok(Listed::from_vec(kept))
}

/// The extent of a type on a run.
fn extent_on(device: Device, kind: u8, run: Run) -> Extent
    requires { IsRoom run }
    ensures { result ≡ field_on device kind run }
{
    let heads = device.heads();
    Extent {
        kind,
        number: 0,
        first: TrackAt::of(run.first, heads),
        last: TrackAt::of(run.first + (run.len - 1), heads),
    }
}

/// Extents of a type on runs, one for each.
pub(crate) fn extents_of_runs(
    alloc: Global,
    device: Device,
    kind: u8,
    runs: &[Run],
) -> Result<Extents, NoMemory>
    requires { All IsRoom runs.now }
    ensures { IfOk result (λ extents. extents ≡ map (field_on device kind) runs.now) }
{
    let mut extents = Vec::new(alloc);
    for run in runs {
        extents.push(extent_on(device, kind, *run))?;
    }
    Ok(Listed::from_vec(extents))
}

/// The type of a data set's new extents: of cylinders where its own all are, and else of tracks.
pub fn kind_for(extents: &[Extent]) -> u8
    ensures { (device : DeviceOf) → IsNewKind (extents_from device extents.now) result }
{
    if is_by_cylinders(extents) {
        CYLINDERS
    } else {
        TRACKS
    }
}
