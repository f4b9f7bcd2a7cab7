//! How much of a data set a release keeps.

ghost use Rattle.std.specs.Prelude.{◌≡◌, ◌+◌, ◌*◌, ◌^◌, ◌<◌, ◌≤◌, [], ◌∷◌};
ghost use Rattle.volume_model.specs.Pinned.{used_tracks as used_tracks_of, whole_tracks as whole_tracks_of};
ghost use Rattle.volume_model.specs.Reads.{fields_of_1};
ghost use Rattle.volume_model.specs.Space.{run_of as run_in};
ghost use Rattle.vtoc_core.specs.Loaded.{field_of};
ghost use Rattle.plan_core.specs.Extents.{extents_at};
ghost use Rattle.plan_core.specs.Release.{kept_of};
ghost use Rattle.ckd_image.specs.Device.{ceil_div, heads_of};

use ckd_image::Device;
use dscb_rec::Extent;
use set_facts::CYLINDERS;
use vtoc_core::{Row, run_of};

/// How many tracks of a data set a release keeps: all up to that of its last block, and one where there is none, but no more than it has; within
/// an extent of cylinders whole cylinders.
pub fn release_of(device: Device, row: &Row) -> u32
    ensures { result ≡ kept_of (heads_of device) row.now }
{
    whole_tracks(device, row.extents.as_slice(), used_tracks(&row.f1))
}

/// How many tracks up to the last block's, and one where there is no last block.
fn used_tracks(f1: &[u8; 140]) -> u32
    ensures value { result ≡ used_tracks_of (fields_of_1 f1.now) }
    ensures few { result ≤ 65536 }
{
    let last = u16::from_be_bytes([f1[98], f1[99]]);
    if last == 0 && f1[100] == 0 {
        return 1;
    }
    u32::from(last) + 1
}

/// So many tracks from the front of extents, and where they end within an extent of cylinders, the rest of the cylinder too.
fn whole_tracks(device: Device, extents: &[Extent], used: u32) -> u32
    requires { used ≤ 65536 }
    ensures { result ≡ whole_tracks_of (heads_of device) used (extents_at (heads_of device) extents.now) }
{
    let mut kept = 0;
    for extent in extents {
        let left = used - kept;
        let len = run_of(device, extent).len;
        if len > left {
            return kept + part_of(device, extent, left);
        }
        kept += len;
    }
    kept
}

/// How many tracks of an extent are kept for so many that are used, fewer than it has.
fn part_of(device: Device, extent: &Extent, used: u32) -> u32
    requires used { used ≤ 65536 }
    requires fewer { used < (run_in (heads_of device) (field_of extent.now)).len }
    ensures value { result ≡ whole_tracks_of (heads_of device) used (extents_at (heads_of device) (extent.now ∷ [])) }
    ensures few { result ≤ 2 ^ 21 }
{
    if extent.kind != CYLINDERS {
        return used;
    }
    in_cylinders(used, device.heads()).min(run_of(device, extent).len)
}

/// So many tracks, in whole cylinders.
fn in_cylinders(count: u32, heads: u32) -> u32
    requires few { count ≤ 65536 }
    requires some { 1 ≤ heads }
    requires few_heads { heads ≤ 255 }
    ensures { result ≡ ceil_div count heads * heads }
{
    count.div_ceil(heads) * heads
}
