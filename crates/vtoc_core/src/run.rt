//! The tracks of an extent.

ghost use Rattle.std.specs.Prelude.{◌≡◌, ◌≤◌, ◌^◌};
ghost use Rattle.ckd_image.specs.Device.{heads_of};
ghost use Rattle.volume_model.specs.Space.{run_of as run_in};
ghost use Rattle.vtoc_core.specs.Loaded.{field_of};

use ckd_image::Device;
use dscb_rec::Extent;
use free_map::Run;

/// The tracks of an extent, none where its last one is before its first.
pub fn run_of(device: Device, extent: &Extent) -> Run
    ensures run { result ≡ run_in (heads_of device) (field_of extent.now) }
    ensures few { result.len ≤ 2 ^ 21 }
{
    let first = device.track_of(extent.first);
    let end = device.track_of(extent.last) + 1;
    Run {
        first,
        len: end.saturating_sub(first),
    }
}
