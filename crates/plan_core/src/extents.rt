//! The tracks of extents.

ghost use Rattle.std.specs.Prelude.{◌≡◌, ◌^◌, ◌<◌, length};
ghost use Rattle.ckd_image.specs.Device.{heads_of};
ghost use Rattle.volume_model.specs.Unit.{tracks_of};
ghost use Rattle.plan_core.specs.Extents.{extents_at};

use ckd_image::Device;
use dscb_rec::Extent;
use vtoc_core::run_of;

/// How many tracks extents have.
pub fn count_tracks(device: Device, extents: &[Extent]) -> u32
    requires { length (tracks_of (extents_at (heads_of device) extents.now)) < 2 ^ 32 }
    ensures { result ≡ length (tracks_of (extents_at (heads_of device) extents.now)) }
{
    let mut count = 0;
    for extent in extents {
        count += run_of(device, extent).len;
    }
    count
}
