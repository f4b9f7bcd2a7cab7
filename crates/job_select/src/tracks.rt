//! How many tracks a data set has, and how many of them a release keeps.

ghost use Rattle.std.specs.Prelude.{◌≡◌, ◌≤◌, length, Contains};
ghost use Rattle.ckd_image.specs.Device.{heads_of};
ghost use Rattle.volume_model.specs.Pinned.{kept_tracks as kept_tracks_of};
ghost use Rattle.volume_model.specs.Unit.{DataSet, tracks_of};
ghost use Rattle.step_plans.specs.unit_change.Described.{DescribesSet};
ghost use Rattle.step_plans.specs.Plans.{IsSound, extents_from};

use ckd_image::Device;
use plan_core::{count_tracks, release_of};
use vtoc_core::{Row, Volume};

/// How many tracks a data set of a volume has.
pub fn track_count(volume: &Volume, row: &Row) -> u32
    requires sound { IsSound volume.now }
    requires there { Contains volume.now.rows row.now }
    ensures count { result ≡ length (tracks_of (extents_from volume.now.device row.now.extents)) }
    ensures few { result ≤ 65535 }
{
    count_tracks(volume.device, row.extents.as_slice())
}

/// How many tracks of a data set a release keeps: all up to that of its last block, and one where there is none; within an extent of
/// cylinders whole cylinders.
pub fn kept_tracks(device: Device, row: &Row) -> u32
    ensures { (set : DataSet) → DescribesSet (heads_of device) row.now set → result ≡ kept_tracks_of (heads_of device) set }
{
    release_of(device, row)
}
