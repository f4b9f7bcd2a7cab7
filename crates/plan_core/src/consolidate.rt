//! Where a data set has room in one extent.

ghost use Rattle.std.specs.Prelude.{◌≡◌, IfSome, IfNone};
ghost use Rattle.ckd_image.specs.Device.{heads_of};
ghost use Rattle.dsn_filter.specs.Dsn.{IsDsn};
ghost use Rattle.free_map.specs.Free.{IsFree};
ghost use Rattle.vtoc_core.specs.declared.volume.Row.{Row as RowOf};
ghost use Rattle.volume_change.specs.Spot.{AreNamed};
ghost use Rattle.plan_core.specs.Extents.{extents_at};
ghost use Rattle.plan_core.specs.Consolidate.{IsRowOf, IsSized, IsStepOf, IsPlaceFor, HasNoPlace};

use crate::extents::count_tracks;
use ckd_image::Device;
use dsn_filter::Dsn;
use set_facts::is_by_cylinders;
use volume_change::find;
use vtoc_core::{Row, Volume};

/// The first track of the lowest free run that holds all tracks of a data set: of whole cylinders where all its extents are.
pub fn next_consolidate(volume: &Volume, name: &Dsn) -> Option<u32>
    requires rows { AreNamed volume.now.rows }
    requires heads { volume.now.free.heads ≡ heads_of volume.now.device }
    requires name { IsDsn name.now }
    requires there { (row : RowOf) × IsRowOf volume.now name.now row }
    requires sizes { (row : RowOf) → IsRowOf volume.now name.now row → IsSized (extents_at (heads_of volume.now.device) row.extents) }
    ensures found { IfSome result (λ start. (row : RowOf) × IsRowOf volume.now name.now row
        × IsPlaceFor (IsFree volume.now.free) (heads_of volume.now.device) (extents_at (heads_of volume.now.device) row.extents) start) }
    ensures none { IfNone result ((row : RowOf) × IsRowOf volume.now name.now row
        × HasNoPlace (IsFree volume.now.free) (heads_of volume.now.device) (extents_at (heads_of volume.now.device) row.extents)) }
{
    let Some(place) = find(volume, name) else {
        unreachable!();
    };
    place_for(volume, &volume.rows.as_slice()[place])
}

/// The same for a row's data set, which needs no search for the name.
pub fn place_for(volume: &Volume, row: &Row) -> Option<u32>
    requires heads { volume.now.free.heads ≡ heads_of volume.now.device }
    requires size { IsSized (extents_at (heads_of volume.now.device) row.now.extents) }
    ensures found { IfSome result (IsPlaceFor (IsFree volume.now.free) (heads_of volume.now.device) (extents_at (heads_of volume.now.device) row.now.extents)) }
    ensures none { IfNone result (HasNoPlace (IsFree volume.now.free) (heads_of volume.now.device) (extents_at (heads_of volume.now.device) row.now.extents)) }
{
    let need = count_tracks(volume.device, row.extents.as_slice());
    volume.free.first_fit(need, step_of(volume.device, row))
}

/// Whether it is looked for track by track, or cylinder by cylinder.
fn step_of(device: Device, row: &Row) -> u32
    ensures { IsStepOf (heads_of device) (extents_at (heads_of device) row.now.extents) result }
{
    if is_by_cylinders(row.extents.as_slice()) {
        device.heads()
    } else {
        1
    }
}
