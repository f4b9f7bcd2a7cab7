//! The mark of a change that was interrupted.

ghost use Rattle.std.specs.Prelude.{◌≡◌, ◌≤◌, IfOk};
ghost use Rattle.ckd_image.specs.Device.{heads_of};
ghost use Rattle.free_map.specs.Runs.{AreApart};
ghost use Rattle.vtoc_render.specs.Loads.{LoadsFrom, OfEachVtoc};
ghost use Rattle.vtoc_render.specs.Written.{IsMarked};

use crate::change::Rendered;
use crate::four::four_marked;
use crate::ground::ground_of;
use crate::space::free_with;
use ckd_image::NoMemory;
use std::alloc::Global;
use volume_change::{Spot, rows_after};
use vtoc_core::{Rows, Volume};
use vtoc_write::changed_tracks;

/// Copies of a volume's rows.
fn copy_rows(alloc: Global, volume: &Volume) -> Result<Rows, NoMemory>
    ensures { IfOk result (λ rows. rows ≡ volume.now.rows) }
{
    let none = Spot {
        place: 0,
        goes: false,
    };
    rows_after(alloc, volume.rows.as_slice(), none, None)
}

/// A copy of a volume.
fn copy_volume(alloc: Global, volume: &Volume) -> Result<Volume, NoMemory>
    requires small { volume.now.usable ≤ 65535 }
    requires usable { volume.now.free.usable ≡ volume.now.usable }
    requires heads { volume.now.free.heads ≡ heads_of volume.now.device }
    requires apart { AreApart 0 volume.now.free.runs }
    ensures { IfOk result (λ copied. copied ≡ volume.now) }
{
    Ok(Volume {
        serial: volume.serial,
        device: volume.device,
        usable: volume.usable,
        vtoc: volume.vtoc,
        rows: copy_rows(alloc, volume)?,
        free: free_with(alloc, volume, None, None)?,
        repair: volume.repair,
        indexed: volume.indexed,
        dscbs: volume.dscbs,
        free_dscbs: volume.free_dscbs,
        fives: volume.fives,
    })
}

/// The tracks of a VTOC with the mark of an interrupted change, and the volume as it was.
pub(crate) fn marked(alloc: Global, volume: &Volume, slots: &[u8]) -> Result<Rendered, NoMemory>
    requires loads { LoadsFrom volume.now slots.now }
    ensures next { IfOk result (λ rendered. rendered.next ≡ volume.now) }
    ensures blocks { IfOk result (λ rendered. OfEachVtoc volume.now slots.now (IsMarked volume.now slots.now rendered)) }
{
    let ground = ground_of(alloc, volume, slots)?;
    let four = four_marked(ground.four);
    Ok(Rendered {
        blocks: changed_tracks(alloc, volume.device, volume.vtoc, slots, &[four])?,
        next: copy_volume(alloc, volume)?,
    })
}
