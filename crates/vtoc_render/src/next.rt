//! The volume after a change.

ghost use Rattle.std.specs.Prelude.{◌≡◌, ◌≤◌, ◌<◌, false, IfOk, length};
ghost use Rattle.volume_model.specs.Reads.{fields_of_1};
ghost use Rattle.volume_change.specs.Spot.{behind};
ghost use Rattle.vtoc_render.specs.Next.{numbered_from, IsRowPut};
ghost use Rattle.vtoc_render.specs.Written.{volume_with as volume_in};

use crate::space::count_runs;
use ckd_image::NoMemory;
use dscb_rec::Extent;
use free_map::FreeMap;
use std::alloc::Global;
use volume_change::{Spot, rows_after};
use vtoc_core::{Extents, Row, Volume};
use vtoc_making::fives_for;

/// The extents of a data set, numbered in order from 0.
fn numbered(alloc: Global, extents: &[Extent]) -> Result<Extents, NoMemory>
    requires { length extents.now ≤ 16 }
    ensures { IfOk result (λ numbered. numbered ≡ numbered_from 0 extents.now) }
{
    let mut numbered = Extents::new(alloc);
    for (place, extent) in extents.iter().enumerate() {
        numbered.push(Extent {
            kind: extent.kind,
            number: place as u8,
            first: extent.first,
            last: extent.last,
        })?;
    }
    Ok(numbered)
}

/// A data set's row once it is put, with its format 1 as it is written.
pub(crate) fn row_put(alloc: Global, row: &Row, written: [u8; 140]) -> Result<Row, NoMemory>
    requires few { length row.now.extents ≤ 16 }
    requires fields { fields_of_1 written ≡ fields_of_1 row.now.f1 }
    ensures put { IfOk result (IsRowPut row.now) }
    ensures written { IfOk result (λ put. put.f1 ≡ written) }
{
    Ok(Row {
        name: row.name,
        f1: written,
        extents: numbered(alloc, row.extents.as_slice())?,
        threes: u32::from(3 < row.extents.len()),
    })
}

/// The volume with other rows at a spot, other free tracks, and so many free records.
pub(crate) fn volume_with(
    alloc: Global,
    volume: &Volume,
    spot: Spot,
    put: Option<Row>,
    free: FreeMap,
    free_dscbs: u32,
) -> Result<Volume, NoMemory>
    requires { behind spot ≤ length volume.now.rows }
    ensures { IfOk result (λ next. next ≡ volume_in volume.now spot put free free_dscbs) }
{
    let fives = fives_for(count_runs(&free)) as u32;
    Ok(Volume {
        serial: volume.serial,
        device: volume.device,
        usable: volume.usable,
        vtoc: volume.vtoc,
        rows: rows_after(alloc, volume.rows.as_slice(), spot, put)?,
        free,
        repair: false,
        indexed: volume.indexed,
        dscbs: volume.dscbs,
        free_dscbs,
        fives,
    })
}
