//! Rows of a volume, and rows as they are to be.

ghost use Rattle.std.specs.Prelude.{◌≡◌, take, map, All, IfOk, IfSome, IfNone, slice_index};
ghost use Rattle.dsn_filter.specs.Dsn.{IsDsn};
ghost use Rattle.volume_model.specs.Pinned.{IsNameOf};
ghost use Rattle.volume_model.specs.Reads.{fields_of_1};
ghost use Rattle.move_core.specs.Steps.{fields_at, reset_fields};
ghost use Rattle.unit_steps.specs.Plans.{HasRow};
ghost use Rattle.step_plans.specs.Plans.{IsRoom, IsSound, HasNone, field_on};

use crate::extents::extents_of_runs;
use ckd_image::text::put_over;
use ckd_image::{Device, Listed, NoMemory};
use dscb_rec::Extent;
use dsn_filter::Dsn;
use free_map::Run;
use std::alloc::Global;
use vol_label::Serial;
use volume_change::{find, name_bytes};
use vtoc_core::{Extents, Row, Volume};

/// The row of a name, if the volume has one.
pub fn row_of<'a>(volume: &'a Volume, name: &Dsn) -> Option<&'a Row>
    requires sound { IsSound volume.now }
    requires name { IsDsn name.now }
    ensures found { IfSome result (λ row. HasRow volume.now name.now row.now) }
    ensures none { IfNone result (HasNone volume.now name.now) }
{
    let place = find(volume, name)?;
    let row = &volume.rows.as_slice()[place];
    Some(row)
}

/// A copy of extents.
pub(crate) fn copy_extents(alloc: Global, extents: &[Extent]) -> Result<Extents, NoMemory>
    ensures { IfOk result (λ copies. copies ≡ extents.now) }
{
    let mut copies = Vec::new(alloc);
    copies.extend_from_slice(extents)?;
    Ok(Listed::from_vec(copies))
}

/// A format 1 whose indicator of a change since the last dump is off.
fn reset_format_1(f1: &[u8; 140]) -> [u8; 140]
    ensures front { take 59 result ≡ take 59 f1.now }
    ensures fields { fields_of_1 result ≡ reset_fields (fields_of_1 f1.now) }
{
    let mut reset = *f1;
    reset[93] &= 0xfd;
    reset
}

/// The row of a data set that counts as dumped.
pub(crate) fn reset_row(alloc: Global, row: &Row) -> Result<Row, NoMemory>
    ensures name { IfOk result (λ new. new.name ≡ row.now.name) }
    ensures front { IfOk result (λ new. take 59 new.f1 ≡ take 59 row.now.f1) }
    ensures fields { IfOk result (λ new. fields_of_1 new.f1 ≡ reset_fields (fields_of_1 row.now.f1)) }
    ensures extents { IfOk result (λ new. new.extents ≡ row.now.extents) }
{
    Ok(Row {
        name: row.name,
        f1: reset_format_1(&row.f1),
        extents: copy_extents(alloc, row.extents.as_slice())?,
        threes: row.threes,
    })
}

/// A row with other extents, of a type on runs.
pub(crate) fn moved_row(
    alloc: Global,
    row: &Row,
    device: Device,
    kind: u8,
    to: &[Run],
) -> Result<Row, NoMemory>
    requires { All IsRoom to.now }
    ensures name { IfOk result (λ new. new.name ≡ row.now.name) }
    ensures same { IfOk result (λ new. new.f1 ≡ row.now.f1) }
    ensures extents { IfOk result (λ new. new.extents ≡ map (field_on device kind) to.now) }
{
    Ok(Row {
        name: row.name,
        f1: row.f1,
        extents: extents_of_runs(alloc, device, kind, to)?,
        threes: row.threes,
    })
}

/// A format 1 with another name and another volume's serial.
fn copied_format_1(f1: &[u8; 140], name: &[u8; 44], serial: &[u8; 6]) -> [u8; 140]
    ensures name { take 44 result ≡ name.now }
    ensures code { slice_index result 44 ≡ slice_index f1.now 44 }
    ensures fields { fields_of_1 result ≡ fields_at name.now (record { text = serial.now }) (fields_of_1 f1.now) }
{
    let mut copied = *f1;
    put_over(&mut copied, 0, name);
    put_over(&mut copied, 45, serial);
    copied
}

/// The row of a copy under a name on a volume with this serial.
pub(crate) fn copied_row(row: Row, name: &Dsn, serial: Serial) -> Row
    requires { IsDsn name.now }
    ensures name { IsNameOf name.now result.name }
    ensures front { take 44 result.f1 ≡ result.name }
    ensures code { slice_index result.f1 44 ≡ slice_index row.f1 44 }
    ensures fields { fields_of_1 result.f1 ≡ fields_at result.name serial (fields_of_1 row.f1) }
    ensures extents { result.extents ≡ row.extents }
{
    let name = name_bytes(name);
    Row {
        name,
        f1: copied_format_1(&row.f1, &name, &serial.text),
        ..row
    }
}
