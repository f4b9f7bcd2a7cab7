//! What the format 1 and the extents of a data set say to commands.

ghost use Rattle.std.specs.Prelude.{◌≡◌, ◌↔◌, ℕ, IsTrue, All};
ghost use Rattle.ckd_image.specs.Device.{heads_of};
ghost use Rattle.volume_model.specs.Pinned.{IsPinned, IsMovable, IsManaged, GoesOn, IsSequentialOrPartitioned, organization_in};
ghost use Rattle.volume_model.specs.Reads.{fields_of_1};
ghost use Rattle.volume_model.specs.Unit.{DataSet};
ghost use Rattle.step_plans.specs.unit_change.Described.{DescribesSet};
ghost use Rattle.job_select.specs.Whole.{IsWholeOn};

use crate::names::name_of;
use ckd_image::Device;
use dscb_rec::Extent;
use step_plans::MOST_EXTENTS;
use vtoc_core::{Row, run_of};

/// The organization that a format 1 says.
fn organization(f1: &[u8; 140]) -> u16
    ensures { result ≡ organization_in (fields_of_1 f1.now) }
{
    u16::from_be_bytes([f1[82], f1[83]])
}

/// The organization of a data set.
pub fn organization_of(row: &Row) -> u16
    ensures { (heads : ℕ) (set : DataSet) → DescribesSet heads row.now set → result ≡ organization_in set.fields }
{
    organization(&row.f1)
}

/// Whether a data set is sequential or partitioned.
pub fn is_sequential_or_partitioned(row: &Row) -> bool
    ensures { (heads : ℕ) (set : DataSet) → DescribesSet heads row.now set → (IsTrue result ↔ IsSequentialOrPartitioned (organization_in set.fields)) }
{
    matches!(organization_of(row), 0x4000 | 0x0200)
}

/// Whether data of this organization is moved: of none, sequential, direct, or partitioned.
fn is_movable(organization: u16) -> bool
    ensures { IsTrue result ↔ IsMovable organization }
{
    matches!(organization, 0 | 0x4000 | 0x2000 | 0x0200)
}

/// Whether an extent is of tracks, or of whole cylinders.
fn is_whole(device: Device, extent: &Extent) -> bool
    ensures { IsTrue result ↔ IsWholeOn device extent.now }
{
    let run = run_of(device, extent);
    match extent.kind {
        0x01 => true,
        0x81 => run.first % device.heads() == 0 && run.len % device.heads() == 0,
        _ => false,
    }
}

/// Whether each extent is.
fn are_whole(device: Device, extents: &[Extent]) -> bool
    ensures { IsTrue result ↔ All (IsWholeOn device) extents.now }
{
    extents.iter().all(|extent| is_whole(device, extent))
}

/// Whether the system manages a data set in a way that isn't kept here.
fn is_managed(f1: &[u8; 140]) -> bool
    ensures { IsTrue result ↔ IsManaged (fields_of_1 f1.now) }
{
    f1[78] & 0x0e != 0 || f1[61] & 0x08 != 0
}

/// Whether a data set goes on from another volume.
fn goes_on(f1: &[u8; 140]) -> bool
    ensures { IsTrue result ↔ GoesOn (fields_of_1 f1.now) }
{
    u16::from_be_bytes([f1[51], f1[52]]) > 1
}

/// Whether no command moves a data set, by its name, organization, extents, flags or volume number.
pub fn is_pinned(device: Device, row: &Row) -> bool
    ensures { (set : DataSet) → DescribesSet (heads_of device) row.now set → (IsTrue result ↔ IsPinned (heads_of device) set.name set.fields set.extents) }
{
    if name_of(row).is_none() {
        return true;
    }
    if !is_movable(organization_of(row)) {
        return true;
    }
    if !are_whole(device, row.extents.as_slice()) {
        return true;
    }
    if row.extents.len() > MOST_EXTENTS {
        return true;
    }
    if is_managed(&row.f1) {
        return true;
    }
    goes_on(&row.f1)
}
