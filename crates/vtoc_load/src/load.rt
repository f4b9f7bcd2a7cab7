//! Loading a volume from the slots of its VTOC's tracks.

ghost use Rattle.std.specs.Prelude.{◌≡◌, ◌*◌, ◌≤◌, ◌<◌, [], filter, length, IfOk, IfErr};
ghost use Rattle.ckd_image.specs.Device.{slot_of};
ghost use Rattle.volume_model.specs.Check.{breaches_of};
ghost use Rattle.volume_model.specs.Reads.{has_index as has_index_in};
ghost use Rattle.volume_model.specs.Sound.{Slots, IsCheckFault};
ghost use Rattle.vtoc_check.specs.Faults.{IsToldFault};
ghost use Rattle.vtoc_check.specs.Front.{IsVtocRun};
ghost use Rattle.vtoc_check.specs.Sized.{IsSized};
ghost use Rattle.vtoc_check.specs.Slots.{slot_in, AreSlotsOf};
ghost use Rattle.vtoc_load.specs.LoadedVtoc.{IsVolumeOf, IsLoadedVtoc};
ghost use Rattle.volume_model.specs.Dscbs.{is_free_record};

use crate::rows::rows_in_order;
use crate::space::space_of;
use ckd_image::{Device, Head, NoMemory};
use free_map::Run;
use std::alloc::Global;
use vol_label::Label;
use volume_model::Placed;
use vtoc_check::{Directory, Found, VtocFault, check_vtoc, count_fives};
use vtoc_core::Volume;

/// How many of the records are free.
fn count_free(records: &[Placed]) -> usize
    ensures value { result ≡ length (filter is_free_record records.now) }
    ensures most { result ≤ length records.now }
{
    let mut count = 0;
    for placed in records {
        count += usize::from(placed.is_free_record());
    }
    count
}

/// Whether a format 4 says that the VTOC has an index.
fn has_index(four: &[u8; 140]) -> bool
    ensures { result ≡ has_index_in four.now }
{
    four[58] & 0x01 != 0
}

/// The volume of a VTOC that passed its check.
fn volume_of(
    alloc: Global,
    device: Device,
    label: &Label,
    found: &Found,
) -> Result<Volume, NoMemory>
    requires sized { IsSized found.now.vtoc }
    requires sound { breaches_of found.now.vtoc ≡ [] }
    ensures { IfOk result (IsVolumeOf label.now device found.now.vtoc found.now.four) }
{
    let vtoc = &found.vtoc;
    let tracks = vtoc.tracks.as_slice();
    let directory = Directory::new(alloc, vtoc.heads, vtoc.run.first, tracks)?;
    let records = directory.records();
    let space = space_of(alloc, vtoc, records)?;
    let rows = rows_in_order(alloc, &directory)?;
    Ok(Volume {
        serial: label.serial,
        device,
        usable: space.usable,
        vtoc: vtoc.run,
        rows,
        free: space.free,
        repair: !vtoc.valid,
        indexed: has_index(&found.four),
        dscbs: records.len() as u32,
        free_dscbs: count_free(records) as u32,
        fives: count_fives(records) as u32,
    })
}

/// Loads a volume from the slots of its VTOC's tracks: any VTOC that passes its check, or the place that is refused.
///
/// With `sliding` a slide is open on the volume, and the indicator of an interrupted change counts as off.
pub fn load_vtoc(
    alloc: Global,
    head: Head,
    label: &Label,
    run: Run,
    slots: &[u8],
    sliding: bool,
) -> Result<Volume, VtocFault>
    requires tracks { head.tracks ≤ 65535 }
    requires whole { length slots.now ≡ run.len * slot_of head.device }
    requires run { IsVtocRun head (slot_in run (slot_of head.device) slots.now) label.now.vtoc run }
    ensures loaded { IfOk result (λ loaded. (unit : Slots) → AreSlotsOf run (slot_of head.device) slots.now unit
        → IsLoadedVtoc head label.now unit sliding loaded) }
    ensures fault { IfErr result (λ fault. (unit : Slots) → AreSlotsOf run (slot_of head.device) slots.now unit
        → IsToldFault (IsCheckFault head unit label.now.vtoc sliding) fault) }
{
    let found = check_vtoc(alloc, head, label, run, slots, sliding)?;
    let volume = volume_of(alloc, head.device, label, &found)?;
    Ok(volume)
}
