//! The whole check of a VTOC.

ghost use Rattle.std.specs.Prelude.{◌≡◌, ◌≤◌, ◌<◌, ◌+◌, ◌++◌, ◌*◌, [], length, IfOk, IfErr};
ghost use Rattle.volume_model.specs.Check.{records_of, bad_dscbs, bad_names, bad_pointers, bad_fives, bad_ranges, bad_overlaps, bad_free, breaches_of, IsLowestOf};
ghost use Rattle.ckd_image.specs.Device.{slot_of};
ghost use Rattle.volume_model.specs.Sound.{Slots, IsCheckFault};
ghost use Rattle.vtoc_check.specs.Faults.{IsToldFault};
ghost use Rattle.vtoc_check.specs.Front.{IsVtocRun};
ghost use Rattle.vtoc_check.specs.Places.{AreInOrder};
ghost use Rattle.vtoc_check.specs.Sized.{IsSized, IsVtocWith};
ghost use Rattle.vtoc_check.specs.Slots.{slot_in, AreSlotsOf};

use crate::by_record::{broken_dscb, broken_range, broken_track};
use crate::directory::Directory;
use crate::fault::{VtocFault, told_as};
use crate::five_rule::broken_fives;
use crate::free::broken_free;
use crate::lowest::lower;
use crate::names::broken_name;
use crate::overlaps::broken_overlaps;
use crate::pointer_rule::broken_pointers;
use crate::reading::{Found, read_vtoc};
use ckd_image::{Head, NoMemory};
use free_map::Run;
use std::alloc::Global;
use vol_label::Label;
use volume_model::{Breach, Placed, Vtoc};

/// The lowest breach of the rules on DSCBs, names and pointers. `records` are those of the VTOC, and of the directory.
fn broken_record(
    alloc: Global,
    vtoc: &Vtoc,
    directory: &Directory,
    records: &[Placed],
) -> Result<Option<Breach>, NoMemory>
    requires records { records.now ≡ records_of vtoc.now }
    requires directory { directory.now.records.items ≡ records_of vtoc.now }
    requires heads { directory.now.heads ≡ vtoc.now.heads }
    ensures { IfOk result (IsLowestOf (bad_dscbs vtoc.now ++ bad_names vtoc.now ++ bad_pointers vtoc.now ++ bad_fives vtoc.now)) }
{
    let dscb = broken_dscb(records, vtoc.format_4);
    let name = broken_name(alloc, records)?;
    let pointer = broken_pointers(alloc, directory, records)?;
    let five = broken_fives(alloc, vtoc, directory, records)?;
    Ok(lower(lower(lower(dscb, name), pointer), five))
}

/// The lowest breach of the rules on ranges, overlaps and free tracks.
fn broken_space(alloc: Global, vtoc: &Vtoc, records: &[Placed]) -> Result<Option<Breach>, NoMemory>
    requires records { records.now ≡ records_of vtoc.now }
    requires in_order { AreInOrder records.now }
    requires sized { IsSized vtoc.now }
    ensures { IfOk result (IsLowestOf (bad_ranges vtoc.now ++ bad_overlaps vtoc.now ++ bad_free vtoc.now)) }
{
    let range = broken_range(records, vtoc.heads, vtoc.limit);
    let overlap = broken_overlaps(alloc, vtoc, records)?;
    let free = broken_free(alloc, vtoc, records)?;
    Ok(lower(lower(range, overlap), free))
}

/// The lowest breach of the rules from the fourth on, or none where all are kept.
pub fn lowest_breach(alloc: Global, vtoc: &Vtoc) -> Result<Option<Breach>, NoMemory>
    requires { IsSized vtoc.now }
    ensures { IfOk result (IsLowestOf (breaches_of vtoc.now)) }
{
    let tracks = vtoc.tracks.as_slice();
    let track = broken_track(vtoc.run.first, tracks);
    let directory = Directory::new(alloc, vtoc.heads, vtoc.run.first, tracks)?;
    let record = broken_record(alloc, vtoc, &directory, &directory.records)?;
    let space = broken_space(alloc, vtoc, &directory.records)?;
    Ok(lower(lower(track, record), space))
}

/// Checks a VTOC from the slots of its tracks: what the rules look at with the format 4, or the place that is refused.
///
/// With `sliding` a slide is open on the volume, and the indicator of an interrupted change counts as off.
pub fn check_vtoc(
    alloc: Global,
    head: Head,
    label: &Label,
    run: Run,
    slots: &[u8],
    sliding: bool,
) -> Result<Found, VtocFault>
    requires tracks { head.tracks ≤ 65535 }
    requires whole { length slots.now ≡ run.len * slot_of head.device }
    requires run { IsVtocRun head (slot_in run (slot_of head.device) slots.now) label.now.vtoc run }
    ensures sound { IfOk result (λ found. (unit : Slots) → AreSlotsOf run (slot_of head.device) slots.now unit
        → IsVtocWith head unit label.now.vtoc sliding found.vtoc found.four × (breaches_of found.vtoc ≡ []) × IsSized found.vtoc) }
    ensures fault { IfErr result (λ fault. (unit : Slots) → AreSlotsOf run (slot_of head.device) slots.now unit
        → IsToldFault (IsCheckFault head unit label.now.vtoc sliding) fault) }
{
    let found = read_vtoc(alloc, head, label.vtoc, run, slots, sliding)?;
    match lowest_breach(alloc, &found.vtoc)? {
        None => Ok(found),
        Some(told) => Err(told_as(told)),
    }
}
