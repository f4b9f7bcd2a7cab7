//! The format 4, and the first three rules, which are on it.

ghost use Rattle.std.specs.Prelude.{◌≡◌, ◌≤◌, ◌<◌, ◌↔◌, ℕ, List, IsTrue, IfOk, IfErr, IfSome, IfNone, MatchOption, length, Some};
ghost use Rattle.ckd_image.specs.Device.{heads_of};
ghost use Rattle.volume_model.specs.Dscbs.{format_of};
ghost use Rattle.volume_model.specs.Directory.{named_place};
ghost use Rattle.volume_model.specs.Space.{track_at};
ghost use Rattle.volume_model.specs.Sound.{Slots, IsFormat4, HasGeometry, HasVtocExtent, limit_of};
ghost use Rattle.vtoc_check.specs.Faults.{IsToldFault};
ghost use Rattle.vtoc_check.specs.Front.{IsFormat4Among, IsFront, IsFrontBreach, IsVtocRun};

use crate::directory::place_at;
use crate::dscb::{extent_at, is_run, number_at, run_of, track_number};
use crate::fault::{VtocFault, told_as};
use crate::read::{dscb_bytes, text_at};
use ckd_image::{Cchhr, Head, NoMemory, Track, first_numbered};
use free_map::Run;
use std::alloc::Global;
use vol_label::Label;
use volume_model::{Breach, Format, VtocRule};

fn is_format_4(bytes: &[u8; 140]) -> bool
    ensures { IsTrue result ↔ (format_of bytes.now ≡ Format.F4) }
{
    matches!(Format::of(bytes), Format::F4)
}

/// The 140 bytes of the first record with a number, where it is a format 4.
fn format_4_among(track: &Track, r: u8) -> Option<[u8; 140]>
    ensures found { IfSome result (IsFormat4Among track.now.recs r) }
    ensures none { IfNone result ((bytes : List ℕ) → ¬ IsFormat4Among track.now.recs r bytes) }
{
    let rec = first_numbered(track, r)?;
    let bytes = dscb_bytes(rec)?;
    if !is_format_4(&bytes) {
        return None;
    }
    Some(bytes)
}

/// The format 4 that a pointer names, from its track's slot.
fn format_4(
    alloc: Global,
    head: Head,
    pointer: Cchhr,
    slot: &[u8],
) -> Result<Option<[u8; 140]>, NoMemory>
    requires { length slot.now ≤ 65536 }
    ensures { IfOk result (λ found. MatchOption found ((bytes : List ℕ) → ¬ IsFormat4 (heads_of head.device) (λ _. slot.now) pointer bytes)
        (IsFormat4 (heads_of head.device) (λ _. slot.now) pointer)) }
{
    let Some(text) = text_at(alloc, head.device, pointer.at, slot)? else {
        return Ok(None);
    };
    Ok(format_4_among(&text, pointer.r))
}

/// Whether a format 4 says the heads of the device, and some cylinders.
fn has_geometry(bytes: &[u8; 140], head: Head) -> bool
    ensures { IsTrue result ↔ HasGeometry (heads_of head.device) bytes.now }
{
    u32::from(number_at(bytes, 64)) == head.device.heads() && number_at(bytes, 62) != 0
}

/// The end of the volume: its cylinders, as far as the image goes.
pub(crate) fn limit(bytes: &[u8; 140], head: Head) -> u32
    ensures { result ≡ limit_of head bytes.now }
{
    (u32::from(number_at(bytes, 62)) * head.device.heads()).min(head.tracks)
}

/// Whether the VTOC's extent is a run below the end of the volume, without track 0 and with the track of the format 4.
fn has_vtoc_extent(bytes: &[u8; 140], head: Head, pointer: Cchhr) -> bool
    ensures { IsTrue result ↔ HasVtocExtent head pointer bytes.now }
{
    let heads = head.device.heads();
    let extent = extent_at(bytes, 105);
    if extent.kind == 0 {
        return false;
    }
    if !is_run(extent, heads, limit(bytes, head)) {
        return false;
    }
    let first = track_number(extent.first, heads);
    let last = track_number(extent.last, heads);
    let track = track_number(pointer.at, heads);
    first >= 1 && first <= track && track <= last
}

/// The refusal by one of the first three rules.
fn broken(head: Head, pointer: Cchhr, rule: VtocRule) -> VtocFault
    ensures { (slots : Slots) → IsFrontBreach head slots pointer (record { place = named_place (heads_of head.device) pointer; rule = rule })
        → IsToldFault (IsFrontBreach head slots pointer) result }
{
    let place = place_at(head.device.heads(), pointer);
    told_as(Breach { place, rule })
}

/// The format 4, from its track's slot, where none of the first three rules is broken.
pub(crate) fn front(
    alloc: Global,
    head: Head,
    pointer: Cchhr,
    slot: &[u8],
) -> Result<[u8; 140], VtocFault>
    requires { length slot.now ≤ 65536 }
    ensures front { IfOk result (IsFront head (λ _. slot.now) pointer) }
    ensures fault { IfErr result (IsToldFault (IsFrontBreach head (λ _. slot.now) pointer)) }
{
    let Some(bytes) = format_4(alloc, head, pointer, slot)? else {
        return Err(broken(head, pointer, VtocRule::NoFormat4));
    };
    if !has_geometry(&bytes, head) {
        return Err(broken(head, pointer, VtocRule::Geometry));
    }
    if !has_vtoc_extent(&bytes, head, pointer) {
        return Err(broken(head, pointer, VtocRule::VtocExtent));
    }
    Ok(bytes)
}

/// The run of the VTOC, from the slot of the track that the label's pointer names.
pub fn vtoc_run(alloc: Global, head: Head, label: &Label, slot: &[u8]) -> Result<Run, VtocFault>
    requires { length slot.now ≤ 65536 }
    ensures run { IfOk result (λ run. (slots : Slots) → slots (track_at (heads_of head.device) label.now.vtoc.at) ≡ slot.now → IsVtocRun head slots label.now.vtoc run) }
    ensures fault { IfErr result (λ fault. (slots : Slots) → slots (track_at (heads_of head.device) label.now.vtoc.at) ≡ slot.now
        → IsToldFault (IsFrontBreach head slots label.now.vtoc) fault) }
{
    let bytes = front(alloc, head, label.vtoc, slot)?;
    Ok(run_of(
        extent_at(&bytes, 105),
        head.device.heads(),
        limit(&bytes, head),
    ))
}
