//! The label and the format 4 in the slots of a full dump.

ghost use Rattle.std.specs.Prelude.{◌≡◌, ◌<◌, ◌≤◌, ◌-◌, ◌+◌, ◌*◌, ◌==◌, ◌++◌, ◌↔◌, length, IsTrue, IfOk, IfSome, IfNone};
ghost use Rattle.ckd_image.specs.declared.track.Track.{Track as TrackOf};
ghost use Rattle.ckd_image.specs.Address.{address_of};
ghost use Rattle.ckd_image.specs.Device.{heads_of, slot_of};
ghost use Rattle.ckd_image.specs.Track.{IsTrackText};
ghost use Rattle.vol_label.specs.declared.label.Label.{Label as LabelOf};
ghost use Rattle.vol_label.specs.Label.{IsLabel};
ghost use Rattle.dscb_rec.specs.Dscb.{IsDscb};
ghost use Rattle.dscb_rec.specs.declared.dscb.Dscb.TheVariants as dscbs;
ghost use Rattle.dump_fmt.specs.Front.{filled_slot};
ghost use Rattle.dump_read.specs.Labelled.{IsLabelSlot, IsFormat4Slot, IsFormat4};

use ckd_image::text::put;
use ckd_image::{
    CkdFault, Device, Head, NoMemory, Rec, Track, TrackAt, first_numbered, parse_track,
};
use dscb_rec::{Dscb, read_dscb};
use dump_fmt::DumpHead;
use std::alloc::Global;
use vol_label::Label;

/// A slot with the zeros at its end.
fn filled(alloc: Global, device: Device, bytes: &[u8]) -> Result<Vec<u8>, NoMemory>
    requires { length bytes.now ≤ slot_of device }
    ensures { IfOk result (λ slot. slot.items ≡ filled_slot device bytes.now) }
{
    let mut slot = vec![in alloc; 0u8; device.slot() as usize]?;
    put(slot.as_mut_slice(), 0, bytes);
    Ok(slot)
}

/// The track in a slot, where one is there.
fn track_in(
    alloc: Global,
    device: Device,
    number: u32,
    bytes: &[u8],
) -> Result<Option<Track>, NoMemory>
    requires short { length bytes.now ≤ slot_of device }
    requires track { number < 65535 }
    ensures found { IfOk result (λ found. IfSome found (IsTrackText (address_of (heads_of device) number) (filled_slot device bytes.now))) }
    ensures none { IfOk result (λ found. IfNone found ((track : TrackOf) → ¬ IsTrackText (address_of (heads_of device) number) (filled_slot device bytes.now) track)) }
{
    let slot = filled(alloc, device, bytes)?;
    let at = TrackAt::of(number, device.heads());
    match parse_track(alloc, device, at, slot.as_slice()) {
        Ok(track) => Ok(Some(track)),
        Err(CkdFault::NoMemory) => Err(NoMemory),
        Err(_) => Ok(None),
    }
}

/// The label of a volume with this head on its track 0, where one is there.
fn label_on(track: &Track, head: Head) -> Option<Label>
    ensures found { IfSome result (IsLabel head track.now.recs) }
    ensures none { IfNone result ((label : LabelOf) → ¬ IsLabel head track.now.recs label) }
{
    match Label::read(track, head) {
        Ok(label) => Some(label),
        Err(_) => None,
    }
}

/// Whether a label's pointer names a record on this track.
fn points_at(device: Device, label: Label, number: u32) -> bool
    ensures { IsTrue result ↔ (label.vtoc.at.cylinder * heads_of device + label.vtoc.at.head ≡ number) }
{
    let at = label.vtoc.at;
    u32::from(at.cylinder) * device.heads() + u32::from(at.head) == number
}

/// The label in the slot of track 0, where one is there that names a record on the track that the header says.
pub fn label_in(alloc: Global, head: DumpHead, bytes: &[u8]) -> Result<Option<Label>, NoMemory>
    requires { length bytes.now ≤ slot_of head.device }
    ensures found { IfOk result (λ found. IfSome found (IsLabelSlot head bytes.now)) }
    ensures none { IfOk result (λ found. IfNone found ((label : LabelOf) → ¬ IsLabelSlot head bytes.now label)) }
{
    let Some(track) = track_in(alloc, head.device, 0, bytes)? else {
        return Ok(None);
    };
    let of = Head {
        device: head.device,
        tracks: head.tracks,
    };
    let Some(label) = label_on(&track, of) else {
        return Ok(None);
    };
    if !points_at(head.device, label, head.vtoc) {
        return Ok(None);
    }
    Ok(Some(label))
}

/// Key and body, which have 140 bytes together.
fn key_and_body(key: &[u8], body: &[u8]) -> [u8; 140]
    requires { length key.now + length body.now ≡ 140 }
    ensures { result ≡ key.now ++ body.now }
{
    let mut text = [0; 140];
    let end = put(&mut text, 0, key);
    put(&mut text, end, body);
    text
}

/// Whether bytes are a format 4.
fn spells_format_4(bytes: &[u8; 140]) -> bool
    ensures { IsTrue result ↔ IsDscb bytes.now (dscbs.F4 bytes.now) }
{
    match read_dscb(bytes) {
        Ok(Dscb::F4(_)) => true,
        _ => false,
    }
}

/// Whether a record is a format 4.
fn is_format_4(rec: &Rec) -> bool
    ensures { IsTrue result ↔ IsFormat4 rec.now }
{
    if rec.key.len() != 44 || rec.body.len() != 96 {
        return false;
    }
    spells_format_4(&key_and_body(rec.key.as_slice(), rec.body.as_slice()))
}

/// Whether the slot of that track holds the record that the label names, and it is a format 4.
pub fn holds_format_4(
    alloc: Global,
    head: DumpHead,
    label: Label,
    bytes: &[u8],
) -> Result<bool, NoMemory>
    requires short { length bytes.now ≤ slot_of head.device }
    requires track { head.vtoc < 65535 }
    ensures { IfOk result (λ good. IsTrue good ↔ IsFormat4Slot head label bytes.now) }
{
    let Some(track) = track_in(alloc, head.device, head.vtoc, bytes)? else {
        return Ok(false);
    };
    let Some(rec) = first_numbered(&track, label.vtoc.r) else {
        return Ok(false);
    };
    Ok(is_format_4(rec))
}
