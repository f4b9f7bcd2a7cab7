//! One track of a VTOC, written anew.

ghost use Rattle.std.specs.Prelude.{◌≡◌, ◌≤◌, IfOk, MatchOption, length};
ghost use Rattle.ckd_image.specs.declared.track.Track.{Track};
ghost use Rattle.ckd_image.specs.Address.{address_of};
ghost use Rattle.ckd_image.specs.Device.{heads_of, slot_of};
ghost use Rattle.ckd_image.specs.Track.{track_text, IsTrack, IsTrackText};
ghost use Rattle.vtoc_write.specs.Edited.{written};
ghost use Rattle.vtoc_write.specs.Written.{IsDscbText, IsUnchangedText, IsRewritten};

use crate::edits::{are_changed, edited_recs, names_track};
use ckd_image::{Bytes, CkdFault, Device, NoMemory, Track, TrackAt, parse_track, print_track};
use std::alloc::Global;
use volume_model::Placed;

/// The text of a slot, where one stands there.
fn text_of(alloc: Global, device: Device, at: TrackAt, slot: &[u8]) -> Result<Track, NoMemory>
    requires short { length slot.now ≤ 65536 }
    requires stands { (text : Track) × IsTrackText at slot.now text }
    ensures { IfOk result (IsTrackText at slot.now) }
{
    match parse_track(alloc, device, at, slot) {
        Ok(text) => Ok(text),
        Err(CkdFault::NoMemory) => Err(NoMemory),
        Err(_) => unreachable!(),
    }
}

/// The slot of a text that fits it.
fn slot_with(alloc: Global, device: Device, at: TrackAt, text: &Track) -> Result<Bytes, NoMemory>
    requires sound { IsTrack text.now }
    requires fits { length (track_text at text.now) ≤ slot_of device }
    ensures { IfOk result (λ slot. slot ≡ written at (slot_of device) text.now) }
{
    let mut slot = Vec::new(alloc);
    slot.resize(device.slot() as usize, 0)?;
    match print_track(device, at, text, &mut slot) {
        Ok(()) => Ok(Bytes::from_vec(slot)),
        Err(_) => unreachable!(),
    }
}

/// The slot of a track once the edits are made, or none where they change no record of it.
pub(crate) fn rewritten(
    alloc: Global,
    device: Device,
    track: u32,
    slot: &[u8],
    edits: &[Placed],
) -> Result<Option<Bytes>, NoMemory>
    requires number { track ≤ 65535 }
    requires whole { length slot.now ≡ slot_of device }
    requires dscbs { IsDscbText (address_of (heads_of device) track) slot.now }
    ensures { IfOk result (λ found. MatchOption found (IsUnchangedText edits.now (heads_of device) track slot.now) (IsRewritten edits.now (heads_of device) track slot.now)) }
{
    if !names_track(edits, track) {
        return Ok(None);
    }
    let at = TrackAt::of(track, device.heads());
    let text = text_of(alloc, device, at, slot)?;
    if !are_changed(edits, track, text.recs.as_slice()) {
        return Ok(None);
    }
    let recs = edited_recs(alloc, edits, track, text.recs.as_slice())?;
    let text = Track {
        flag: text.flag,
        r0: text.r0,
        recs,
    };
    let slot = slot_with(alloc, device, at, &text)?;
    Ok(Some(slot))
}
