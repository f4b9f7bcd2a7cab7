//! Reading the tracks of a VTOC.

ghost use Rattle.std.specs.Prelude.{◌≡◌, ◌≤◌, ◌<◌, ◌+◌, ◌*◌, ◌↔◌, All, IsTrue, IfOk, IfSome, IfNone, MatchOption, length, map};
ghost use Rattle.ckd_image.specs.declared.track.Track.{Track};
ghost use Rattle.ckd_image.specs.Address.{address_of};
ghost use Rattle.ckd_image.specs.Device.{heads_of, slot_of};
ghost use Rattle.ckd_image.specs.Track.{IsTrackText};
ghost use Rattle.volume_model.specs.Space.{end_of};
ghost use Rattle.volume_model.specs.Sound.{IsDscbRecord, dscb_of, IsTrackReading, IsReading};
ghost use Rattle.vtoc_check.specs.Slots.{slot_in};
ghost use Rattle.vtoc_check.specs.Readings.{AreNumbered, AreVtocRecords};

use ckd_image::text::{put, slot_at};
use ckd_image::{CkdFault, Device, Listed, NoMemory, Rec, Track, TrackAt, parse_track};
use free_map::Run;
use std::alloc::Global;
use volume_model::Dscbs;

/// The 140 bytes of a record with a key of 44 and 96 bytes.
pub(crate) fn dscb_bytes(rec: &Rec) -> Option<[u8; 140]>
    ensures found { IfSome result (λ bytes. IsDscbRecord rec.now × (bytes ≡ dscb_of rec.now)) }
    ensures none { IfNone result (¬ IsDscbRecord rec.now) }
{
    if rec.key.len() != 44 {
        return None;
    }
    if rec.body.len() != 96 {
        return None;
    }
    let mut bytes = [0; 140];
    let end = put(&mut bytes, 0, rec.key.as_slice());
    put(&mut bytes, end, rec.body.as_slice());
    Some(bytes)
}

/// Whether the records are numbered from 1 in order.
fn are_numbered(recs: &[Rec]) -> bool
    ensures { IsTrue result ↔ AreNumbered recs.now }
{
    for (place, rec) in recs.iter().enumerate() {
        if usize::from(rec.r) != place + 1 {
            return false;
        }
    }
    true
}

/// The DSCBs of records, where each is one by its lengths.
fn dscbs_of(alloc: Global, recs: &[Rec]) -> Result<Option<Dscbs>, NoMemory>
    ensures { IfOk result (λ found. MatchOption found (¬ All IsDscbRecord recs.now) (λ dscbs. All IsDscbRecord recs.now × (dscbs ≡ map dscb_of recs.now))) }
{
    let mut dscbs = Listed::new(alloc);
    for rec in recs {
        let Some(bytes) = dscb_bytes(rec) else {
            return Ok(None);
        };
        dscbs.push(bytes)?;
    }
    Ok(Some(dscbs))
}

/// The DSCBs of a track's records, where they are records of a VTOC track.
fn dscbs_in(alloc: Global, recs: &[Rec]) -> Result<Option<Dscbs>, NoMemory>
    ensures { IfOk result (λ found. MatchOption found (¬ AreVtocRecords recs.now) (λ dscbs. AreVtocRecords recs.now × (dscbs ≡ map dscb_of recs.now))) }
{
    if recs.is_empty() {
        return Ok(None);
    }
    if !are_numbered(recs) {
        return Ok(None);
    }
    dscbs_of(alloc, recs)
}

/// The track text of a slot, where one stands there.
pub(crate) fn text_at(
    alloc: Global,
    device: Device,
    at: TrackAt,
    slot: &[u8],
) -> Result<Option<Track>, NoMemory>
    requires { length slot.now ≤ 65536 }
    ensures { IfOk result (λ found. MatchOption found ((text : Track) → ¬ IsTrackText at slot.now text) (IsTrackText at slot.now)) }
{
    match parse_track(alloc, device, at, slot) {
        Ok(text) => Ok(Some(text)),
        Err(CkdFault::NoMemory) => Err(NoMemory),
        Err(_) => Ok(None),
    }
}

/// The address of a track by its number.
fn address(device: Device, track: u32) -> TrackAt
    requires { track ≤ 65535 }
    ensures { result ≡ address_of (heads_of device) track }
{
    TrackAt {
        cylinder: (track / device.heads()) as u16,
        head: (track % device.heads()) as u16,
    }
}

/// What is read of a track of the VTOC.
pub fn read_track(
    alloc: Global,
    device: Device,
    track: u32,
    slot: &[u8],
) -> Result<Option<Dscbs>, NoMemory>
    requires small { track ≤ 65535 }
    requires short { length slot.now ≤ 65536 }
    ensures { IfOk result (IsTrackReading (heads_of device) track slot.now) }
{
    let Some(text) = text_at(alloc, device, address(device, track), slot)? else {
        return Ok(None);
    };
    dscbs_in(alloc, text.recs.as_slice())
}

/// What is read of the tracks of the VTOC, from their slots.
pub fn read_tracks(
    alloc: Global,
    device: Device,
    run: Run,
    slots: &[u8],
) -> Result<Listed<Option<Dscbs>>, NoMemory>
    requires whole { length slots.now ≡ run.len * slot_of device }
    requires within { end_of run ≤ 65535 }
    ensures { IfOk result (IsReading (heads_of device) (slot_in run (slot_of device) slots.now) run) }
{
    let size = device.slot() as usize;
    let mut tracks = Listed::new(alloc);
    for place in 0..run.len {
        let slot = slot_at(slots, place as usize, size);
        let dscbs = read_track(alloc, device, run.first + place, slot)?;
        tracks.push(dscbs)?;
    }
    Ok(tracks)
}
