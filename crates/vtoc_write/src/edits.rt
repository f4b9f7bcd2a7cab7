//! Records that get other bytes.

ghost use Rattle.std.specs.Prelude.{◌≡◌, ◌↔◌, ◌≢◌, Any, All, IsTrue, IfOk, false, find, length, map, take, drop};
ghost use Rattle.std.specs.Option.{option_copied};
ghost use Rattle.volume_model.specs.Directory.{same_place};
ghost use Rattle.volume_model.specs.Sound.{IsDscbRecord};
ghost use Rattle.vtoc_write.specs.Edited.{rec_after, NamesTrack};

use ckd_image::text::same;
use ckd_image::{Bytes, Listed, NoMemory, Rec, Recs};
use std::alloc::Global;
use volume_model::{Place, Placed};

/// The first edit of the record at a place.
fn edit_at(edits: &[Placed], place: Place) -> Option<&Placed>
    ensures { option_copied result ≡ find (λ edit. same_place edit.place place) edits.now }
{
    edits.iter().find(|edit| edit.place.track == place.track
        && edit.place.record_number == place.record_number)
}

/// Whether some edit is of a record of a track.
pub(crate) fn names_track(edits: &[Placed], track: u32) -> bool
    ensures { IsTrue result ↔ NamesTrack edits.now track }
{
    edits.iter().any(|edit| edit.place.track == track)
}

/// Key and body of a DSCB.
fn parts(bytes: &[u8; 140]) -> (&[u8], &[u8])
    ensures key { result.0.now ≡ take 44 bytes.now }
    ensures body { result.1.now ≡ drop 44 bytes.now }
    ensures long { (length result.0.now ≡ 44) × (length result.1.now ≡ 96) }
{
    bytes.split_at(44)
}

/// A copy of a record with other key and body.
fn rec_of(alloc: Global, r: u8, key: &[u8], body: &[u8]) -> Result<Rec, NoMemory>
    ensures { IfOk result (λ rec. rec ≡ record { r = r; key = key.now; body = body.now }) }
{
    let key = Bytes::from_slice(alloc, key)?;
    let body = Bytes::from_slice(alloc, body)?;
    Ok(Rec { r, key, body })
}

/// A record of a track as the edits leave it.
fn edited(alloc: Global, edits: &[Placed], track: u32, rec: &Rec) -> Result<Rec, NoMemory>
    ensures edited { IfOk result (λ new. new ≡ rec_after edits.now track rec.now) }
    ensures shaped { IfOk result (λ new. IsDscbRecord rec.now → IsDscbRecord new) }
{
    let place = Place {
        track,
        record_number: rec.r,
    };
    match edit_at(edits, place) {
        Some(edit) => {
            let (key, body) = parts(&edit.bytes);
            rec_of(alloc, rec.r, key, body)
        }
        None => rec_of(alloc, rec.r, rec.key.as_slice(), rec.body.as_slice()),
    }
}

/// Whether the edits leave a record as it is not.
fn is_changed(edits: &[Placed], track: u32, rec: &Rec) -> bool
    ensures changed { IsTrue result → rec_after edits.now track rec.now ≢ rec.now }
    ensures unchanged { result ≡ false → rec_after edits.now track rec.now ≡ rec.now }
{
    let place = Place {
        track,
        record_number: rec.r,
    };
    let Some(edit) = edit_at(edits, place) else {
        return false;
    };
    let (key, body) = parts(&edit.bytes);
    if !same(key, rec.key.as_slice()) {
        return true;
    }
    !same(body, rec.body.as_slice())
}

/// Whether the edits change some record of a track.
pub(crate) fn are_changed(edits: &[Placed], track: u32, recs: &[Rec]) -> bool
    ensures changed { IsTrue result → Any (λ rec. rec_after edits.now track rec ≢ rec) recs.now }
    ensures unchanged { result ≡ false → map (rec_after edits.now track) recs.now ≡ recs.now }
{
    for rec in recs {
        if is_changed(edits, track, rec) {
            return true;
        }
    }
    false
}

/// The records of a track as the edits leave them.
pub(crate) fn edited_recs(
    alloc: Global,
    edits: &[Placed],
    track: u32,
    recs: &[Rec],
) -> Result<Recs, NoMemory>
    ensures edited { IfOk result (λ new. new ≡ map (rec_after edits.now track) recs.now) }
    ensures shaped { IfOk result (λ new. All IsDscbRecord recs.now → All IsDscbRecord new) }
{
    let mut new = Listed::new(alloc);
    for rec in recs {
        new.push(edited(alloc, edits, track, rec)?)?;
    }
    Ok(new)
}
