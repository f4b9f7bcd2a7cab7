//! Reading a track's slot.

ghost use Rattle.std.specs.Prelude.{◌≡◌, ℕ, ◌+◌, ◌<◌, ◌≤◌, ◌↔◌, ◌++◌, length, All, IsTrue, IfOk, IfErr, IfSome, IfNone};
ghost use Rattle.ckd_image.specs.declared.track.Track.{Track};
ghost use Rattle.ckd_image.specs.Bytes.{Begins};
ghost use Rattle.ckd_image.specs.Track.{count_text, home_text, zero_count, zero_text, record_text, records_text, end_mark, IsRecord, IsTrackText};
ghost use Rattle.ckd_image.specs.TrackFault.{number_of, IsCount, IsWrongNext, IsWrongBehind, IsWrongZeroCount, IsWrongZeroAt, IsFaultAt, IsTrackFault};

use crate::bytes::Bytes;
use crate::device::Device;
use crate::fault::CkdFault;
use crate::text::{after, begins, split};
use crate::track::{Count, Rec, Recs, Track, TrackAt, TrackField};
use byteorder::{BigEndian, ByteOrder};
use std::alloc::Global;

pub(crate) const END_MARK: [u8; 8] = [0xff; 8];

impl TrackField {
    /// The number of the field in a refusal.
    pub fn number(self) -> u8
        ensures { result ≡ number_of self }
    {
        match self {
            TrackField::Home => 1,
            TrackField::Zero => 2,
            TrackField::Address => 3,
            TrackField::Length => 4,
            TrackField::End => 5,
        }
    }
}

fn wrong(offset: u32, field: TrackField) -> CkdFault
    ensures { result ≡ CkdFault.BadTrack offset (number_of field) }
{
    CkdFault::BadTrack(offset, field.number())
}

/// The count field at the front, and the bytes behind it.
pub(crate) fn count_at(bytes: &[u8]) -> Option<(Count, &[u8])>
    ensures found { IfSome result (λ x. IsCount x.0 × (bytes.now ≡ count_text x.0 ++ x.1.now)) }
    ensures short { IfNone result (length bytes.now < 8) }
{
    if bytes.len() < 8 {
        return None;
    }
    let (count, rest) = bytes.split_at(8);
    let at = TrackAt {
        cylinder: BigEndian::read_u16(count),
        head: BigEndian::read_u16(&count[2..]),
    };
    let count = Count {
        at,
        r: count[4],
        key: count[5],
        body: BigEndian::read_u16(&count[6..]),
    };
    Some((count, rest))
}

/// Whether a count field has this address.
fn is_at(count: Count, at: TrackAt) -> bool
    ensures { IsTrue result ↔ (count.at ≡ at) }
{
    count.at == at
}

/// The record at the front, and the bytes behind it.
fn record_at<'a>(
    alloc: Global,
    at: TrackAt,
    offset: u32,
    bytes: &'a [u8],
) -> Result<(Rec, &'a [u8]), CkdFault>
    requires within { offset + length bytes.now ≤ 65536 }
    requires no_end { ¬ Begins end_mark bytes.now }
    ensures read { IfOk result (λ x. IsRecord x.0 × (bytes.now ≡ record_text at x.0 ++ x.1.now)) }
    ensures refused { IfErr result (IsFaultAt (IsWrongNext at bytes.now) offset) }
{
    let Some((count, rest)) = count_at(bytes) else {
        return Err(wrong(offset, TrackField::End));
    };
    if !is_at(count, at) {
        return Err(wrong(offset, TrackField::Address));
    }
    if count.r == 0 {
        return Err(wrong(offset + 4, TrackField::Address));
    }
    let Some((key, rest)) = split(rest, count.key as usize) else {
        return Err(wrong(offset + 6, TrackField::Length));
    };
    let Some((body, rest)) = split(rest, count.body as usize) else {
        return Err(wrong(offset + 6, TrackField::Length));
    };
    let rec = Rec {
        r: count.r,
        key: Bytes::from_slice(alloc, key)?,
        body: Bytes::from_slice(alloc, body)?,
    };
    Ok((rec, rest))
}

/// The records up to the end mark.
fn records_at(alloc: Global, at: TrackAt, start: u32, bytes: &[u8]) -> Result<Recs, CkdFault>
    requires within { start + length bytes.now ≤ 65536 }
    ensures read { IfOk result (λ recs. All IsRecord recs × Begins (records_text at recs ++ end_mark) bytes.now) }
    ensures refused { IfErr result (IsFaultAt (IsWrongBehind at bytes.now) start) }
{
    let mut recs = Recs::new(alloc);
    let mut rest = bytes;
    while !begins(rest, &END_MARK) {
        let offset = start + (bytes.len() - rest.len()) as u32;
        let (rec, behind) = record_at(alloc, at, offset, rest)?;
        recs.push(rec)?;
        rest = behind;
    }
    Ok(recs)
}

/// The flag at the front, if the home address stands behind it, and the bytes behind both.
pub(crate) fn home_at(at: TrackAt, slot: &[u8]) -> Option<(u8, &[u8])>
    ensures found { IfSome result (λ x. slot.now ≡ home_text at x.0 ++ x.1.now) }
    ensures none { IfNone result ((flag : ℕ) → ¬ Begins (home_text at flag) slot.now) }
{
    let (flag, rest) = slot.split_first()?;
    let rest = after(rest, &at.bytes())?;
    Some((*flag, rest))
}

/// The offset of the first field of record 0's count field that is wrong.
fn wrong_zero(at: TrackAt, count: Count) -> Option<u32>
    ensures found { IfSome result (IsWrongZeroCount at count) }
    ensures none { IfNone result (count ≡ zero_count at) }
{
    if !is_at(count, at) {
        return Some(5);
    }
    if count.r != 0 {
        return Some(9);
    }
    if count.key != 0 {
        return Some(10);
    }
    if count.body != 8 {
        return Some(11);
    }
    None
}

/// Record 0's eight bytes, and the bytes behind it; or the offset of its first field that is wrong.
pub(crate) fn zero_at(at: TrackAt, bytes: &[u8]) -> Result<(&[u8; 8], &[u8]), u32>
    ensures found { IfOk result (λ x. (length x.0.now ≡ 8) × (bytes.now ≡ zero_text at x.0.now ++ x.1.now)) }
    ensures wrong { IfErr result (IsWrongZeroAt at bytes.now) }
{
    let Some((count, rest)) = count_at(bytes) else {
        return Err(5);
    };
    let Some((r0, rest)) = rest.split_first_chunk::<8>() else {
        return Err(5);
    };
    if let Some(offset) = wrong_zero(at, count) {
        return Err(offset);
    }
    Ok((r0, rest))
}

fn track_at(alloc: Global, at: TrackAt, slot: &[u8]) -> Result<Track, CkdFault>
    requires short { length slot.now ≤ 65536 }
    ensures read { IfOk result (IsTrackText at slot.now) }
    ensures refused { IfErr result (IsTrackFault at slot.now) }
{
    let Some((flag, rest)) = home_at(at, slot) else {
        return Err(wrong(1, TrackField::Home));
    };
    let (r0, rest) = match zero_at(at, rest) {
        Ok(found) => found,
        Err(offset) => return Err(wrong(offset, TrackField::Zero)),
    };
    let recs = records_at(alloc, at, 21, rest)?;
    let r0 = *r0;
    Ok(Track { flag, r0, recs })
}

/// Reads the track text that a slot holds at an address (Hercules CKD: home address, record 0, count, key and data fields).
///
/// The address names the track on its device, so the device itself is not looked at.
pub fn parse_track(
    alloc: Global,
    _device: Device,
    at: TrackAt,
    slot: &[u8],
) -> Result<Track, CkdFault>
    requires short { length slot.now ≤ 65536 }

    // What is read is spelled so.
    ensures read { IfOk result (IsTrackText at slot.now) }

    // A refusal names the first field that is wrong.
    ensures refused { IfErr result (IsTrackFault at slot.now) }

    // What is spelled so is read, unless memory runs out.
    ensures only { IfErr result (λ e. (track : Track) → IsTrackText at slot.now track → e ≡ CkdFault.NoMemory) }
{
    track_at(alloc, at, slot)
}
