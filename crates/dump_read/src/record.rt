//! Reading a record of a dumped track.

ghost use Rattle.std.specs.Prelude.{◌≡◌, ◌<◌, ◌≤◌, ◌+◌, ◌-◌, ◌^◌, ◌++◌, length, replicate, IfOk, IfErr, IfSome, IfNone};
ghost use Rattle.byteorder.specs.Endian.{big_bytes};
ghost use Rattle.dump_read.specs.TrackFields.{IsNumberStop, IsRecordText, IsRecordHead, IsRecordRead, IsRecordStop};

use crate::track::{TrackField, TrackStop};
use byteorder::{BigEndian, ByteOrder};
use ckd_image::text::split;
use ckd_image::{Bytes, Rec};
use std::alloc::Global;

/// The number of two bytes, and the bytes behind them.
fn two_bytes_in(bytes: &[u8]) -> Option<(u16, &[u8])>
    ensures found { IfSome result (λ x. bytes.now ≡ big_bytes 2 x.0 ++ x.1.now) }
    ensures short { IfNone result (length bytes.now < 2) }
{
    if bytes.len() < 2 {
        return None;
    }
    let (front, rest) = bytes.split_at(2);
    Some((BigEndian::read_u16(front), rest))
}

/// The least number that begins with fewer than two bytes.
fn least(bytes: &[u8]) -> u16
    requires { length bytes.now < 2 }
    ensures { big_bytes 2 result ≡ bytes.now ++ replicate (2 - length bytes.now) 0 }
{
    match bytes.first() {
        Some(high) => 256 * u16::from(*high),
        None => 0,
    }
}

/// What is to be said of fewer than two bytes: zeros behind them make a number up to the limit where anything does.
fn cut_number(field: TrackField, start: usize, limit: u32, bytes: &[u8]) -> TrackStop
    requires { length bytes.now < 2 }
    ensures { IsNumberStop field start limit bytes.now result }
{
    if u32::from(least(bytes)) > limit {
        return TrackStop::Wrong(field, start);
    }
    TrackStop::Cut
}

/// The number in a field, up to a limit, and the bytes behind it.
pub(crate) fn number_up_to(
    field: TrackField,
    start: usize,
    limit: u32,
    bytes: &[u8],
) -> Result<(u16, &[u8]), TrackStop>
    requires { limit ≤ 65535 }
    ensures found { IfOk result (λ x. (x.0 ≤ limit) × (bytes.now ≡ big_bytes 2 x.0 ++ x.1.now)) }
    ensures stops { IfErr result (IsNumberStop field start limit bytes.now) }
{
    let Some((number, rest)) = two_bytes_in(bytes) else {
        return Err(cut_number(field, start, limit, bytes));
    };
    if u32::from(number) > limit {
        return Err(TrackStop::Wrong(field, start));
    }
    Ok((number, rest))
}

/// What stands before the key of a record: its number, and how many bytes key and body have.
#[derive(Clone, Copy, Debug, PartialEq, Eq)]
pub(crate) struct RecordHead {
    pub r: u8,
    pub key: u8,
    pub body: u16,
}

/// What stands before the key at the front, and the bytes behind it. So many bytes are before it, and there is room for so many of key and body.
fn head_in(room: u32, start: usize, bytes: &[u8]) -> Result<(RecordHead, &[u8]), TrackStop>
    requires room { room ≤ 65535 }
    requires whole { start + length bytes.now < 2 ^ 64 }
    ensures read { IfOk result (λ x. IsRecordHead room bytes.now x.0 x.1.now) }
    ensures stops { IfErr result (IsRecordStop (IsRecordText room) start bytes.now) }
{
    let Some((r, keyed)) = bytes.split_first() else {
        return Err(TrackStop::Cut);
    };
    if *r == 0 {
        return Err(TrackStop::Wrong(TrackField::Number, start));
    }
    let Some((key, bodied)) = keyed.split_first() else {
        return Err(TrackStop::Cut);
    };
    if u32::from(*key) > room {
        return Err(TrackStop::Wrong(TrackField::Key, start + 1));
    }
    let (body, rest) = number_up_to(TrackField::Body, start + 2, room - u32::from(*key), bodied)?;
    Ok((
        RecordHead {
            r: *r,
            key: *key,
            body,
        },
        rest,
    ))
}

/// The record at the front, and the bytes behind it. So many bytes are before it, and there is room for so many of key and body.
pub(crate) fn record_in<'a>(
    alloc: Global,
    room: u32,
    start: usize,
    bytes: &'a [u8],
) -> Result<(Rec, &'a [u8]), TrackStop>
    requires room { room ≤ 65535 }
    requires whole { start + length bytes.now < 2 ^ 64 }
    ensures read { IfOk result (λ x. IsRecordRead room bytes.now x.0 x.1.now) }
    ensures stops { IfErr result (IsRecordStop (IsRecordText room) start bytes.now) }
{
    let (head, rest) = head_in(room, start, bytes)?;
    let size = usize::from(head.key) + usize::from(head.body);
    let Some((text, behind)) = split(rest, size) else {
        return Err(TrackStop::Cut);
    };
    let (key, body) = text.split_at(usize::from(head.key));
    let rec = Rec {
        r: head.r,
        key: Bytes::from_slice(alloc, key)?,
        body: Bytes::from_slice(alloc, body)?,
    };
    Ok((rec, behind))
}
