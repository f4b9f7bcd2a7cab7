//! Reading a track of a dump.

ghost use Rattle.std.specs.Prelude.{◌≡◌, ◌<◌, ◌≤◌, ◌+◌, ◌^◌, ◌++◌, length, IfOk, IfErr};
ghost use Rattle.ckd_image.specs.Device.{slot_of};
ghost use Rattle.dump_fmt.specs.Pieces.{dumped_records};
ghost use Rattle.dump_read.specs.TrackFields.{AreRecords, AreRecordsStop};
ghost use Rattle.dump_read.specs.TrackText.{IsTrackRead, IsTrackStop};
ghost use Rattle.dump_read.specs.declared.track.TrackStop.TheVariants as stops;

use crate::record::{number_up_to, record_in};
use ckd_image::{Device, NoMemory, Recs, Track};
use std::alloc::Global;

/// The fields of a track that may be wrong: the number of its records; the number of a record; the lengths of its key and of its body.
#[derive(Clone, Copy, Debug, PartialEq, Eq)]
pub enum TrackField {
    Records,
    Number,
    Key,
    Body,
}

/// Why no track is read: a field is wrong, and so many bytes stand before it; or the bytes end before the track does; or memory ran out.
#[derive(Clone, Copy, Debug, PartialEq, Eq)]
pub enum TrackStop {
    Wrong(TrackField, usize),
    Cut,
    NoMemory,
}

impl From<NoMemory> for TrackStop {
    ghost from_gives = { λ _ e. e ≡ stops.NoMemory };

    fn from(_: NoMemory) -> TrackStop {
        TrackStop::NoMemory
    }
}

/// What a track without records takes of a slot: 21 bytes, and the 8 of the end mark.
const BARE: u32 = 29;

/// What a record takes of a slot beside its key and its body.
const COUNT_FIELD: u32 = 8;

/// Where the number of records stands behind the mark of a track.
const COUNT_AT: usize = 9;

/// Where the records begin behind it.
const RECORDS_AT: usize = 11;

/// The bytes of a slot beside those of a track without records.
fn room_of(device: Device) -> u32
    ensures whole { result + 29 ≡ slot_of device }
    ensures few { result ≤ 65535 }
{
    device.slot() - BARE
}

/// So many records, and the bytes behind them. So many bytes are before them, and there is room for so many of keys and bodies.
fn records_in(
    alloc: Global,
    room: u32,
    count: u16,
    start: usize,
    bytes: &[u8],
) -> Result<(Recs, &[u8]), TrackStop>
    requires room { room ≤ 65535 }
    requires whole { start + length bytes.now < 2 ^ 64 }
    ensures read { IfOk result (λ x. AreRecords room count x.0 × (bytes.now ≡ dumped_records x.0 ++ x.1.now)) }
    ensures stops { IfErr result (AreRecordsStop room count start bytes.now) }
{
    let mut recs = Recs::new(alloc);
    let mut rest = bytes;
    let mut left = room;
    'records: while recs.len() < usize::from(count) {
        let place = start + (bytes.len() - rest.len());
        let (rec, behind) = record_in(alloc, left, place, rest)?;
        left -= (rec.key.len() + rec.body.len()) as u32;
        recs.push(rec)?;
        rest = behind;
    }
    Ok((recs, rest))
}

/// Reads the track with which bytes behind its mark begin, and says how many of them it has.
pub fn read_track(alloc: Global, device: Device, bytes: &[u8]) -> Result<(Track, usize), TrackStop>
    ensures read { IfOk result (λ x. IsTrackRead device bytes.now x.0 x.1) }
    ensures stops { IfErr result (IsTrackStop device bytes.now) }
{
    let Some((flag, zero)) = bytes.split_first() else {
        return Err(TrackStop::Cut);
    };
    let Some((r0, counted)) = zero.split_first_chunk::<8>() else {
        return Err(TrackStop::Cut);
    };
    let room = room_of(device);
    let most = room / COUNT_FIELD;
    let (count, behind) = number_up_to(TrackField::Records, COUNT_AT, most, counted)?;
    let left = room - COUNT_FIELD * u32::from(count);
    let (recs, rest) = records_in(alloc, left, count, RECORDS_AT, behind)?;
    let r0 = *r0;
    let track = Track {
        flag: *flag,
        r0,
        recs,
    };
    Ok((track, bytes.len() - rest.len()))
}
