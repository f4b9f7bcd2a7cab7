//! Writing a track's slot.

ghost use Rattle.std.specs.Prelude.{◌≡◌, ◌+◌, ◌-◌, ◌<◌, ◌≤◌, ◌^◌, ◌++◌, length, take, replicate, All, OnOk, IfErr};
ghost use Rattle.ckd_image.specs.Track.{count_text, record_text, records_text, track_text, IsRecord, IsTrack, IsTrackText};

use crate::device::Device;
use crate::fault::CkdFault;
use crate::parse::END_MARK;
use crate::text::put;
use crate::track::{Count, Rec, Track, TrackAt};

fn count_bytes(count: Count) -> [u8; 8]
    ensures { result ≡ count_text count }
{
    let [c0, c1] = count.at.cylinder.to_be_bytes();
    let [h0, h1] = count.at.head.to_be_bytes();
    let [l0, l1] = count.body.to_be_bytes();
    [c0, c1, h0, h1, count.r, count.key, l0, l1]
}

fn put_record(slot: &mut [u8], start: usize, at: TrackAt, rec: &Rec) -> usize
    requires record { IsRecord rec.now }
    requires room { start + length (record_text at rec.now) ≤ length slot.old }
    ensures end { result ≡ start + length (record_text at rec.now) }
    ensures written { take result slot.new ≡ take start slot.old ++ record_text at rec.now }
{
    let count = Count {
        at,
        r: rec.r,
        key: rec.key.len() as u8,
        body: rec.body.len() as u16,
    };
    let start = put(slot, start, &count_bytes(count));
    let start = put(slot, start, rec.key.as_slice());
    put(slot, start, rec.body.as_slice())
}

fn put_records(slot: &mut [u8], start: usize, at: TrackAt, recs: &[Rec]) -> usize
    requires records { All IsRecord recs.now }
    requires room { start + length (records_text at recs.now) ≤ length slot.old }
    ensures end { result ≡ start + length (records_text at recs.now) }
    ensures written { take result slot.new ≡ take start slot.old ++ records_text at recs.now }
{
    let mut end = start;
    for rec in recs {
        end = put_record(slot, end, at, rec);
    }
    end
}

fn record_len(rec: &Rec) -> usize
    requires { length rec.now.key + length rec.now.body < 2 ^ 32 }
    ensures { result ≡ 8 + (length rec.now.key + length rec.now.body) }
{
    8 + rec.key.len() + rec.body.len()
}

#[tactic(auto, using(crate::proofs::Records::next_fits))]
fn records_len(at: TrackAt, recs: &[Rec]) -> usize
    requires { length (records_text at recs.now) < 2 ^ 32 }
    ensures { result ≡ length (records_text at recs.now) }
{
    let mut len = 0;
    for rec in recs {
        len += record_len(rec);
    }
    len
}

fn write_track(at: TrackAt, track: &Track, slot: &mut [u8]) -> Result<(), CkdFault>
    requires track { IsTrack track.now }
    requires short { length (track_text at track.now) < 2 ^ 32 }
    ensures written { OnOk result (slot.new ≡ track_text at track.now ++ replicate (length slot.old - length (track_text at track.now)) 0) }
    ensures room { OnOk result (length (track_text at track.now) ≤ length slot.old) }

    ensures full { IfErr result (λ e. (e ≡ CkdFault.TrackFull (length (track_text at track.now)) (length slot.old))
        × (length slot.old < length (track_text at track.now)) × (slot.new ≡ slot.old)) }
{
    let need = 29 + records_len(at, track.recs.as_slice());
    if need > slot.len() {
        return Err(CkdFault::TrackFull(need as u32, slot.len() as u32));
    }
    let zero = Count {
        at,
        r: 0,
        key: 0,
        body: 8,
    };
    let end = put(slot, 0, &[track.flag]);
    let end = put(slot, end, &at.bytes());
    let end = put(slot, end, &count_bytes(zero));
    let end = put(slot, end, &track.r0);
    let end = put_records(slot, end, at, track.recs.as_slice());
    let end = put(slot, end, &END_MARK);
    slot[end..].fill(0);
    Ok(())
}

/// Writes a track's text and zeros behind it.
pub fn print_track(
    _device: Device,
    at: TrackAt,
    track: &Track,
    slot: &mut [u8],
) -> Result<(), CkdFault>
    requires track { IsTrack track.now }
    requires short { length (track_text at track.now) < 2 ^ 32 }

    // What is written is the text, and then zeros.
    ensures written { OnOk result (slot.new ≡ track_text at track.now ++ replicate (length slot.old - length (track_text at track.now)) 0) }
    // So it reads back.
    ensures stands { OnOk result (IsTrackText at slot.new track.now) }

    ensures room { OnOk result (length (track_text at track.now) ≤ length slot.old) }

    // A refusal says how long the text is, which is longer than the slot, and changes nothing.
    ensures full { IfErr result (λ e. (e ≡ CkdFault.TrackFull (length (track_text at track.now)) (length slot.old))
        × (length slot.old < length (track_text at track.now)) × (slot.new ≡ slot.old)) }
{
    write_track(at, track, slot)
}
