//! Changing the address of a track where it lies.

ghost use Rattle.std.specs.Prelude.{◌≡◌, ◌≤◌, length, IsTrue, IfSome, IfNone};
ghost use Rattle.ckd_image.specs.declared.track.Track.{Track};
ghost use Rattle.ckd_image.specs.Track.{IsTrackText};
ghost use Rattle.ckd_image.specs.Readdress.{IsReaddressed, IsRecordOf, HasNoRecord, HasRecords, RecordsMoved};

use crate::device::Device;
use crate::parse::{END_MARK, count_at, home_at, zero_at};
use crate::text::{begins, put_over, split, tail};
use crate::track::TrackAt;

/// How many bytes the record at the front takes, where one stands there.
fn record_end(at: TrackAt, bytes: &[u8]) -> Option<usize>
    ensures found { IfSome result (IsRecordOf at bytes.now) }
    ensures none { IfNone result (HasNoRecord at bytes.now) }
{
    let (count, rest) = count_at(bytes)?;
    if count.at != at || count.r == 0 {
        return None;
    }
    let (key, rest) = split(rest, count.key as usize)?;
    let (body, _) = split(rest, count.body as usize)?;
    Some(8 + key.len() + body.len())
}

/// Whether records and the end mark stand behind so many bytes.
fn has_records(at: TrackAt, slot: &[u8], start: usize) -> bool
    requires start { start ≤ length slot.now }
    requires short { length slot.now ≤ 65536 }
    ensures yes { IsTrue result → HasRecords at slot.now start }
    ensures no { ¬ IsTrue result → ¬ HasRecords at slot.now start }
{
    let mut place = start;
    'records: while !begins(tail(slot, place), &END_MARK) {
        let Some(len) = record_end(at, tail(slot, place)) else {
            return false;
        };
        place += len;
    }
    true
}

fn move_records(from: TrackAt, to: TrackAt, slot: &mut [u8], start: usize)
    requires records { HasRecords from slot.old start }
    requires short { length slot.old ≤ 65536 }
    ensures { RecordsMoved from to slot.old slot.new start }
{
    let mut place = start;
    'records: while !begins(tail(slot, place), &END_MARK) {
        let Some(len) = record_end(from, tail(slot, place)) else {
            unreachable!()
        };
        put_over(slot, place, &to.bytes());
        place += len;
    }
}

/// Changes the address of a track text where it lies, and says whether one stood there.
pub fn readdress(_device: Device, from: TrackAt, to: TrackAt, slot: &mut [u8]) -> bool
    requires { length slot.old ≤ 65536 }

    // The same track and the same bytes behind its end mark, at the new address.
    ensures moved { IsTrue result → IsReaddressed from to slot.old slot.new }
    ensures same { ¬ IsTrue result → slot.new ≡ slot.old }
    ensures none { ¬ IsTrue result → (track : Track) → ¬ IsTrackText from slot.old track }
{
    let Some((_flag, rest)) = home_at(from, slot) else {
        return false;
    };
    let Ok((_r0, _more)) = zero_at(from, rest) else {
        return false;
    };
    if !has_records(from, slot, 21) {
        return false;
    }
    put_over(slot, 1, &to.bytes());
    put_over(slot, 5, &to.bytes());
    move_records(from, to, slot, 21);
    true
}
