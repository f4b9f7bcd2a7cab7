//! Reading the end of a dump: both counts, the digest, and nothing behind it.

ghost use Rattle.std.specs.Prelude.{◌≡◌, ◌≤◌, ◌+◌, ◌++◌, List, ℕ, length, min, IfOk, IfErr, OnOk};
ghost use Rattle.byteorder.specs.Endian.{big_bytes};
ghost use Rattle.ckd_image.specs.Bytes.{Begins};
ghost use Rattle.dasd_pool.specs.Count.{Rose};
ghost use Rattle.dasd_pool.specs.Stream.{EndsOnly};
ghost use Rattle.dump_read.specs.Ending.{both_counts, right_digest, count_fault as fault_of_count, IsCountStop, IsFixedStop, IsEndFault};
ghost use Rattle.dump_read.specs.Feed.{coming, largest_offset};
ghost use Rattle.dump_read.specs.Reading.{HasRead, HasCome, HeldSuch};

use crate::feed::Feed;
use crate::number::number_text;
use crate::tape::Tape;
use ckd_image::text::{after, begins, same};
use dump_fmt::DumpFault;

/// Why the counts aren't read: the one at this place is wrong, or the bytes end before they do.
#[derive(Clone, Copy, Debug, PartialEq, Eq)]
pub(crate) enum CountStop {
    Wrong(u8),
    Cut,
}

/// What is to be said of bytes at a place that don't begin with the right ones.
fn count_stop(place: u8, bytes: &[u8], right: &[u8]) -> CountStop
    requires { ¬ Begins right.now bytes.now }
    ensures { IsFixedStop place right.now bytes.now result }
{
    if begins(right, bytes) {
        return CountStop::Cut;
    }
    CountStop::Wrong(place)
}

/// The bytes behind a count at this place, where it is the right one.
fn fixed_count(place: u8, bytes: &[u8], number: u32) -> Result<&[u8], CountStop>
    ensures read { IfOk result (λ rest. bytes.now ≡ big_bytes 4 number ++ rest.now) }
    ensures stops { IfErr result (IsFixedStop place (big_bytes 4 number) bytes.now) }
{
    let right = number_text(number);
    let Some(rest) = after(bytes, &right) else {
        return Err(count_stop(place, bytes, &right));
    };
    Ok(rest)
}

/// Compares both counts, in eight bytes or in all where there are fewer.
pub(crate) fn check_counts(bytes: &[u8], parts: u32, tracks: u32) -> Result<(), CountStop>
    requires { length bytes.now ≤ 8 }
    ensures read { OnOk result (bytes.now ≡ both_counts parts tracks) }
    ensures stops { IfErr result (IsCountStop parts tracks bytes.now) }
{
    let rest = fixed_count(0, bytes, parts)?;
    fixed_count(4, rest, tracks)?;
    Ok(())
}

/// The refusal of a count, by where the counts begin and how many bytes there are.
fn count_fault(start: u64, end: u64, stop: CountStop) -> DumpFault
    ensures { result ≡ fault_of_count start end stop }
{
    match stop {
        CountStop::Wrong(place) => DumpFault::BadDump(start.saturating_add(u64::from(place)), 10),
        CountStop::Cut => DumpFault::Truncated(end),
    }
}

fn read_counts<R: Tape>(
    feed: &mut Feed,
    reel: &mut R,
    parts: u32,
    tracks: u32,
) -> Result<(), DumpFault>
    ensures read { OnOk result ((bytes : List ℕ) → HasRead (R.seen reel.old) feed.old bytes → HasRead (R.seen reel.new) feed.new (bytes ++ both_counts parts tracks)) }
    ensures refused { IfErr result (λ e. (bytes : List ℕ) → HasRead (R.seen reel.old) feed.old bytes → IsEndFault parts tracks bytes (R.seen reel.new).held e) }
    ensures same { (R.seen reel.new).held ≡ (R.seen reel.old).held }
    ensures later { (R.seen reel.old).faults ≤ (R.seen reel.new).faults }
    ensures cause { IfErr result (λ e. e ≡ DumpFault.Reel → Rose (R.seen reel.old).faults (R.seen reel.new).faults) }
{
    let start = feed.offset;
    let mut counts = [0; 8];
    let count = feed.fetch(reel, &mut counts)?;
    match check_counts(&counts[..count], parts, tracks) {
        Ok(()) => Ok(()),
        Err(stop) => Err(count_fault(start, feed.offset, stop)),
    }
}

fn read_digest<R: Tape>(feed: &mut Feed, reel: &mut R) -> Result<[u8; 32], DumpFault>
    ensures read { IfOk result (λ digest. (bytes : List ℕ) → HasCome (R.seen reel.old) feed.old bytes → HasCome (R.seen reel.new) feed.new (bytes ++ digest)) }
    ensures refused { IfErr result (λ e. (parts tracks : ℕ) (bytes : List ℕ) → HasCome (R.seen reel.old) feed.old (bytes ++ both_counts parts tracks) → IsEndFault parts tracks bytes (R.seen reel.new).held e) }
    ensures same { (R.seen reel.new).held ≡ (R.seen reel.old).held }
    ensures later { (R.seen reel.old).faults ≤ (R.seen reel.new).faults }
    ensures cause { IfErr result (λ e. e ≡ DumpFault.Reel → Rose (R.seen reel.old).faults (R.seen reel.new).faults) }
{
    let mut digest = [0; 32];
    let count = feed.fetch(reel, &mut digest)?;
    if count < 32 {
        return Err(DumpFault::Truncated(feed.offset));
    }
    Ok(digest)
}

/// Is refused with the offset where the reel has more.
fn nothing_behind<R: Tape>(feed: &mut Feed, reel: &mut R, offset: u64) -> Result<(), DumpFault>
    ensures none { OnOk result ((bytes : List ℕ) → HasCome (R.seen reel.old) feed.old bytes → HeldSuch (R.seen reel.new).held (λ whole. whole ≡ bytes)) }
    ensures all { OnOk result (EndsOnly (coming feed.new.window (R.seen reel.new).left)) }
    ensures refused { IfErr result (λ e. (parts tracks : ℕ) (bytes digest : List ℕ) → length digest ≡ 32 → offset ≡ min (length bytes + 40) largest_offset
        → HasCome (R.seen reel.old) feed.old ((bytes ++ both_counts parts tracks) ++ digest) → IsEndFault parts tracks bytes (R.seen reel.new).held e) }
    ensures same { (R.seen reel.new).held ≡ (R.seen reel.old).held }
    ensures later { (R.seen reel.old).faults ≤ (R.seen reel.new).faults }
    ensures cause { IfErr result (λ e. e ≡ DumpFault.Reel → Rose (R.seen reel.old).faults (R.seen reel.new).faults) }
{
    let mut more = [0; 1];
    let count = feed.fetch(reel, &mut more)?;
    if count > 0 {
        return Err(DumpFault::BadDump(offset, 11));
    }
    Ok(())
}

/// Reads the end of a dump behind its last mark, with these counts and the digest of all that came, and nothing behind it.
pub fn read_end<R: Tape>(
    feed: &mut Feed,
    reel: &mut R,
    parts: u32,
    tracks: u32,
) -> Result<(), DumpFault>
    ensures whole { OnOk result ((bytes : List ℕ) → HasRead (R.seen reel.old) feed.old bytes
        → HeldSuch (R.seen reel.new).held (λ whole. whole ≡ (bytes ++ both_counts parts tracks) ++ right_digest parts tracks bytes)) }
    ensures all { OnOk result (EndsOnly (coming feed.new.window (R.seen reel.new).left)) }
    ensures refused { IfErr result (λ e. (bytes : List ℕ) → HasRead (R.seen reel.old) feed.old bytes → IsEndFault parts tracks bytes (R.seen reel.new).held e) }
    ensures same { (R.seen reel.new).held ≡ (R.seen reel.old).held }
    ensures later { (R.seen reel.old).faults ≤ (R.seen reel.new).faults }
    ensures cause { IfErr result (λ e. e ≡ DumpFault.Reel → Rose (R.seen reel.old).faults (R.seen reel.new).faults) }
{
    let start = feed.offset;
    read_counts(feed, reel, parts, tracks)?;
    let found = feed.take_digest();
    let kept = read_digest(feed, reel)?;
    nothing_behind(feed, reel, start.saturating_add(40))?;
    if !same(&kept, &found) {
        return Err(DumpFault::DigestDiffers { kept, found });
    }
    Ok(())
}
