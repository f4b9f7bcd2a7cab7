//! Texts that the caller gives, written past the journal.

ghost use Rattle.std.specs.Prelude.{◌≡◌, ◌<◌, length, OnOk, IsErr};
ghost use Rattle.ckd_image.specs.Device.{slot_of};
ghost use Rattle.ckd_image.specs.Track.{IsTrack};
ghost use Rattle.dasd_pool.specs.Count.{Rose};
ghost use Rattle.dasd_pool.specs.Disk.{is_at};
ghost use Rattle.unit_session.specs.Copies.{OnlyWrites, contents_of};
ghost use Rattle.unit_session.specs.Given.{FitsAt, FitsSlot, GivesAt, IsGivenAt, IsShortGiven, IsTextGiven, MayGive, OnGiven, is_given, track_at};

use crate::copies::GivenTracks;
use ckd_image::{Track, TrackAt, print_track};
use dasd_pool::{Pool, PoolFault};
use redo_core::Journal;

/// Writes the text of a given track.
fn write_text<P: Pool>(
    journal: &mut Journal<P>,
    given: &GivenTracks,
    index: u32,
    text: &Track,
    slot: &mut [u8],
) -> Result<(), PoolFault>
    requires may { MayGive (P.shape journal.old.pool) given.now }
    requires place { index < length given.now.tracks.items }
    requires text { IsTrack text.now }
    requires fits { FitsSlot given.now index text.now }
    requires size { length slot.old ≡ slot_of given.now.device }
    ensures writes { OnlyWrites P.Pool (is_at given.now.unit (track_at given.now index)) journal.old journal.new }
    ensures size { length slot.new ≡ length slot.old }
    ensures text { P.tells → OnOk result (IsTextGiven given.now index text.now (contents_of P.Pool journal.new)) }
    ensures short { P.tells → OnOk result (IsShortGiven (P.shape journal.old.pool) (contents_of P.Pool journal.new) given.now) }
    ensures cause { IsErr result → Rose (P.faults journal.old.pool) (P.faults journal.new.pool) }
{
    let number = given.tracks[index as usize];
    let at = TrackAt::of(number, given.device.heads());
    let Ok(()) = print_track(given.device, at, text, slot) else {
        unreachable!()
    };
    journal.write(given.unit, number, slot)?;
    journal.sizes();
    Ok(())
}

/// Writes the text of one of the given tracks, of which there is one.
pub(crate) fn write_given<P: Pool>(
    journal: &mut Journal<P>,
    given: &Option<GivenTracks>,
    index: u32,
    text: &Track,
    slot: &mut [u8],
) -> Result<(), PoolFault>
    requires may { OnGiven (MayGive (P.shape journal.old.pool)) given.now }
    requires place { GivesAt given.now index }
    requires text { IsTrack text.now }
    requires fits { FitsAt given.now index text.now }
    requires size { OnGiven (λ some. length slot.old ≡ slot_of some.device) given.now }
    ensures writes { OnlyWrites P.Pool (is_given given.now index) journal.old journal.new }
    ensures size { length slot.new ≡ length slot.old }
    ensures text { P.tells → OnOk result (IsGivenAt given.now index text.now (contents_of P.Pool journal.new)) }
    ensures short { P.tells → OnOk result (OnGiven (IsShortGiven (P.shape journal.old.pool) (contents_of P.Pool journal.new)) given.now) }
    ensures cause { IsErr result → Rose (P.faults journal.old.pool) (P.faults journal.new.pool) }
{
    let Some(given) = given else { unreachable!() };
    write_text(journal, given, index, text, slot)
}
