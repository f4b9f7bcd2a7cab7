//! Texts that are looked at, and copied past the journal.

ghost use Rattle.std.specs.Prelude.{◌≡◌, ◌<◌, length, map, All, Contains, IfErr, OnOk, IsErr};
ghost use Rattle.ckd_image.specs.Device.{slot_of};
ghost use Rattle.dasd_pool.specs.Count.{Rose};
ghost use Rattle.dasd_pool.specs.Disk.{is_at};
ghost use Rattle.unit_load.specs.Reads.{OnlyReads};
ghost use Rattle.unit_session.specs.Copies.{HaveTexts, MayCopy, AreCopied, IsTextCopied, IsEmptied, OnlyWrites, contents_of, is_among, may_write, IsLookFault};

use crate::copies::{Copies, TextMove};
use crate::fault::PlanFault;
use ckd_image::{Device, Listed, Track, TrackAt, print_track, readdress};
use dasd_pool::{Pool, PoolFault};
use redo_core::Journal;
use std::alloc::Global;

/// Looks whether each track that is to be copied has a text.
pub(crate) fn look_at_texts<P: Pool>(
    journal: &mut Journal<P>,
    copies: &Copies,
    slot: &mut [u8],
) -> Result<(), PlanFault>
    requires may { MayCopy (P.shape journal.old.pool) copies.now }
    requires size { length slot.old ≡ slot_of copies.now.device }
    ensures reads { OnlyReads P.Pool journal.old journal.new }
    ensures size { length slot.new ≡ length slot.old }
    ensures texts { P.tells → OnOk result (HaveTexts (P.disk journal.old.pool).state.contents copies.now) }
    ensures fault { IfErr result (IsLookFault P.Pool journal.old.pool journal.new.pool copies.now) }
{
    for text in &copies.moves {
        let Ok(()) = journal.read(copies.from, text.from, slot) else {
            return Err(PlanFault::Pool);
        };
        let at = TrackAt::of(text.from, copies.device.heads());
        if !readdress(copies.device, at, at, slot) {
            return Err(PlanFault::Bad(copies.from, text.from));
        }
    }
    Ok(())
}

/// Copies a text to another track.
fn copy_text<P: Pool>(
    journal: &mut Journal<P>,
    copies: &Copies,
    text: TextMove,
    slot: &mut [u8],
) -> Result<(), PoolFault>
    requires may { MayCopy (P.shape journal.old.pool) copies.now }
    requires there { Contains copies.now.moves.items text }
    requires size { length slot.old ≡ slot_of copies.now.device }
    ensures writes { OnlyWrites P.Pool (is_at copies.now.unit text.to) journal.old journal.new }
    ensures size { length slot.new ≡ length slot.old }
    ensures copied { P.tells → OnOk result (IsTextCopied copies.now (contents_of P.Pool journal.old) (contents_of P.Pool journal.new) text) }
    ensures cause { IsErr result → Rose (P.faults journal.old.pool) (P.faults journal.new.pool) }
{
    journal.read(copies.from, text.from, slot)?;
    let heads = copies.device.heads();
    let from = TrackAt::of(text.from, heads);
    let to = TrackAt::of(text.to, heads);
    // Each track was looked at, so that it has a text.
    let _readdressed = readdress(copies.device, from, to, slot);
    journal.write(copies.unit, text.to, slot)
}

/// Writes a track with record 0 alone.
fn empty_track<P: Pool>(
    alloc: Global,
    journal: &mut Journal<P>,
    copies: &Copies,
    track: u32,
    slot: &mut [u8],
) -> Result<(), PoolFault>
    requires may { MayCopy (P.shape journal.old.pool) copies.now }
    requires there { Contains copies.now.empty.items track }
    requires size { length slot.old ≡ slot_of copies.now.device }
    ensures writes { OnlyWrites P.Pool (is_at copies.now.unit track) journal.old journal.new }
    ensures size { length slot.new ≡ length slot.old }
    ensures emptied { P.tells → OnOk result (IsEmptied copies.now (contents_of P.Pool journal.new) track) }
    ensures cause { IsErr result → Rose (P.faults journal.old.pool) (P.faults journal.new.pool) }
{
    let text = Track {
        flag: 0,
        r0: [0; 8],
        recs: Listed::new(alloc),
    };
    let at = TrackAt::of(track, copies.device.heads());
    let Ok(()) = print_track(copies.device, at, &text, slot) else {
        unreachable!()
    };
    journal.write(copies.unit, track, slot)
}

/// Copies all texts, the first of them first.
fn copy_texts<P: Pool>(
    journal: &mut Journal<P>,
    copies: &Copies,
    slot: &mut [u8],
) -> Result<(), PoolFault>
    requires may { MayCopy (P.shape journal.old.pool) copies.now }
    requires size { length slot.old ≡ slot_of copies.now.device }
    ensures writes { OnlyWrites P.Pool (is_among copies.now.unit (map (λ move. move.to) copies.now.moves.items)) journal.old journal.new }
    ensures size { length slot.new ≡ length slot.old }
    ensures copied { P.tells → OnOk result (All (IsTextCopied copies.now (contents_of P.Pool journal.old) (contents_of P.Pool journal.new)) copies.now.moves.items) }
    ensures cause { IsErr result → Rose (P.faults journal.old.pool) (P.faults journal.new.pool) }
{
    for text in &copies.moves {
        copy_text(journal, copies, *text, slot)?;
    }
    Ok(())
}

/// Empties the tracks behind them.
fn empty_tracks<P: Pool>(
    alloc: Global,
    journal: &mut Journal<P>,
    copies: &Copies,
    slot: &mut [u8],
) -> Result<(), PoolFault>
    requires may { MayCopy (P.shape journal.old.pool) copies.now }
    requires size { length slot.old ≡ slot_of copies.now.device }
    ensures writes { OnlyWrites P.Pool (is_among copies.now.unit copies.now.empty.items) journal.old journal.new }
    ensures emptied { P.tells → OnOk result (All (IsEmptied copies.now (contents_of P.Pool journal.new)) copies.now.empty.items) }
    ensures cause { IsErr result → Rose (P.faults journal.old.pool) (P.faults journal.new.pool) }
{
    for track in &copies.empty {
        empty_track(alloc, journal, copies, *track, slot)?;
    }
    Ok(())
}

/// Makes the copies.
pub(crate) fn place_copies<P: Pool>(
    alloc: Global,
    journal: &mut Journal<P>,
    copies: &Copies,
    slot: &mut [u8],
) -> Result<(), PoolFault>
    requires may { MayCopy (P.shape journal.old.pool) copies.now }
    requires size { length slot.old ≡ slot_of copies.now.device }
    ensures writes { OnlyWrites P.Pool (may_write copies.now) journal.old journal.new }
    ensures copied { P.tells → OnOk result (AreCopied (contents_of P.Pool journal.old) (contents_of P.Pool journal.new) copies.now) }
    ensures cause { IsErr result → Rose (P.faults journal.old.pool) (P.faults journal.new.pool) }
{
    copy_texts(journal, copies, slot)?;
    empty_tracks(alloc, journal, copies, slot)
}
