//! The slots of a unit's tracks.

ghost use Rattle.std.specs.Prelude.{◌≡◌, ◌≤◌, ◌<◌, ◌+◌, ◌*◌, ◌++◌, length, IfSome, IfOk, IfErr, OnOk};
ghost use Rattle.dasd_pool.specs.Calls.{size_in};
ghost use Rattle.free_map.specs.Runs.{HasTrack};
ghost use Rattle.redo_core.specs.Reading.{journal_of};
ghost use Rattle.vtoc_check.specs.Slots.{slot_in, AreSlotsOf};
ghost use Rattle.unit_load.specs.Hand.{with_hand};
ghost use Rattle.unit_load.specs.Reads.{OnlyReads, IsReadStop, AddsSlot};

use crate::stop::Stop;
use dasd_pool::Pool;
use free_map::Run;
use redo_core::Journal;
use std::alloc::Global;

/// A track whose slot is at hand: it counts in place of what the unit holds there.
#[derive(Clone, Copy, Debug)]
pub struct Hand<'a> {
    /// The number of the track, from 0 on.
    pub track: u32,
    /// The bytes of its slot, as many as a block of its unit has.
    pub slot: &'a [u8],
}

/// Reads the slot of a track.
fn read_slot<P: Pool>(
    alloc: Global,
    journal: &mut Journal<P>,
    unit: u32,
    track: u32,
) -> Result<Vec<u8>, Stop>
    requires unit { unit < journal_of (P.shape journal.old.pool) }
    requires track { track < (P.shape journal.old.pool).blocks unit }
    ensures reads { OnlyReads P.Pool journal.old journal.new }
    ensures slot { P.tells → IfOk result (λ slot. slot.items ≡ (P.disk journal.old.pool).state.contents unit track) }
    ensures long { IfOk result (λ slot. length slot.items ≡ (P.shape journal.old.pool).block_size unit) }
    ensures said { IfOk result (λ slot. length slot.items ≡ size_in ((P.shape journal.old.pool).head unit)) }
    ensures short { IfOk result (λ slot. length slot.items ≤ 65536) }
    ensures stop { IfErr result (IsReadStop (P.faults journal.old.pool) (P.faults journal.new.pool)) }
{
    let size = journal.block_size(unit);
    let mut slot = vec![in alloc; 0u8; size as usize]?;
    journal.read(unit, track, &mut slot)?;
    Ok(slot)
}

/// The slot of a track. That of a track at hand is copied, and isn't read.
pub(crate) fn slot_at<P: Pool>(
    alloc: Global,
    journal: &mut Journal<P>,
    unit: u32,
    track: u32,
    hand: Option<Hand<'_>>,
) -> Result<Vec<u8>, Stop>
    requires unit { unit < journal_of (P.shape journal.old.pool) }
    requires track { track < (P.shape journal.old.pool).blocks unit }
    requires hand { IfSome hand (λ hand. length hand.slot.now ≡ (P.shape journal.old.pool).block_size unit) }
    ensures reads { OnlyReads P.Pool journal.old journal.new }
    ensures slot { P.tells → IfOk result (λ slot. slot.items ≡ with_hand hand.entry ((P.disk journal.old.pool).state.contents unit) track) }
    ensures long { IfOk result (λ slot. length slot.items ≡ (P.shape journal.old.pool).block_size unit) }
    ensures said { IfOk result (λ slot. length slot.items ≡ size_in ((P.shape journal.old.pool).head unit)) }
    ensures short { IfOk result (λ slot. length slot.items ≤ 65536) }
    ensures stop { IfErr result (IsReadStop (P.faults journal.old.pool) (P.faults journal.new.pool)) }
{
    journal.sizes();
    let Some(hand) = hand else {
        return read_slot(alloc, journal, unit, track);
    };
    if track == hand.track {
        let slot = hand.slot.to_vec(alloc)?;
        return Ok(slot);
    }
    read_slot(alloc, journal, unit, track)
}

/// Adds the slot of a track to others. That of the track that was taken before isn't read again.
fn add_slot<P: Pool>(
    alloc: Global,
    journal: &mut Journal<P>,
    unit: u32,
    track: u32,
    taken: Hand<'_>,
    hand: Option<Hand<'_>>,
    slots: &mut Vec<u8>,
) -> Result<(), Stop>
    requires unit { unit < journal_of (P.shape journal.old.pool) }
    requires track { track < (P.shape journal.old.pool).blocks unit }
    requires taken { length taken.slot.now ≡ (P.shape journal.old.pool).block_size unit }
    requires hand { IfSome hand (λ hand. length hand.slot.now ≡ (P.shape journal.old.pool).block_size unit) }
    ensures reads { OnlyReads P.Pool journal.old journal.new }
    ensures added { OnOk result (AddsSlot track taken.entry.track taken.entry.slot.now ((P.shape journal.old.pool).block_size unit) slots.old.items slots.new.items) }
    ensures read { P.tells → taken.entry.slot.now ≡ with_hand hand.entry ((P.disk journal.old.pool).state.contents unit) taken.entry.track
        → OnOk result (slots.new.items ≡ slots.old.items ++ with_hand hand.entry ((P.disk journal.old.pool).state.contents unit) track) }
    ensures stop { IfErr result (IsReadStop (P.faults journal.old.pool) (P.faults journal.new.pool)) }
{
    if track == taken.track {
        slots.extend_from_slice(taken.slot)?;
        return Ok(());
    }
    let slot = slot_at(alloc, journal, unit, track, hand)?;
    slots.extend_from_slice(&slot)?;
    Ok(())
}

/// The slots of a run of tracks. That of the track that was taken before isn't read again.
pub(crate) fn read_run<P: Pool>(
    alloc: Global,
    journal: &mut Journal<P>,
    unit: u32,
    run: Run,
    taken: Hand<'_>,
    hand: Option<Hand<'_>>,
) -> Result<Vec<u8>, Stop>
    requires unit { unit < journal_of (P.shape journal.old.pool) }
    requires within { run.first + run.len ≤ (P.shape journal.old.pool).blocks unit }
    requires taken { length taken.slot.now ≡ (P.shape journal.old.pool).block_size unit }
    requires hand { IfSome hand (λ hand. length hand.slot.now ≡ (P.shape journal.old.pool).block_size unit) }
    requires few { (P.shape journal.old.pool).blocks unit ≤ 65535 }
    ensures reads { OnlyReads P.Pool journal.old journal.new }
    ensures long { IfOk result (λ slots. length slots.items ≡ run.len * (P.shape journal.old.pool).block_size unit) }
    ensures as_taken { IfOk result (λ slots. HasTrack run taken.entry.track
        → slot_in run ((P.shape journal.old.pool).block_size unit) slots.items taken.entry.track ≡ taken.entry.slot.now) }
    ensures slots { P.tells → taken.entry.slot.now ≡ with_hand hand.entry ((P.disk journal.old.pool).state.contents unit) taken.entry.track
        → IfOk result (λ slots. AreSlotsOf run ((P.shape journal.old.pool).block_size unit)
        slots.items (with_hand hand.entry ((P.disk journal.old.pool).state.contents unit))) }
    ensures stop { IfErr result (IsReadStop (P.faults journal.old.pool) (P.faults journal.new.pool)) }
{
    let mut slots = Vec::new(alloc);
    for place in 0..run.len {
        add_slot(
            alloc,
            journal,
            unit,
            run.first + place,
            taken,
            hand,
            &mut slots,
        )?;
    }
    Ok(slots)
}
