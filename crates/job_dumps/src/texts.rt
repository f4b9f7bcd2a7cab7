//! The texts of a data set's tracks: they are read one after the other, and each is put on the outputs of a dump.

ghost use Rattle.std.specs.Prelude.{◌≡◌, ◌<◌, ◌≤◌, All, Option, is_some, length, IfOk, IfErr, IfSome};
ghost use Rattle.ckd_image.specs.declared.track.Track.{Track as TrackOf};
ghost use Rattle.ckd_image.specs.Device.{heads_of, slot_of};
ghost use Rattle.dasd_pool.specs.Count.{Rose};
ghost use Rattle.dump_fmt.specs.Parts.{StandsOn};
ghost use Rattle.redo_core.specs.Reading.{journal_of};
ghost use Rattle.job_dumps.specs.Texts.{IsReadAs, MayPutTexts, OnlyLooks, PutsNext, PutsTexts};

use ckd_image::{CkdFault, Device, Track, TrackAt, parse_track};
use dasd_pool::Pool;
use dump_fmt::{DumpWriter, OutDd, Piece, Seen};
use job_turns::job_steps::unit_session::Session;
use std::alloc::Global;
use unit_load::UnitFault;

/// The tracks of a data set in order, their device, and the unit on which they are.
#[derive(Drop)]
pub(crate) struct SetTracks {
    pub unit: u32,
    pub device: Device,
    pub tracks: Vec<u32>,
}

/// The text of a track, if it has one.
fn read_text<P: Pool>(
    alloc: Global,
    session: &mut Session<P>,
    unit: u32,
    device: Device,
    track: u32,
    slot: &mut [u8],
) -> Result<Option<Track>, UnitFault>
    requires unit { unit < journal_of (P.shape session.old.pool) }
    requires track { track < (P.shape session.old.pool).blocks unit }
    requires few { (P.shape session.old.pool).blocks unit ≤ 65535 }
    requires size { length slot.old ≡ (P.shape session.old.pool).block_size unit }
    requires device { (P.shape session.old.pool).block_size unit ≡ slot_of device }
    ensures looks { OnlyLooks P.Pool session.old session.new }
    ensures text { P.tells → IfOk result (IsReadAs (heads_of device) track ((P.disk session.old.pool).state.contents unit track)) }
    ensures stands { IfOk result (λ found. IfSome found (StandsOn device)) }
    ensures cause { IfErr result (λ fault. fault ≡ UnitFault.Pool → Rose (P.faults session.old.pool) (P.faults session.new.pool)) }
{
    if session.read_slot(unit, track, slot).is_err() {
        return Err(UnitFault::Pool);
    }
    let at = TrackAt::of(track, device.heads());
    match parse_track(alloc, device, at, slot) {
        Ok(text) => Ok(Some(text)),
        Err(CkdFault::NoMemory) => Err(UnitFault::NoMemory),
        Err(_) => Ok(None),
    }
}

/// Puts the text of a track, if it has one, and tells whether it has.
fn put_next<P: Pool>(
    alloc: Global,
    session: &mut Session<P>,
    set: &SetTracks,
    track: u32,
    slot: &mut [u8],
    writer: &mut DumpWriter,
) -> Result<bool, UnitFault>
    requires unit { set.now.unit < journal_of (P.shape session.old.pool) }
    requires track { track < (P.shape session.old.pool).blocks set.now.unit }
    requires few { (P.shape session.old.pool).blocks set.now.unit ≤ 65535 }
    requires size { length slot.old ≡ (P.shape session.old.pool).block_size set.now.unit }
    requires device { (P.shape session.old.pool).block_size set.now.unit ≡ slot_of set.now.device }
    requires may { MayPutTexts ⟦<OutDd as Seen>⟧.seen set.now.device 1 writer.old.progress writer.old.outs.items }
    ensures looks { OnlyLooks P.Pool session.old session.new }
    ensures put { IfOk result (λ more. (found : Option TrackOf) × (is_some found ≡ more)
        × PutsNext P.Pool ⟦<OutDd as Seen>⟧.seen session.old set.now.unit set.now.device track writer.old.progress writer.old.outs.items writer.new.progress writer.new.outs.items found) }
    ensures none { IfErr result (λ fault. writer.new ≡ writer.old) }
    ensures places { writer.new.progress.places.items ≡ writer.old.progress.places.items }
    ensures cause { IfErr result (λ fault. fault ≡ UnitFault.Pool → Rose (P.faults session.old.pool) (P.faults session.new.pool)) }
{
    let Some(text) = read_text(alloc, session, set.unit, set.device, track, slot)? else {
        return Ok(false);
    };
    match writer.put(&Piece::Track(text)) {
        Ok(()) => Ok(true),
        Err(_) => Err(UnitFault::NoMemory),
    }
}

/// Puts the texts of a data set's tracks, up to the first track without one, and tells whether each has one.
pub(crate) fn put_texts<P: Pool>(
    alloc: Global,
    session: &mut Session<P>,
    set: &SetTracks,
    slot: &mut [u8],
    writer: &mut DumpWriter,
) -> Result<bool, UnitFault>
    requires unit { set.now.unit < journal_of (P.shape session.old.pool) }
    requires tracks { All (λ track. track < (P.shape session.old.pool).blocks set.now.unit) set.now.tracks.items }
    requires few { (P.shape session.old.pool).blocks set.now.unit ≤ 65535 }
    requires size { length slot.old ≡ (P.shape session.old.pool).block_size set.now.unit }
    requires device { (P.shape session.old.pool).block_size set.now.unit ≡ slot_of set.now.device }
    requires may { MayPutTexts ⟦<OutDd as Seen>⟧.seen set.now.device (length set.now.tracks.items) writer.old.progress writer.old.outs.items }
    ensures looks { OnlyLooks P.Pool session.old session.new }
    ensures put { PutsTexts P.Pool ⟦<OutDd as Seen>⟧.seen session.old set.now writer.old.progress writer.old.outs.items writer.new.progress writer.new.outs.items result }
    ensures places { writer.new.progress.places.items ≡ writer.old.progress.places.items }
    ensures cause { IfErr result (λ fault. fault ≡ UnitFault.Pool → Rose (P.faults session.old.pool) (P.faults session.new.pool)) }
{
    for track in &set.tracks {
        let more = put_next(alloc, session, set, *track, slot, writer)?;
        if !more {
            return Ok(false);
        }
    }
    Ok(true)
}
