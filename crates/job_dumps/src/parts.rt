//! The part of a data set.

ghost use Rattle.std.specs.Prelude.{◌≡◌, ◌<◌, ◌++◌, if◌then◌else◌, replicate, IfOk, IfErr};
ghost use Rattle.dasd_pool.specs.Count.{Rose};
ghost use Rattle.dump_fmt.specs.declared.piece.Piece.TheVariants as pieces;
ghost use Rattle.redo_core.specs.Reading.{journal_of};
ghost use Rattle.volume_model.specs.Reads.{fields_of_1};
ghost use Rattle.job_turns.specs.job_steps.unit_session.Copies.{HasSource};
ghost use Rattle.job_dumps.specs.Texts.{IsSetToDump, LeavesPart, MayPutSet, OnlyLooks, PutsPart};

use crate::texts::{SetTracks, put_texts};
use ckd_image::NoMemory;
use ckd_image::text::put_over;
use dasd_pool::Pool;
use dsn_filter::Dsn;
use dump_fmt::{DumpWriter, OutDd, Piece, Seen};
use job_turns::job_copies::job_select::track_count;
use job_turns::job_copies::step_plans::{kind_for, row_of};
use job_turns::job_steps::unit_session::{Session, tracks_of};
use std::alloc::Global;
use unit_load::UnitFault;

/// What is needed of a data set before its tracks are read: the piece that its part begins with, and where its tracks are.
#[derive(Drop)]
struct SetToDump {
    head: Piece,
    set: SetTracks,
}

/// A format 1 with zeros where the number of its extents, the extents and the pointer stand.
fn without_places(f1: &[u8; 140]) -> [u8; 140]
    ensures { result ≡ fields_of_1 f1.now ++ replicate 35 0 }
{
    let mut part = *f1;
    put_over(&mut part, 59, &[0]);
    put_over(&mut part, 105, &[0; 35]);
    part
}

/// What is needed of the data set of a name.
fn set_to_dump<P: Pool>(
    alloc: Global,
    session: &Session<P>,
    unit: u32,
    name: &Dsn,
) -> Result<SetToDump, NoMemory>
    requires { HasSource session.now.units unit name.now }
    ensures { IfOk result (λ found. IsSetToDump session.now.units unit name.now found.head found.set) }
{
    session.stands();
    let volume = session.volume(unit);
    let Some(row) = row_of(volume, name) else {
        unreachable!()
    };
    let head = Piece::Part {
        f1: without_places(&row.f1),
        tracks: track_count(volume, row),
        kind: kind_for(row.extents.as_slice()),
    };
    let set = SetTracks {
        unit,
        device: volume.device,
        tracks: tracks_of(alloc, volume.device, row)?,
    };
    Ok(SetToDump { head, set })
}

/// The piece that a part ends with.
fn end_of(whole: bool) -> Piece
    ensures { result ≡ (if whole then pieces.PartEnd else pieces.Dropped) }
{
    if whole {
        Piece::PartEnd
    } else {
        Piece::Dropped
    }
}

/// Puts the part of a data set on the outputs of a dump: its format 1, and its tracks up to the first without a text; and tells whether it is whole. Each of
/// its tracks is read once.
pub(crate) fn put_part<P: Pool>(
    alloc: Global,
    session: &mut Session<P>,
    unit: u32,
    name: &Dsn,
    writer: &mut DumpWriter,
) -> Result<bool, UnitFault>
    requires unit { unit < journal_of (P.shape session.old.pool) }
    requires may { MayPutSet ⟦<OutDd as Seen>⟧.seen session.old.units unit name.now writer.old.progress writer.old.outs.items }
    ensures looks { OnlyLooks P.Pool session.old session.new }
    ensures put { IfOk result (PutsPart P.Pool ⟦<OutDd as Seen>⟧.seen session.old unit name.now writer.old.progress writer.old.outs.items writer.new.progress writer.new.outs.items) }
    ensures left { IfErr result (λ fault. LeavesPart P.Pool ⟦<OutDd as Seen>⟧.seen session.old unit name.now writer.old.progress writer.old.outs.items writer.new.progress writer.new.outs.items) }
    ensures places { writer.new.progress.places.items ≡ writer.old.progress.places.items }
    ensures cause { IfErr result (λ fault. fault ≡ UnitFault.Pool → Rose (P.faults session.old.pool) (P.faults session.new.pool)) }
{
    let Ok(found) = set_to_dump(alloc, session, unit, name) else {
        return Err(UnitFault::NoMemory);
    };
    let size = session.block_size(unit);
    let Ok(mut slot) = vec![in alloc; 0u8; size as usize] else {
        return Err(UnitFault::NoMemory);
    };
    session.stands();
    session.texts();
    if writer.put(&found.head).is_err() {
        return Err(UnitFault::NoMemory);
    }
    let whole = put_texts(alloc, session, &found.set, &mut slot, writer)?;
    if writer.put(&end_of(whole)).is_err() {
        return Err(UnitFault::NoMemory);
    }
    Ok(whole)
}
