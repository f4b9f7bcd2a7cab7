//! The data sets that a dump takes, one after the other.

ghost use Rattle.std.specs.Prelude.{◌≡◌, ◌<◌, ◌≤◌, true, None, length, IfOk, IfErr};
ghost use Rattle.dasd_pool.specs.Count.{Rose};
ghost use Rattle.redo_core.specs.Reading.{journal_of};
ghost use Rattle.vtoc_core.specs.declared.volume.Row.{Row as RowOf};
ghost use Rattle.vtoc_core.specs.declared.volume.Volume.{Volume as VolumeOf};
ghost use Rattle.job_turns.specs.job_copies.unit_steps.Plans.{HasRow, IsLoadedAt};
ghost use Rattle.job_turns.specs.job_steps.unit_session.Copies.{HasSource};
ghost use Rattle.job_turns.specs.job_steps.Units.{ForUnits};
ghost use Rattle.job_dumps.specs.Passing.{BeginsDump, CanBeChanged, DumpedCanBeChanged, GoesSoFar, IsRefusedSoFar, LeavesAll, LeavesTurn, SaysFull, TakesAll, TakesTurn, request_in};
ghost use Rattle.job_dumps.specs.Reasons.{changes_sets};
ghost use Rattle.job_dumps.specs.Texts.{MayPutSet, OnlyLooks};

use crate::judging::Dumping;
use crate::parts::put_part;
use crate::wish::DumpWish;
use by_rules::Day;
use dasd_pool::Pool;
use dsn_filter::Dsn;
use dump_fmt::{DumpWriter, OutDd, Seen};
use enq_table::Held;
use job_lines::Reason;
use job_turns::job_copies::step_plans::row_of;
use job_turns::job_steps::unit_session::Session;
use std::alloc::Global;
use unit_load::UnitFault;

/// From which unit data sets are dumped, what is asked of them, and what they are judged by; and that its VTOC has no room for stating the free space of its
/// volume, which matters only where data sets are changed.
#[derive(Clone, Copy)]
pub struct DumpScene<'a> {
    pub unit: u32,
    pub wish: DumpWish,
    pub held: &'a Held,
    pub today: Day,
    pub full: bool,
}

/// Why a data set isn't dumped, as far as neither its tracks nor the room in the VTOC are asked.
fn judge<P: Pool>(session: &Session<P>, scene: DumpScene<'_>, name: &Dsn) -> Result<(), Reason>
    requires { HasSource session.now.units scene.unit name.now }
    ensures goes { IfOk result (λ none. ForUnits P.Pool session.now (GoesSoFar (request_in scene.entry) name.now)) }
    ensures few { IfOk result (λ none. (volume : VolumeOf) (row : RowOf) → IsLoadedAt session.now.units scene.entry.unit volume → HasRow volume name.now row → length row.extents ≤ 16) }
    ensures refused { IfErr result (λ reason. ForUnits P.Pool session.now (IsRefusedSoFar (request_in scene.entry) name.now reason)) }
{
    session.stands();
    let volume = session.volume(scene.unit);
    let Some(row) = row_of(volume, name) else {
        unreachable!()
    };
    let dumping = Dumping {
        volume,
        row,
        name: *name,
        wish: scene.wish,
    };
    dumping.judge(scene.held, scene.today)
}

/// The turn of a data set: the reason why it isn't dumped, if there is one. Where it would be changed and its VTOC has no room for that, its tracks are
/// looked at, and nothing of it is put.
fn take_turn<P: Pool>(
    alloc: Global,
    session: &mut Session<P>,
    scene: DumpScene<'_>,
    name: &Dsn,
    writer: &mut DumpWriter,
) -> Result<Option<Reason>, UnitFault>
    requires unit { scene.unit < journal_of (P.shape session.old.pool) }
    requires may { MayPutSet ⟦<OutDd as Seen>⟧.seen session.old.units scene.unit name.now writer.old.progress writer.old.outs.items }
    requires full { changes_sets scene.wish ≡ true → ForUnits P.Pool session.old (SaysFull scene.unit scene.full) }
    ensures looks { OnlyLooks P.Pool session.old session.new }
    ensures put { IfOk result (TakesTurn P.Pool ⟦<OutDd as Seen>⟧.seen session.old (request_in scene.entry) name.now writer.old.progress writer.old.outs.items writer.new.progress writer.new.outs.items) }
    ensures left { IfErr result (λ fault. LeavesTurn P.Pool ⟦<OutDd as Seen>⟧.seen session.old (request_in scene.entry) name.now writer.old.progress writer.old.outs.items writer.new.progress writer.new.outs.items) }
    ensures places { writer.new.progress.places.items ≡ writer.old.progress.places.items }
    ensures may { IfOk result (λ reason. reason ≡ None → CanBeChanged session.old.units scene.entry name.now) }
    ensures cause { IfErr result (λ fault. fault ≡ UnitFault.Pool → Rose (P.faults session.old.pool) (P.faults session.new.pool)) }
{
    session.stands();
    if let Err(reason) = judge(session, scene, name) {
        return Ok(Some(reason));
    }
    if scene.full && scene.wish.changes() {
        let good = session.has_texts(scene.unit, name)?;
        return Ok(Some(if good {
            Reason::VtocFull
        } else {
            Reason::BadTrack
        }));
    }
    let whole = put_part(alloc, session, scene.unit, name, writer)?;
    Ok(if whole { None } else { Some(Reason::BadTrack) })
}

/// Puts the parts of data sets on the outputs of a dump, and tells of each the reason why it isn't dumped, if there is one. Nothing is written on the volume.
pub fn put_parts<P: Pool>(
    alloc: Global,
    session: &mut Session<P>,
    scene: DumpScene<'_>,
    names: &[Dsn],
    writer: &mut DumpWriter,
) -> Result<Vec<Option<Reason>>, UnitFault>
    requires unit { scene.unit < journal_of (P.shape session.old.pool) }
    requires begun { BeginsDump ⟦<OutDd as Seen>⟧.seen session.old.units scene.unit names.now writer.old.progress writer.old.outs.items }
    requires full { changes_sets scene.wish ≡ true → ForUnits P.Pool session.old (SaysFull scene.unit scene.full) }
    ensures looks { OnlyLooks P.Pool session.old session.new }
    ensures put { IfOk result (λ told. TakesAll P.Pool ⟦<OutDd as Seen>⟧.seen session.old (request_in scene.entry) names.now writer.old.progress writer.old.outs.items writer.new.progress writer.new.outs.items told.items) }
    ensures left { IfErr result (λ fault. LeavesAll P.Pool ⟦<OutDd as Seen>⟧.seen session.old (request_in scene.entry) names.now writer.old.progress writer.old.outs.items writer.new.progress writer.new.outs.items) }
    ensures places { writer.new.progress.places.items ≡ writer.old.progress.places.items }
    ensures may { IfOk result (λ told. DumpedCanBeChanged session.old.units scene.entry names.now told.items) }
    ensures cause { IfErr result (λ fault. fault ≡ UnitFault.Pool → Rose (P.faults session.old.pool) (P.faults session.new.pool)) }
{
    session.stands();
    let mut told = Vec::new(alloc);
    for name in names {
        let reason = take_turn(alloc, session, scene, name, writer)?;
        if told.push(reason).is_err() {
            return Err(UnitFault::NoMemory);
        }
    }
    Ok(told)
}
