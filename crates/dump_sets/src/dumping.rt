//! DUMP DATASET: the statement.

ghost use Rattle.std.specs.Prelude.{◌≡◌, ◌<◌, ◌∷◌, ◌++◌, [], false, true, All, IfOk, IfErr, IfSome, length, map};
ghost use Rattle.by_rules.specs.Day.{IsToday};
ghost use Rattle.dsn_filter.specs.Dsn.{IsDsn};
ghost use Rattle.dump_fmt.specs.Head.{IsDumpHead};
ghost use Rattle.dump_fmt.specs.Outs.{AreDistinct};
ghost use Rattle.redo_core.specs.Reading.{journal_of};
ghost use Rattle.vtoc_core.specs.declared.volume.Volume.{Volume as VolumeOf};
ghost use Rattle.job_dumps.specs.job_turns.job_copies.unit_steps.Plans.{IsLoadedAt};
ghost use Rattle.job_dumps.specs.job_turns.job_steps.Units.{facts_of, ForUnits};
ghost use Rattle.job_dumps.specs.Passing.{SaysFull};
ghost use Rattle.job_dumps.specs.Reasons.{changes_sets};
ghost use Rattle.job_lines.specs.declared.message.Message.{Message as MessageOf};
ghost use Rattle.job_outputs.specs.declared.places.OutputsFault.TheVariants as faults;
ghost use Rattle.job_dumps.specs.job_turns.job_steps.declared.cut.Cut.TheVariants as cuts;
ghost use Rattle.job_dumps.specs.job_turns.Ends.{Ends};
ghost use Rattle.job_dumps.specs.job_turns.Setting.{setting_of};
ghost use Rattle.job_dumps.specs.job_turns.job_acts.Making.{MayBeChanged};
ghost use Rattle.dump_sets.specs.Dump.{Dumps, DumpsDataSets, FollowsDump, IsCutBehind, IsCutDumping, IsCutIn};
ghost use Rattle.dump_sets.specs.Going.{AreDumpLines, AreReady, AreTaken, CanState, IsHeadFor, MayFollow};
ghost use Rattle.job_outputs.specs.Kept.{IsKeptBut, KeepsUsed};

use crate::changing::change_all;
use crate::telling::{is_whole, push_lost, push_sets, taken};
use crate::writing::{DumpOf, write_dump};
use by_rules::Day;
use ckd_image::NoMemory;
use dasd_pool::Pool;
use dd_names::DdName;
use dsn_filter::Dsn;
use dump_fmt::{DumpHead, OutDd, Seen};
use enq_table::Held;
use job_dumps::job_turns::job_acts::{Looked, look};
use job_dumps::job_turns::job_copies::step_room::room_laws;
use job_dumps::job_turns::job_steps::Cut;
use job_dumps::job_turns::job_steps::unit_session::Session;
use job_dumps::job_turns::{Log, UnitUse, find, say, say_all, taken as names_taken, unit_for};
use job_dumps::{DumpScene, DumpWish};
use job_lines::{Message, Reason};
use job_outputs::{OutputsFault, places_of};
use move_core::Step;
use std::alloc::Global;
use sysin_lang::Filter;
use unit_load::UnitFault;
use vol_label::{Serial, is_serial};
use vtoc_load::count_laws;

/// What a DUMP asks for.
#[derive(Clone, Copy)]
pub struct DumpJob<'a> {
    pub filter: &'a Filter,
    pub serial: Serial,
    /// The names of its outputs.
    pub outs: &'a [DdName],
    pub wish: DumpWish,
    pub held: &'a Held,
    pub today: Day,
}

/// What a DUMP goes on with: its unit, the data sets that its filter takes, and the places of its outputs.
#[derive(Clone, Copy)]
struct Course<'a> {
    unit: u32,
    names: &'a [Dsn],
    places: &'a [u32],
}

/// The header of a dump of a unit's volume. None where its serial is none, which no label that is read has.
fn head_of<P: Pool>(session: &Session<P>, unit: u32, today: Day) -> Option<DumpHead>
    requires unit { unit < journal_of (P.shape session.now.pool) }
    requires online { (volume : VolumeOf) × IsLoadedAt session.now.units unit volume }
    ensures head { IfSome result (λ head. (volume : VolumeOf) → IsLoadedAt session.now.units unit volume → IsHeadFor ((P.shape session.now.pool).blocks unit) volume today head) }
    ensures lawful { IfSome result IsDumpHead }
{
    session.stands();
    let volume = session.volume(unit);
    if !is_serial(&volume.serial.text) {
        return None;
    }
    Some(DumpHead {
        full: false,
        device: volume.device,
        serial: volume.serial,
        tracks: session.blocks(unit),
        day: today,
        vtoc: 0,
    })
}

/// What is said of data sets and outputs once a dump ended.
fn lines(
    alloc: Global,
    course: Course<'_>,
    told: &[Option<Reason>],
    outs: &[OutDd],
    dds: &[DdName],
) -> Result<Vec<Message>, NoMemory>
    requires names { All IsDsn course.names.now }
    requires count { length told.now ≡ length course.names.now }
    requires named { length course.places.now ≡ length dds.now }
    requires within { All (λ place. place < length outs.now) course.places.now }
    ensures { IfOk result (λ said. AreDumpLines (map ⟦<OutDd as Seen>⟧.seen outs.now) dds.now course.entry.names.now course.entry.places.now told.now said.items) }
{
    let whole = is_whole(outs, course.places);
    let mut said = Vec::new(alloc);
    push_sets(course.names, told, whole, &mut said)?;
    push_lost(outs, dds, course.places, &mut said)?;
    Ok(said)
}

/// Goes on behind a dump that stands: says what became of data sets and outputs, and changes the data sets that stand in it, where that is asked.
fn follow<P: Pool>(
    alloc: Global,
    session: Session<P>,
    job: DumpJob<'_>,
    course: Course<'_>,
    told: &[Option<Reason>],
    outs: &[OutDd],
    log: &mut Log,
) -> Result<Session<P>, Cut<P>>
    requires unit { course.unit < journal_of (P.shape session.pool) }
    requires may { MayFollow session.room session.units job.wish course.unit course.names.now told.now }
    requires named { length course.places.now ≡ length job.outs.now }
    requires within { All (λ place. place < length outs.now) course.places.now }
    ensures { Ends P.Pool (FollowsDump (setting_of P.Pool session job.entry.held.now job.entry.today) job.entry.wish job.entry.outs.now course.entry.unit course.entry.names.now course.entry.places.now (map ⟦<OutDd as Seen>⟧.seen outs.now) told.now)
        (IsCutBehind (setting_of P.Pool session job.entry.held.now job.entry.today) job.entry.wish course.entry.unit course.entry.names.now course.entry.places.now (map ⟦<OutDd as Seen>⟧.seen outs.now) told.now) session
        log.old.steps.items log.new.steps.items log.old.messages.items log.new.messages.items result }
{
    let Ok(said) = lines(alloc, course, told, outs, job.outs) else {
        return Err(Cut::Short(session));
    };
    let session = say_all(session, &said, log)?;
    if !is_whole(outs, course.places) {
        return say(session, &mut log.messages, Message::NoOutputWhole);
    }
    if !job.wish.changes() {
        return Ok(session);
    }
    let Ok(names) = taken(alloc, course.names, told) else {
        return Err(Cut::Short(session));
    };
    if names.is_empty() {
        return Ok(session);
    }
    change_all(alloc, session, course.unit, job.wish, &names, log)
}

/// Dumps data sets, and goes on behind that. `full` tells that the VTOC has no room for stating the free space of the volume, where data sets are changed.
fn go_on<P: Pool>(
    alloc: Global,
    session: Session<P>,
    job: DumpJob<'_>,
    course: Course<'_>,
    full: bool,
    outs: &mut Vec<OutDd>,
    log: &mut Log,
) -> Result<Session<P>, Cut<P>>
    requires unit { course.unit < journal_of (P.shape session.pool) }
    requires taken { AreTaken session.units course.unit course.names.now }
    requires ready { AreReady ⟦<OutDd as Seen>⟧.seen outs.old.items job.outs.now course.places.now }
    requires full { changes_sets job.wish ≡ true → ForUnits P.Pool session (SaysFull course.unit full) }
    requires may { changes_sets job.wish ≡ true → full ≡ false → CanState session.room session.units course.unit }
    ensures ends { Ends P.Pool (Dumps (setting_of P.Pool session job.entry.held.now job.entry.today) job.entry.wish job.entry.outs.now course.entry.unit course.entry.names.now course.entry.places.now (map ⟦<OutDd as Seen>⟧.seen outs.old.items) (map ⟦<OutDd as Seen>⟧.seen outs.new.items))
        (IsCutIn (setting_of P.Pool session job.entry.held.now job.entry.today) job.entry.wish course.entry.unit course.entry.names.now course.entry.places.now (map ⟦<OutDd as Seen>⟧.seen outs.old.items) (map ⟦<OutDd as Seen>⟧.seen outs.new.items)) session
        log.old.steps.items log.new.steps.items log.old.messages.items log.new.messages.items result }
    ensures outs { IsKeptBut ⟦<OutDd as Seen>⟧.seen course.entry.places.now outs.old.items outs.new.items }
{
    let mut session = session;
    session.stands();
    let scene = DumpScene {
        unit: course.unit,
        wish: job.wish,
        held: job.held,
        today: job.today,
        full,
    };
    let Some(head) = head_of(&session, course.unit, job.today) else {
        return Err(Cut::Short(session));
    };
    let dump = DumpOf {
        head,
        names: course.names,
        places: course.places,
    };
    match write_dump(alloc, &mut session, scene, dump, outs) {
        Ok(told) => follow(alloc, session, job, course, &told, outs, log),
        Err(UnitFault::Pool) => Err(Cut::Halted(session.into())),
        Err(UnitFault::NoMemory) => Err(Cut::Short(session)),
    }
}

/// Looks whether data sets can be changed, where that is asked, and dumps them.
fn look_and_dump<P: Pool>(
    alloc: Global,
    session: Session<P>,
    job: DumpJob<'_>,
    course: Course<'_>,
    outs: &mut Vec<OutDd>,
    log: &mut Log,
) -> Result<Session<P>, Cut<P>>
    requires unit { course.unit < journal_of (P.shape session.pool) }
    requires taken { AreTaken session.units course.unit course.names.now }
    requires ready { AreReady ⟦<OutDd as Seen>⟧.seen outs.old.items job.outs.now course.places.now }
    requires may { changes_sets job.wish ≡ true → MayBeChanged session.room session.units course.unit }
    ensures ends { Ends P.Pool (Dumps (setting_of P.Pool session job.entry.held.now job.entry.today) job.entry.wish job.entry.outs.now course.entry.unit course.entry.names.now course.entry.places.now (map ⟦<OutDd as Seen>⟧.seen outs.old.items) (map ⟦<OutDd as Seen>⟧.seen outs.new.items))
        (IsCutIn (setting_of P.Pool session job.entry.held.now job.entry.today) job.entry.wish course.entry.unit course.entry.names.now course.entry.places.now (map ⟦<OutDd as Seen>⟧.seen outs.old.items) (map ⟦<OutDd as Seen>⟧.seen outs.new.items)) session
        log.old.steps.items log.new.steps.items log.old.messages.items log.new.messages.items result }
    ensures outs { IsKeptBut ⟦<OutDd as Seen>⟧.seen course.entry.places.now outs.old.items outs.new.items }
{
    if !job.wish.changes() {
        return go_on(alloc, session, job, course, false, outs, log);
    }
    room_laws();
    session.stands();
    let repair = Step::Repair { unit: course.unit };
    match look(alloc, session, &repair)? {
        Looked::Fits(session) => go_on(alloc, session, job, course, false, outs, log),
        Looked::Full(session) => go_on(alloc, session, job, course, true, outs, log),
    }
}

/// Says why a statement's outputs don't stand ready, unless memory ran out.
fn say_fault<P: Pool>(
    session: Session<P>,
    messages: &mut Vec<Message>,
    fault: OutputsFault,
) -> Result<Session<P>, Cut<P>>
    ensures said { IfOk result (λ next. (next ≡ session) × ((message : MessageOf) × (fault ≡ faults.Refused message) × (messages.new.items ≡ messages.old.items ++ (message ∷ [])))) }
    ensures short { IfErr result (λ cut. (cut ≡ cuts.Short session) × (messages.new.items ≡ messages.old.items)) }
{
    match fault {
        OutputsFault::Refused(message) => say(session, messages, message),
        OutputsFault::NoMemory => Err(Cut::Short(session)),
    }
}

/// Dumps the data sets of a volume that the filter takes on the named outputs, and changes those that stand in the dump, where that is asked.
pub fn dump<P: Pool>(
    alloc: Global,
    session: Session<P>,
    job: DumpJob<'_>,
    outs: &mut Vec<OutDd>,
    log: &mut Log,
) -> Result<Session<P>, Cut<P>>
    requires today { IsToday job.today }
    requires named { 0 < length job.outs.now }
    ensures ends { Ends P.Pool (DumpsDataSets (setting_of P.Pool session job.entry.held.now job.entry.today) job.entry.filter.now job.entry.serial job.entry.outs.now job.entry.wish (map ⟦<OutDd as Seen>⟧.seen outs.old.items) (map ⟦<OutDd as Seen>⟧.seen outs.new.items))
        (IsCutDumping (setting_of P.Pool session job.entry.held.now job.entry.today) job.entry.filter.now job.entry.serial job.entry.outs.now job.entry.wish (map ⟦<OutDd as Seen>⟧.seen outs.old.items) (map ⟦<OutDd as Seen>⟧.seen outs.new.items)) session
        log.old.steps.items log.new.steps.items log.old.messages.items log.new.messages.items result }

    // An output that was used before, or that is still unused, is the very same.
    ensures outs { KeepsUsed ⟦<OutDd as Seen>⟧.seen outs.old.items outs.new.items }
{
    let named = UnitUse {
        serial: job.serial,
        changes: job.wish.changes(),
    };
    if let Err(message) = find(&session, named) {
        return say(session, &mut log.messages, message);
    }
    let places = match places_of(alloc, outs, job.outs) {
        Ok(places) => places,
        Err(fault) => return say_fault(session, &mut log.messages, fault),
    };
    let unit = match unit_for(&session, named) {
        Ok(unit) => unit,
        Err(message) => return say(session, &mut log.messages, message),
    };
    let Ok(names) = names_taken(alloc, &session, unit, job.filter, job.today) else {
        return Err(Cut::Short(session));
    };
    if names.is_empty() {
        return say(session, &mut log.messages, Message::NothingSelected);
    }
    count_laws();
    session.stands();
    let course = Course {
        unit,
        names: &names,
        places: &places,
    };
    look_and_dump(alloc, session, job, course, outs, log)
}
