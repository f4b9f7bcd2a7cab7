//! Statements that go through the data sets of a volume that a filter takes.

ghost use Rattle.std.specs.Prelude.{◌≡◌, ◌∷◌, [], All, IfOk, slice_get, Some};
ghost use Rattle.by_rules.specs.Day.{IsToday};
ghost use Rattle.volume_model.specs.Unit.{OnlineVolume, online};
ghost use Rattle.vtoc_core.specs.declared.volume.Row.{Row as RowOf};
ghost use Rattle.vtoc_core.specs.declared.volume.Volume.{Volume as VolumeOf};
ghost use Rattle.dump_sets.specs.job_turns.job_copies.unit_steps.Plans.{IsLoadedAt, HasRow};
ghost use Rattle.dump_sets.specs.job_turns.job_copies.job_select.Selection.{Selects};
ghost use Rattle.job_ops.specs.Asked.{MayProcess};
ghost use Rattle.dump_sets.specs.job_turns.job_steps.Units.{facts_of, ForUnits};
ghost use Rattle.dump_sets.specs.job_turns.Ends.{Ends};
ghost use Rattle.job_ops.specs.Meaning.{TurnOf};
ghost use Rattle.job_ops.specs.Reshaping.{StaysChangeable};
ghost use Rattle.job_ops.specs.Sets.{OverSets, IsCutOverSets};
ghost use Rattle.dump_sets.specs.job_turns.Setting.{setting_of};
ghost use Rattle.dump_sets.specs.job_turns.Turns.{Turns, AreCutTurns, IsCutAction};

use crate::asking::{Scene, look_up, reason_before};
use crate::consolidate::join;
use crate::log::refuse;
use crate::release::give_back;
use crate::task::Task;
use by_rules::Day;
use ckd_image::NoMemory;
use dasd_pool::Pool;
use dsn_filter::Dsn;
use dump_sets::job_turns::job_copies::job_select::select;
use dump_sets::job_turns::job_steps::Cut;
use dump_sets::job_turns::job_steps::unit_session::Session;
use dump_sets::job_turns::{Log, UnitUse, say, taken, unit_for};
use enq_table::Held;
use job_lines::Message;
use std::alloc::Global;
use sysin_lang::Filter;
use unit_load::UnitFault;
use vol_label::Serial;

/// What is to be done with the data sets of a volume that a filter takes.
#[derive(Clone, Copy)]
pub(crate) struct SetJob<'a> {
    pub task: Task,
    pub filter: &'a Filter,
    pub serial: Serial,
    pub held: &'a Held,
    pub today: Day,
}

/// The turn of a data set.
fn take_turn<P: Pool>(
    alloc: Global,
    session: Session<P>,
    scene: Scene<'_>,
    task: Task,
    name: &Dsn,
    log: &mut Log,
) -> Result<Session<P>, Cut<P>>
    requires may { MayProcess session.room session.units scene.unit (name.now ∷ []) }
    ensures ends { Ends P.Pool (TurnOf task scene.entry.held.now scene.entry.unit name.now) (IsCutAction (TurnOf task scene.entry.held.now scene.entry.unit name.now)) session
        log.old.steps.items log.new.steps.items log.old.messages.items log.new.messages.items result }
    ensures next { IfOk result (λ next. StaysChangeable session.room session.units next.units scene.entry.unit) }
{
    let mut session = session;
    let candidate = look_up(&session, scene.unit, task, name);
    match reason_before(&mut session, scene, task, name, candidate) {
        Ok(Some(reason)) => refuse(session, log, task, candidate.name, reason),
        Ok(None) => match task {
            Task::Release => give_back(alloc, session, scene, name, candidate, log),
            Task::Consolidate => join(alloc, session, scene, name, candidate, log),
        },
        Err(UnitFault::Pool) => Err(Cut::Halted(session.into())),
        Err(UnitFault::NoMemory) => Err(Cut::Short(session)),
    }
}

/// The turns of data sets, one after the other.
fn take_turns<P: Pool>(
    alloc: Global,
    session: Session<P>,
    scene: Scene<'_>,
    task: Task,
    names: &[Dsn],
    log: &mut Log,
) -> Result<Session<P>, Cut<P>>
    requires may { MayProcess session.room session.units scene.unit names.now }
    ensures { Ends P.Pool (Turns (facts_of P.Pool session) (TurnOf task scene.entry.held.now scene.entry.unit) names.now) (AreCutTurns (facts_of P.Pool session) (TurnOf task scene.entry.held.now scene.entry.unit) names.now) session
        log.old.steps.items log.new.steps.items log.old.messages.items log.new.messages.items result }
{
    let mut session = session;
    for name in names {
        session = take_turn(alloc, session, scene, task, name, log)?;
    }
    Ok(session)
}

/// Does what is to be done with each data set that the filter takes.
pub(crate) fn go_through<P: Pool>(
    alloc: Global,
    session: Session<P>,
    job: SetJob<'_>,
    log: &mut Log,
) -> Result<Session<P>, Cut<P>>
    requires { IsToday job.today }
    ensures { Ends P.Pool (OverSets (TurnOf job.entry.task job.entry.held.now) (setting_of P.Pool session job.entry.held.now job.entry.today) job.entry.filter.now job.entry.serial)
        (IsCutOverSets (TurnOf job.entry.task job.entry.held.now) (setting_of P.Pool session job.entry.held.now job.entry.today) job.entry.filter.now job.entry.serial) session
        log.old.steps.items log.new.steps.items log.old.messages.items log.new.messages.items result }
{
    let named = UnitUse {
        serial: job.serial,
        changes: true,
    };
    let unit = match unit_for(&session, named) {
        Ok(unit) => unit,
        Err(message) => return say(session, &mut log.messages, message),
    };
    let names = match taken(alloc, &session, unit, job.filter, job.today) {
        Ok(names) => names,
        Err(_) => return Err(Cut::Short(session)),
    };
    if names.is_empty() {
        return say(session, &mut log.messages, Message::NothingSelected);
    }
    let scene = Scene {
        unit,
        held: job.held,
    };
    take_turns(alloc, session, scene, job.task, &names, log)
}
