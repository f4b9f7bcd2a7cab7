//! A statement over a session.

ghost use Rattle.std.specs.Prelude.{◌≡◌, ◌↔◌, ◌⊎◌, ◌∷◌, [], map, take, IsTrue, IfOk, IfErr};
ghost use Rattle.by_rules.specs.Day.{IsToday};
ghost use Rattle.job_lines.specs.Severity.{greatest_code as greatest_code_of};
ghost use Rattle.dump_sets.specs.job_turns.job_steps.Carried.{IsShort};
ghost use Rattle.dump_fmt.specs.Outs.{files_of};
ghost use Rattle.dump_sets.specs.job_turns.Ends.{Ends};
ghost use Rattle.job_ops.specs.Ends.{EndsStatement, HasOuts, IsCutOutcome, IsDoneOutcome, LeavesSession, LeavesUsed, IsUnchanged, OnlyReads};
ghost use Rattle.job_ops.specs.Meaning.{CallsNoFile, IsBuilt, IsCutWithOutputs, IsFramed, MeansWhole, MeansWithOutputs, ReadsNoInput, verb_of as verb_in};
ghost use Rattle.dump_sets.specs.job_outputs.Kept.{KeepsUsed};
ghost use Rattle.dump_sets.specs.job_turns.Setting.{setting_of};

use crate::copies::{CopyJob, copy};
use crate::listing::print;
use crate::outcome::Outcome;
use crate::report::Report;
use crate::sets::{SetJob, go_through};
use crate::task::Task;
use by_rules::Day;
use ckd_image::Listed;
use dasd_pool::Pool;
use dump_fmt::{InDd, OutDd, Seen, SeenIn};
use dump_sets::job_turns::job_copies::{Wish, is_rename};
use dump_sets::job_turns::job_steps::Cut;
use dump_sets::job_turns::job_steps::unit_session::Session;
use dump_sets::job_turns::{Log, say};
use dump_sets::{DumpJob, DumpWish, dump};
use enq_table::Held;
use job_lines::Message;
use move_core::Step;
use std::alloc::Global;
use sysin_lang::{Command, Statement};
use sysin_words::Verb;

/// The verb of a command.
pub fn verb_of(command: &Command) -> Verb
    ensures { result ≡ verb_in command.now }
{
    match command {
        Command::PrintVtoc { .. } => Verb::Print,
        Command::Release { .. } => Verb::Release,
        Command::Consolidate { .. } => Verb::Consolidate,
        Command::Defrag { .. } => Verb::Defrag,
        Command::Copy { .. } => Verb::Copy,
        Command::DumpDataset { .. } | Command::DumpFull { .. } => Verb::Dump,
        Command::RestoreDataset { .. } | Command::RestoreFull { .. } => Verb::Restore,
    }
}

/// Whether a command is built.
pub fn is_built(command: &Command) -> bool
    ensures { IsTrue result ↔ IsBuilt command.now }
{
    match command {
        Command::PrintVtoc { .. } | Command::Release { .. } | Command::Consolidate { .. } => true,
        Command::Copy { rename, .. } => is_rename(rename),
        Command::DumpDataset { outs, .. } => outs.len() > 0,
        _ => false,
    }
}

/// The condition code of a statement that said these.
fn greatest_code(messages: &[Message]) -> u8
    ensures { result ≡ greatest_code_of messages.now }
{
    let mut code = 0;
    for message in messages {
        code = message.severity().code().max(code);
    }
    code
}

/// Does what a command asks for.
fn perform<P: Pool>(
    alloc: Global,
    session: Session<P>,
    command: &Command,
    held: &Held,
    today: Day,
    outs: &mut Vec<OutDd>,
    log: &mut Log,
) -> Result<Session<P>, Cut<P>>
    requires built { IsBuilt command.now }
    requires today { IsToday today }
    ensures ends { Ends P.Pool (MeansWithOutputs (setting_of P.Pool session held.now today) command.now (map ⟦<OutDd as Seen>⟧.seen outs.old.items) (map ⟦<OutDd as Seen>⟧.seen outs.new.items))
        (IsCutWithOutputs (setting_of P.Pool session held.now today) command.now (map ⟦<OutDd as Seen>⟧.seen outs.old.items) (map ⟦<OutDd as Seen>⟧.seen outs.new.items)) session
        log.old.steps.items log.new.steps.items log.old.messages.items log.new.messages.items result }
    ensures outs { KeepsUsed ⟦<OutDd as Seen>⟧.seen outs.old.items outs.new.items }
    ensures same { CallsNoFile command.now → outs.new.items ≡ outs.old.items }
    ensures reads { OnlyReads command.now → LeavesSession session result }
{
    match command {
        Command::PrintVtoc { unit } => match print(&session, *unit, &mut log.messages) {
            Ok(()) => Ok(session),
            Err(_) => Err(Cut::Short(session)),
        },
        Command::Release { filter, unit } => {
            go_through(
                alloc,
                session,
                SetJob {
                    task: Task::Release,
                    filter,
                    serial: *unit,
                    held,
                    today,
                },
                log,
            )
        }
        Command::Consolidate { filter, unit } => {
            go_through(
                alloc,
                session,
                SetJob {
                    task: Task::Consolidate,
                    filter,
                    serial: *unit,
                    held,
                    today,
                },
                log,
            )
        }
        Command::Copy {
            filter,
            unit,
            to,
            delete,
            purge,
            replace,
            rename,
            tolerate,
        } => {
            copy(
                alloc,
                session,
                CopyJob {
                    filter,
                    serial: *unit,
                    to: *to,
                    wish: Wish {
                        delete: *delete,
                        purge: *purge,
                        replace: *replace,
                        tolerate: *tolerate,
                    },
                    rename,
                    held,
                    today,
                },
                log,
            )
        }
        Command::DumpDataset {
            filter,
            unit,
            outs: names,
            reset,
            delete,
            purge,
            tolerate,
        } => {
            dump(
                alloc,
                session,
                DumpJob {
                    filter,
                    serial: *unit,
                    outs: names.as_slice(),
                    wish: DumpWish {
                        reset: *reset,
                        delete: *delete,
                        purge: *purge,
                        tolerate: *tolerate,
                    },
                    held,
                    today,
                },
                outs,
                log,
            )
        }
        _ => unreachable!(),
    }
}

/// What a statement says that was cut: that it started, if it says anything.
fn cut_report(messages: Vec<Message>) -> Report
    ensures messages { result.messages ≡ take 1 messages.items }
    ensures code { result.code ≡ 0 }
{
    let mut messages = messages;
    messages.truncate(1);
    Report {
        messages: Listed::from_vec(messages),
        code: 0,
    }
}

/// How a statement ended that was cut.
fn cut_short<P: Pool>(cut: Cut<P>, outs: Vec<OutDd>, log: Log) -> Outcome<P>
    ensures { IsCutOutcome cut outs.items log.steps.items log.messages.items result }
{
    let Log { steps, messages } = log;
    let report = cut_report(messages);
    match cut {
        Cut::Halted(broken) => Outcome::Halted {
            broken,
            outs,
            report,
            steps,
        },
        Cut::Short(session) => Outcome::Short {
            session,
            outs,
            report,
            steps,
        },
    }
}

/// Says that a statement started, does it, and says that it ended, with its code.
fn whole<P: Pool>(
    alloc: Global,
    session: Session<P>,
    command: &Command,
    held: &Held,
    today: Day,
    outs: &mut Vec<OutDd>,
    log: &mut Log,
) -> Result<Session<P>, Cut<P>>
    requires built { IsBuilt command.now }
    requires today { IsToday today }
    requires start { log.old.messages.items ≡ [] }
    ensures ends { Ends P.Pool (MeansWhole (MeansWithOutputs (setting_of P.Pool session held.now today) command.now (map ⟦<OutDd as Seen>⟧.seen outs.old.items) (map ⟦<OutDd as Seen>⟧.seen outs.new.items)) command.now)
        (IsCutWithOutputs (setting_of P.Pool session held.now today) command.now (map ⟦<OutDd as Seen>⟧.seen outs.old.items) (map ⟦<OutDd as Seen>⟧.seen outs.new.items)) session
        log.old.steps.items log.new.steps.items [] log.new.messages.items result }
    ensures begins { IfErr result (λ cut. ((log.new.messages.items ≡ []) × IsShort cut × (log.new.steps.items ≡ log.old.steps.items)) ⊎ (take 1 log.new.messages.items ≡ Message.Started (verb_in command.now) ∷ [])) }
    ensures reads { OnlyReads command.now → LeavesSession session result }
    ensures outs { KeepsUsed ⟦<OutDd as Seen>⟧.seen outs.old.items outs.new.items }
    ensures same { CallsNoFile command.now → outs.new.items ≡ outs.old.items }
    ensures framed { IfOk result (λ next. IsFramed command.now log.new.messages.items) }
{
    let verb = verb_of(command);
    let session = say(session, &mut log.messages, Message::Started(verb))?;
    let session = perform(alloc, session, command, held, today, outs, log)?;
    let code = greatest_code(&log.messages);
    say(session, &mut log.messages, Message::Ended(verb, code))
}

/// How a statement ended that was done.
fn done<P: Pool>(session: Session<P>, outs: Vec<OutDd>, log: Log) -> Outcome<P>
    ensures { IsDoneOutcome session outs.items log.steps.items log.messages.items result }
{
    let Log { steps, messages } = log;
    let code = greatest_code(&messages);
    Outcome::Done {
        session,
        outs,
        report: Report {
            messages: Listed::from_vec(messages),
            code,
        },
        steps,
    }
}

/// Runs a statement over the volumes of a session, with the outputs and inputs of the run. `steps` are those of the run so far.
pub fn run_statement<P: Pool>(
    alloc: Global,
    session: Session<P>,
    statement: &Statement,
    held: &Held,
    outs: Vec<OutDd>,
    ins: &mut Vec<InDd>,
    today: Day,
    steps: Vec<Step>,
) -> Outcome<P>
    requires built { IsBuilt statement.now.command }
    requires today { IsToday today }
    ensures ends { EndsStatement P.Pool ⟦<OutDd as Seen>⟧.seen (files_of ⟦<OutDd as Seen>⟧.seen ⟦<InDd as SeenIn>⟧.seen outs.items ins.old.items)
        (map ⟦<InDd as SeenIn>⟧.seen ins.new.items) session statement.now.command held.now today steps.items result }

    // Outputs and inputs of which a command has no need are the very same behind it.
    ensures outs { CallsNoFile statement.now.command → HasOuts outs.items result }
    ensures ins { ReadsNoInput statement.now.command → ins.new.items ≡ ins.old.items }

    // An output that was used before, or is unused still, is the very same.
    ensures used { LeavesUsed ⟦<OutDd as Seen>⟧.seen outs.items result }

    // A command that changes nothing leaves the session as it was.
    ensures reads { OnlyReads statement.now.command → IsUnchanged session result }
{
    let mut log = Log {
        steps,
        messages: Vec::new(alloc),
    };
    let mut outs = outs;
    match whole(
        alloc,
        session,
        &statement.command,
        held,
        today,
        &mut outs,
        &mut log,
    ) {
        Ok(session) => done(session, outs, log),
        Err(cut) => cut_short(cut, outs, log),
    }
}
