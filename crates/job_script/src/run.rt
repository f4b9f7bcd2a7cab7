//! A run of a script.

ghost use Rattle.std.specs.Prelude.{◌≡◌, ◌++◌, ◌≤◌, None, Some, map};
ghost use Rattle.by_rules.specs.Day.{IsToday};
ghost use Rattle.sysin_lang.specs.Script.{plan_of_script};
ghost use Rattle.job_ops.specs.Meaning.{IsBuilt};
ghost use Rattle.run_lines.specs.Endings.{last_line};
ghost use Rattle.run_lines.specs.Texts.{Tells};
ghost use Rattle.job_script.specs.Built.{AreBuilt};
ghost use Rattle.job_script.specs.Ends.{EndsScript, after_of};
ghost use Rattle.dump_fmt.specs.Outs.{files_of};
ghost use Rattle.job_outputs.specs.Kept.{KeepsUsed};
ghost use Rattle.job_script.specs.One.{EndsOne, EndsReport, KeepsOuts};

use crate::left::Left;
use crate::lines::{LinesFault, write_messages};
use by_rules::Day;
use dasd_pool::{Pool, Sink};
use dump_fmt::{InDd, OutDd, Seen, SeenIn};
use enq_table::Held;
use job_lines::{Message, line_of};
use job_ops::unit_session::{Broken, Session};
use job_ops::{Outcome, Report, run_statement, verb_of};
use move_core::Step;
use run_lines::{RunEnd, close, tell_behind, write_all};
use std::alloc::Global;
use sysin_lang::{Flow, Script, Statement};

/// A run between two statements: the session, the outputs, the steps so far, and the code of the last statement.
#[derive(Drop)]
struct Between<P: Pool> {
    session: Session<P>,
    outs: Vec<OutDd>,
    steps: Vec<Step>,
    code: u8,
}

/// What a run leaves whose session goes on: nothing is under way.
fn stopped<P: Pool>(session: Session<P>, outs: Vec<OutDd>, steps: Vec<Step>, end: RunEnd) -> Left<P>
    ensures pool { result.pool ≡ session.pool }
    ensures outs { result.outs.items ≡ outs.items }
    ensures steps { result.steps.items ≡ steps.items }
    ensures pending { result.pending ≡ None }
    ensures end { result.end ≡ end }
{
    Left {
        pool: session.into_pool(),
        outs,
        steps,
        pending: None,
        end,
    }
}

/// Writes what a statement said that ended.
fn report<O: Sink, P: Pool>(
    alloc: Global,
    out: &mut O,
    statement: &Statement,
    said: &Report,
    session: Session<P>,
    outs: Vec<OutDd>,
    steps: Vec<Step>,
) -> Result<Between<P>, Left<P>>
    ensures { EndsReport (O.taken out.old) (O.taken out.new) (O.faults out.old) (O.faults out.new) statement.now said.now session outs.items steps.items result }
{
    match write_messages(alloc, out, statement.number, said.messages.as_slice()) {
        Ok(()) => Ok(Between {
            session,
            outs,
            steps,
            code: said.code,
        }),
        Err(LinesFault::Sink) => Err(stopped(session, outs, steps, RunEnd::Sink)),
        Err(LinesFault::NoMemory) => Err(stopped(session, outs, steps, RunEnd::Memory)),
    }
}

/// Tries to write that a statement started whose pool failed, and the run's last line.
fn halted<O: Sink, P: Pool>(
    out: &mut O,
    started: &str,
    broken: Broken<P>,
    outs: Vec<OutDd>,
    steps: Vec<Step>,
) -> Left<P>
    ensures pool { result.pool ≡ broken.pool }
    ensures outs { result.outs.items ≡ outs.items }
    ensures pending { result.pending ≡ broken.pending }
    ensures steps { result.steps.items ≡ steps.items }
    ensures end { result.end ≡ RunEnd.Pool }
    ensures told { Tells (O.taken out.old) (O.taken out.new) (O.faults out.old) (O.faults out.new) (started.now ++ last_line RunEnd.Pool) }
    ensures later { O.faults out.old ≤ O.faults out.new }
{
    tell_behind(out, started.as_bytes(), RunEnd::Pool);
    let (pool, pending) = broken.into_parts();
    Left {
        pool,
        outs,
        steps,
        pending,
        end: RunEnd::Pool,
    }
}

/// Runs a statement, and writes its lines once it has ended.
fn run_one<O: Sink, P: Pool>(
    alloc: Global,
    before: Between<P>,
    statement: &Statement,
    held: &Held,
    ins: &mut Vec<InDd>,
    today: Day,
    out: &mut O,
) -> Result<Between<P>, Left<P>>
    requires built { IsBuilt statement.now.command }
    requires today { IsToday today }
    ensures ends { EndsOne P.Pool ⟦<OutDd as Seen>⟧.seen (map ⟦<InDd as SeenIn>⟧.seen ins.old.items) (map ⟦<InDd as SeenIn>⟧.seen ins.new.items) before statement.now held.now today
        (O.taken out.old) (O.taken out.new) (O.faults out.old) (O.faults out.new) result }
    ensures outs { KeepsOuts ⟦<OutDd as Seen>⟧.seen before.outs.items result }
    ensures ins { ins.new.items ≡ ins.old.items }
{
    let Between {
        session,
        outs,
        steps,
        ..
    } = before;
    let verb = verb_of(&statement.command);
    // That line is made beforehand, since a pool that failed has to be told of without memory.
    let started = match line_of(alloc, statement.number, &Message::Started(verb)) {
        Ok(started) => started,
        Err(_) => return Err(stopped(session, outs, steps, RunEnd::Memory)),
    };
    match run_statement(alloc, session, statement, held, outs, ins, today, steps) {
        Outcome::Done {
            session,
            outs,
            report: said,
            steps,
        } => report(alloc, out, statement, &said, session, outs, steps),
        Outcome::Halted {
            broken,
            outs,
            steps,
            ..
        } => Err(halted(out, started.as_str(), broken, outs, steps)),
        Outcome::Short {
            session,
            outs,
            steps,
            ..
        } => {
            let _ = write_all(out, started.as_str().as_bytes());
            Err(stopped(session, outs, steps, RunEnd::Memory))
        }
    }
}

/// Runs the statements of a script, each where the codes of those before it say so, with the outputs and inputs of the run. The lines of a statement are written once it
/// has ended.
pub fn run_script<O: Sink, P: Pool>(
    alloc: Global,
    session: Session<P>,
    script: &Script,
    held: &Held,
    outs: Vec<OutDd>,
    ins: &mut Vec<InDd>,
    today: Day,
    out: &mut O,
) -> Left<P>
    requires built { AreBuilt (plan_of_script script.now) }
    requires today { IsToday today }
    ensures ends { EndsScript P.Pool session (plan_of_script script.now) held.now today
        (record { before = files_of ⟦<OutDd as Seen>⟧.seen ⟦<InDd as SeenIn>⟧.seen outs.items ins.old.items; after = files_of ⟦<OutDd as Seen>⟧.seen ⟦<InDd as SeenIn>⟧.seen result.outs.items ins.new.items })
        (record { before = O.taken out.old; after = O.taken out.new; faults_before = O.faults out.old; faults_after = O.faults out.new }) (after_of result) }

    // An output that was used before, or is unused still, is the very same. The commands that are built read no input.
    ensures outs { KeepsUsed ⟦<OutDd as Seen>⟧.seen outs.items result.outs.items }
    ensures ins { ins.new.items ≡ ins.old.items }
{
    let mut flow = Flow::new();
    let mut between = Between {
        session,
        outs,
        steps: Vec::new(alloc),
        code: 0,
    };
    'statements: while let Some(statement) = script.next(&mut flow) {
        between = match run_one(alloc, between, statement, held, ins, today, out) {
            Ok(between) => between,
            Err(left) => return left,
        };
        script.after(&mut flow, between.code);
    }
    let Between {
        session,
        outs,
        steps,
        ..
    } = between;
    let end = close(out, RunEnd::Whole(flow.maxcc()));
    stopped(session, outs, steps, end)
}
