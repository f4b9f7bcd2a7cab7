//! A run of words.

ghost use Rattle.job_outputs.specs.Kept.{KeepsUsed};
ghost use Rattle.std.specs.Prelude.{◌≡◌, ◌≢◌, [], List, None, map};
ghost use Rattle.by_rules.specs.Day.{IsToday};
ghost use Rattle.dasd_pool.specs.Disk.{Image, Runs};
ghost use Rattle.dump_fmt.specs.Outs.{files_of};
ghost use Rattle.redo_core.specs.Faults.{HasNoSlide};
ghost use Rattle.redo_core.specs.Opening.{of_opening};
ghost use Rattle.redo_core.specs.Reading.{journal_of};
ghost use Rattle.volume_model.specs.Unit.{UnitModel};
ghost use Rattle.move_core.specs.Facts.{Facts, shown};
ghost use Rattle.move_core.specs.Runs.{IsRun as IsRunOf, StandsAfterSome, moves_of};
ghost use Rattle.move_core.specs.Stands.{IsSettled};
ghost use Rattle.run_lines.specs.Endings.{status_of};
ghost use Rattle.run_lines.specs.declared.ending.RunEnd.{RunEnd as EndOf};
ghost use Rattle.adr_top.specs.Asked.{AsksForJournal};
ghost use Rattle.adr_top.specs.Ends.{EndsRun, HasCode, given};
ghost use Rattle.job_script.specs.Ends.{after_of};
ghost use Rattle.adr_top.specs.Parts.{sink_seen, IsLawful, EndsAsked};
ghost use Rattle.adr_top.specs.Reading.{source_seen};

use crate::agreement::agrees;
use crate::format::make_journal;
use crate::jobs::{refuse, run_jobs};
use crate::lists::{Day, InDd, OutDd};
use ckd_image::Word;
use dasd_pool::{Pool, Sink, Source};
use dump_fmt::{Seen, SeenIn};
use job_script::Left;
use move_core::Step;
use run_lines::RunEnd;
use run_words::{Run, WordsFault, read_words};
use std::alloc::Global;

/// What a run leaves: the pool, the outputs and inputs that were handed in, the steps that were done, the step that was under
/// way, and the status.
#[derive(Drop)]
pub struct Ended<P> {
    pub pool: P,
    pub outs: Vec<OutDd>,
    pub ins: Vec<InDd>,
    pub steps: Vec<Step>,
    pub pending: Option<Step>,
    pub status: u8,
}

/// What a run leaves, with the inputs that were handed in.
fn hand_back<P>(left: Left<P>, ins: Vec<InDd>) -> Ended<P>
    ensures pool { result.pool ≡ left.pool }
    ensures outs { result.outs.items ≡ left.outs.items }
    ensures ins { result.ins.items ≡ ins.items }
    ensures steps { result.steps.items ≡ left.steps.items }
    ensures pending { result.pending ≡ left.pending }
    ensures status { result.status ≡ status_of left.end }
{
    Ended {
        pool: left.pool,
        outs: left.outs,
        ins,
        steps: left.steps,
        pending: left.pending,
        status: left.end.status(),
    }
}

/// Does what words ask for with which everything agrees that is handed in.
fn run<S: Source, H: Source, O: Sink, P: Pool>(
    alloc: Global,
    asked: &Run,
    sysin: &mut S,
    held: &mut H,
    out: &mut O,
    pool: P,
    outs: Vec<OutDd>,
    ins: &mut Vec<InDd>,
    today: Day,
) -> Left<P>
    requires today { IsToday today }
    requires names { IsLawful (P.shape pool) asked.now }
    ensures ends { EndsAsked P.Pool
        (record { before = files_of ⟦<OutDd as Seen>⟧.seen ⟦<InDd as SeenIn>⟧.seen outs.items ins.old.items; after = files_of ⟦<OutDd as Seen>⟧.seen ⟦<InDd as SeenIn>⟧.seen result.outs.items ins.new.items })
        asked.now (source_seen H.Source held.old held.new) (source_seen S.Source sysin.old sysin.new) (sink_seen O.Sink out.old out.new)
        pool today (after_of result) }
    ensures outs { KeepsUsed ⟦<OutDd as Seen>⟧.seen outs.items result.outs.items }
    ensures ins { ins.new.items ≡ ins.old.items }
{
    match asked {
        Run::Jobs {
            units,
            held: path,
            ..
        } => run_jobs(alloc, units, path, sysin, held, out, pool, outs, ins, today),
        Run::Format { units, room, .. } => make_journal(alloc, units, *room, out, pool, outs),
        Run::Make { .. } => refuse(alloc, out, pool, outs, RunEnd::NotBuilt),
    }
}

/// Does what words ask for, where everything agrees with them that is handed in.
fn run_words<S: Source, H: Source, O: Sink, P: Pool>(
    alloc: Global,
    words: &[Word],
    sysin: &mut S,
    held: &mut H,
    out: &mut O,
    pool: P,
    outs: Vec<OutDd>,
    ins: &mut Vec<InDd>,
    today: Day,
) -> Left<P>
    requires { IsToday today }
    ensures ends { EndsRun P.Pool (given words.now (P.shape pool).units (map (λ out. out.name) outs.items) (map (λ one. one.name) ins.old.items)
        (record { before = files_of ⟦<OutDd as Seen>⟧.seen ⟦<InDd as SeenIn>⟧.seen outs.items ins.old.items; after = files_of ⟦<OutDd as Seen>⟧.seen ⟦<InDd as SeenIn>⟧.seen result.outs.items ins.new.items })
        today (source_seen S.Source sysin.old sysin.new) (source_seen H.Source held.old held.new) (sink_seen O.Sink out.old out.new)) pool (after_of result) }
    ensures outs { KeepsUsed ⟦<OutDd as Seen>⟧.seen outs.items result.outs.items }
    ensures ins { ins.new.items ≡ ins.old.items }
{
    match read_words(alloc, words) {
        Ok(asked) => {
            if agrees(&asked, pool.units(), &outs, ins) {
                run(alloc, &asked, sysin, held, out, pool, outs, ins, today)
            } else {
                refuse(alloc, out, pool, outs, RunEnd::Words)
            }
        }
        Err(WordsFault::Words) => refuse(alloc, out, pool, outs, RunEnd::Words),
        Err(WordsFault::NoMemory) => refuse(alloc, out, pool, outs, RunEnd::Memory),
    }
}

/// Runs the words of `adrdssu`: reads the texts that they name from `held` and `sysin`, runs the statements over the pool, whose last unit is the journal,
/// and writes the lines to `out`.
///
/// The work is done in this order, and the first cause that stands against it ends the run: the words, with which the pool and the lists must agree (36);
/// the held text and then SYSIN are read (24, 40); their grammars (44); the journal is opened (20, 16); each statement runs (16, 32), and then its lines
/// are written (28). Built are PRINT, RELEASE, CONSOLIDATE, COPY and DUMP of data sets, and the making of a journal; where another command or a sample volume is asked for, nothing is done
/// (48).
pub fn batch<S: Source, H: Source, O: Sink, P: Pool>(
    alloc: Global,
    words: &[Word],
    sysin: &mut S,
    held: &mut H,
    out: &mut O,
    pool: P,
    outs: Vec<OutDd>,
    ins: Vec<InDd>,
    today: Day,
) -> Ended<P>
    requires { IsToday today }

    // The status is that of an end, and each end has its cause, its steps and its lines.
    ensures ended { (end : EndOf) × (result.status ≡ status_of end) × HasCode end
        × EndsRun P.Pool (given words.now (P.shape pool).units (map (λ out. out.name) outs.items) (map (λ one. one.name) ins.items)
        (record { before = files_of ⟦<OutDd as Seen>⟧.seen ⟦<InDd as SeenIn>⟧.seen outs.items ins.items; after = files_of ⟦<OutDd as Seen>⟧.seen ⟦<InDd as SeenIn>⟧.seen result.outs.items result.ins.items }) today
        (source_seen S.Source sysin.old sysin.new) (source_seen H.Source held.old held.new) (sink_seen O.Sink out.old out.new)) pool
        (record { pool = result.pool; steps = result.steps.items; pending = result.pending; end = end }) }

    // Over a settled pool: whatever moment a stop comes at, the units stand as they were after some of the moves, and no slide is open where none was.
    // Where the run doesn't end with 16 the units stand as all steps leave them, none is under way, and the pool is settled.
    ensures headline { ¬ AsksForJournal words.now
        → IsRunOf P.tells (shown P.Pool pool) (shown P.Pool result.pool) (result.status ≢ 16) result.steps.items result.pending }
    ensures stops { P.tells → ¬ AsksForJournal words.now → (facts : Facts) → facts.shape ≡ P.shape pool → (units : List UnitModel)
        → IsSettled facts (P.disk pool).state units → (image : Image) → (P.disk result.pool).left_since (P.disk pool).moment image
        → StandsAfterSome facts units (moves_of result.steps.items result.pending) image
        × (HasNoSlide facts.shape (P.disk pool).state.contents → HasNoSlide facts.shape image) }
    ensures shape { P.shape result.pool ≡ P.shape pool }

    // Where the words ask for no journal to be made, no step was done and none is under way, at most the opening of the journal was written, at any moment.
    ensures still { P.tells → ¬ AsksForJournal words.now → result.steps.items ≡ [] → result.pending ≡ None
        → Runs (of_opening (journal_of (P.shape pool)) (P.disk pool).state.contents) (P.disk pool) (P.disk result.pool) }

    ensures outs { KeepsUsed ⟦<OutDd as Seen>⟧.seen outs.items result.outs.items }
    ensures ins { result.ins.items ≡ ins.items }
{
    let mut ins = ins;
    let left = run_words(alloc, words, sysin, held, out, pool, outs, &mut ins, today);
    hand_back(left, ins)
}
