//! A run over a pool in memory, and a stop of it.

ghost use Rattle.std.specs.Prelude.{◌≢◌, IfOk};
ghost use Rattle.by_rules.specs.Day.{IsToday};
ghost use Rattle.adr_top.specs.Asked.{AsksForJournal};
ghost use Rattle.move_core.specs.Runs.{IsRun};
ghost use Rattle.rows_headline.specs.Again.{shown_of, BeginsOnStop, EachStopIsReady, EachRunsOn, IsLeftBy};
ghost use Rattle.rows_headline.specs.Stopped.{EachStopStands};

use adr_top::{Day, Step, batch};
use ckd_image::{NoMemory, Word};
use dasd_pool::{MemoryPool, Sink, Source, Tear};
use std::alloc::Global;

/// What a run leaves: the pool, the steps that were done, the step that was under way, and the status.
#[derive(Drop)]
pub struct Ran {
    pub pool: MemoryPool,
    pub steps: Vec<Step>,
    pub pending: Option<Step>,
    pub status: u8,
}

/// What a run leaves, and what a stop of it leaves.
#[derive(Drop)]
pub struct Stopped {
    pub ran: Ran,
    pub left: MemoryPool,
}

/// What two runs leave, the second on what a stop left of the first.
#[derive(Drop)]
pub struct Resumed {
    pub first: Ran,
    pub second: Ran,
}

/// Runs words and text over a pool, without outputs and inputs.
pub fn run<S: Source, H: Source, O: Sink>(
    alloc: Global,
    words: &[Word],
    sysin: &mut S,
    held: &mut H,
    out: &mut O,
    pool: MemoryPool,
    today: Day,
) -> Ran
    requires { IsToday today }

    // The promise of a run, in full, where no journal is made: for any units for which the pool was settled, at whatever moment a stop
    // comes, and where it ended.
    ensures headline { ¬ AsksForJournal words.now
        → IsRun (Unit {0}) (shown_of pool) (shown_of result.pool) (result.status ≢ 16) result.steps.items result.pending }
{
    let (outs, ins) = (Vec::new(alloc), Vec::new(alloc));
    let ended = batch(alloc, words, sysin, held, out, pool, outs, ins, today);
    Ran {
        pool: ended.pool,
        steps: ended.steps,
        pending: ended.pending,
        status: ended.status,
    }
}

/// Runs words and text over a pool that keeps its calls, and stops it after so many of them, each block that isn't synced torn.
pub fn run_and_stop<S: Source, H: Source, O: Sink>(
    alloc: Global,
    words: &[Word],
    sysin: &mut S,
    held: &mut H,
    out: &mut O,
    pool: MemoryPool,
    today: Day,
    calls: u64,
    tear: Tear,
) -> Result<Stopped, NoMemory>
    requires { IsToday today }

    // What is left holds the image that the stop leaves, and has had no call.
    ensures left { IfOk result (λ stopped. IsLeftBy tear calls stopped.ran.pool stopped.left) }

    // Where the pool was settled and no journal is made, that image stands for the units after a prefix of the run's steps and the one
    // under way, and after all steps where the run had returned.
    ensures stands { IfOk result (λ stopped. ¬ AsksForJournal words.now
        → EachStopStands pool stopped.ran.steps.items stopped.ran.pending stopped.ran.pool calls tear) }

    // So it has what this asks for in its turn: it is settled for those units.
    ensures ready { IfOk result (λ stopped. ¬ AsksForJournal words.now
        → EachStopIsReady pool stopped.ran.steps.items stopped.ran.pending stopped.ran.pool calls stopped.left) }
{
    let ran = run(alloc, words, sysin, held, out, pool, today);
    let left = ran.pool.crash(alloc, calls, tear)?;
    Ok(Stopped { ran, left })
}

/// Runs words and text, stops the run after so many calls of its pool, and runs the words again, with another text, on what is left.
pub fn run_again<S: Source, H: Source, O: Sink>(
    alloc: Global,
    words: &[Word],
    first: &mut S,
    second: &mut S,
    held: &mut H,
    out: &mut O,
    pool: MemoryPool,
    today: Day,
    calls: u64,
    tear: Tear,
) -> Result<Resumed, NoMemory>
    requires { IsToday today }

    // The second begins on what the stop of the first left.
    ensures begins { IfOk result (λ resumed. BeginsOnStop (¬ AsksForJournal words.now) tear calls resumed.first resumed.second) }

    // Each premise of the second run is met by the first: there are units to which a prefix of the first run's steps leads, all of them where
    // it had returned, and from them the second goes on, whatever moment it is stopped at.
    ensures on { IfOk result (λ resumed. ¬ AsksForJournal words.now → EachRunsOn pool resumed.first calls resumed.second) }
{
    let stopped = run_and_stop(alloc, words, first, held, out, pool, today, calls, tear)?;
    let second = run(alloc, words, second, held, out, stopped.left, today);
    Ok(Resumed {
        first: stopped.ran,
        second,
    })
}
