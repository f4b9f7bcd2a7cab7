//! Runs over volumes and their journal in memory. No clause speaks of them: a test looks at what comes out.

ghost use Rattle.std.specs.Prelude.{◌<◌};

use adr_top::{Day, OutDd, Step, batch};
use ckd_image::{Bytes, Word};
use dasd_pool::{MemoryPool, MemorySink, MemorySource, Pool, Tear, UnitText};
use rows_bytes::{Given, RowsFault, volume};
use std::alloc::Global;

/// Volumes and what stands where their journal is.
#[derive(Debug, Drop)]
pub struct Machine {
    pool: MemoryPool,
}

/// What a run calls outside: the pool, the reads of its two texts, and the writes of its lines.
#[derive(Clone, Copy, Debug, PartialEq, Eq)]
pub enum Outside {
    Pool,
    Sysin,
    Held,
    Lines,
}

/// A call that fails, by its number from 0.
pub type Failing = (Outside, u64);

/// The words of a text over VOL001.
pub const LISTING_WORDS: [&str; 6] = ["--unit", "VOL001=a", "--journal", "b", "--sysin", "c"];

/// The room of the sink that takes the lines of a run.
const ROOM_FOR_LINES: u32 = 8000;

/// What a run leaves.
#[derive(Drop)]
pub struct Ran {
    pub status: u8,
    pub lines: String,
    pub steps: Vec<Step>,
    pub pending: Option<Step>,
    pub outs: Vec<OutDd>,
    pub machine: Machine,
}

/// Copies of words.
pub fn words_of(alloc: Global, words: &[&str]) -> Result<Vec<Word>, RowsFault> {
    let mut list = Vec::new(alloc);
    for word in words {
        list.push(Word::copy_of(alloc, word)?)?;
    }
    Ok(list)
}

/// The numbers of the calls that fail of one kind.
fn numbers_of(alloc: Global, failing: &[Failing], outside: Outside) -> Result<Vec<u64>, RowsFault> {
    let mut numbers = Vec::new(alloc);
    for (found, number) in failing {
        if *found == outside {
            numbers.push(*number)?;
        }
    }
    Ok(numbers)
}

/// The text that a sink took.
fn lines_of(alloc: Global, out: &MemorySink) -> Result<String, RowsFault> {
    match String::from_utf8(out.text().to_vec(alloc)?) {
        Ok(lines) => Ok(lines),
        Err(_) => Err(RowsFault::NotText),
    }
}

impl Machine {
    /// Volumes and their journal, all synced. It keeps its first calls, so many, and fails at those of these calls that are of the pool.
    pub fn new(
        alloc: Global,
        volumes: &[Given],
        journal: UnitText,
        failing: &[Failing],
        keep: u32,
    ) -> Result<Machine, RowsFault> {
        let mut units = Vec::new(alloc);
        for given in volumes {
            units.push(volume(alloc, *given)?)?;
        }
        units.push(journal)?;
        let calls = numbers_of(alloc, failing, Outside::Pool)?;
        let pool = MemoryPool::new(alloc, units, calls, keep)?;
        Ok(Machine { pool })
    }

    /// Runs words and a text, without holds and outputs. Of its texts and lines these calls fail.
    pub fn run(
        self,
        alloc: Global,
        words: &[&str],
        text: &[u8],
        failing: &[Failing],
    ) -> Result<Ran, RowsFault> {
        self.run_on(alloc, words, text, failing, Vec::new(alloc))
    }

    /// Runs them with outputs.
    pub fn run_on(
        self,
        alloc: Global,
        words: &[&str],
        text: &[u8],
        failing: &[Failing],
        outs: Vec<OutDd>,
    ) -> Result<Ran, RowsFault> {
        let words = words_of(alloc, words)?;
        let reads = numbers_of(alloc, failing, Outside::Sysin)?;
        let held_reads = numbers_of(alloc, failing, Outside::Held)?;
        let writes = numbers_of(alloc, failing, Outside::Lines)?;
        let mut sysin = MemorySource::new(Bytes::from_slice(alloc, text)?, reads);
        let mut held = MemorySource::new(Bytes::new(alloc), held_reads);
        let mut out = MemorySink::new(alloc, ROOM_FOR_LINES, writes)?;
        let ins = Vec::new(alloc);
        let today = Day { year: 2024, day: 1 };
        let ended = batch(
            alloc, &words, &mut sysin, &mut held, &mut out, self.pool, outs, ins, today,
        );
        Ok(Ran {
            status: ended.status,
            lines: lines_of(alloc, &out)?,
            steps: ended.steps,
            pending: ended.pending,
            outs: ended.outs,
            machine: Machine { pool: ended.pool },
        })
    }

    /// What a stop after so many of the kept calls leaves.
    pub fn stopped(&self, alloc: Global, calls: u64, tear: Tear) -> Result<Machine, RowsFault> {
        let pool = self.pool.crash(alloc, calls, tear)?;
        Ok(Machine { pool })
    }

    /// How many calls the pool had.
    pub fn calls(&self) -> u64 {
        self.pool.calls()
    }

    /// The bytes of each block of a unit, at least one.
    fn block_size(&self, unit: u32) -> usize
        ensures { 0 < result }
    {
        if unit >= self.pool.units() {
            return 1;
        }
        (self.pool.block_size(unit) as usize).max(1)
    }

    /// The bytes of a block, or none where there is no such block.
    fn block(&mut self, alloc: Global, unit: u32, block: u32) -> Result<Vec<u8>, RowsFault> {
        let mut bytes = Vec::new(alloc);
        if unit >= self.pool.units() || block >= self.pool.blocks(unit) {
            return Ok(bytes);
        }
        bytes.resize(self.pool.block_size(unit) as usize, 0)?;
        self.pool.read(unit, block, &mut bytes)?;
        Ok(bytes)
    }

    /// Whether all blocks of a unit are as they were given.
    pub fn holds(&mut self, alloc: Global, unit: u32, given: &UnitText) -> Result<bool, RowsFault> {
        let mut number = 0u32;
        for bytes in given.blocks.as_slice().chunks(self.block_size(unit)) {
            if self.block(alloc, unit, number)?.as_slice() != bytes {
                return Ok(false);
            }
            number = number.saturating_add(1);
        }
        Ok(true)
    }
}
