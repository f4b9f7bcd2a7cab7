//! Asking a desk, and what of its answers is counted.

use crate::answer::{STATUSES, status_of};
use crate::dice::Dice;
use crate::lawful::numbered;
use crate::torn::torn;
use ckd_image::{Bytes, NoMemory};
use dasd_pool::MemoryLink;
use rows_standing::{End, Standing};
use std::alloc::Global;
use thiserror::Error;

/// How many requests a desk is asked before a fresh one takes its place.
const LIFE: u32 = 5000;

/// The most bytes of an answer.
const ROOM: u32 = 4_000_000;

/// What is asked after each request: that the desk goes on.
const NEXT: &[u8] = b"GET /volumes/VOL001 HTTP/1.1\r\n\r\n";

/// What isn't as it must be.
#[derive(Debug, Drop, Error)]
pub enum Wrong {
    #[error("request {0} is answered by {1:?}")]
    Answer(u32, Vec<u8>),
    #[error("after request {0} the desk doesn't go on")]
    Stopped(u32),
    #[error("out of memory")]
    NoMemory,
}

impl From<NoMemory> for Wrong {
    ghost from_gives = { λ _ _. Unit {0} };

    fn from(_: NoMemory) -> Wrong {
        Wrong::NoMemory
    }
}

/// How often each status was answered.
#[derive(Debug, Drop)]
pub struct Counts {
    counts: [u32; 13],
}

impl Counts {
    fn new() -> Counts {
        Counts { counts: [0; 13] }
    }

    fn add(&mut self, status: u16) {
        if let Some(place) = STATUSES.iter().position(|&known| known == status) {
            self.counts[place] = self.counts[place].saturating_add(1);
        }
    }

    /// In the order of the statuses.
    pub fn as_slice(&self) -> &[u32] {
        self.counts.as_slice()
    }
}

/// How runs end: most of them well, and each otherwise now and then.
fn ends(alloc: Global, dice: &mut Dice) -> Result<Vec<End>, NoMemory> {
    let mut ends = Vec::new(alloc);
    for _ in 0..200 {
        let end = match dice.below(40) {
            0 => End::Broken,
            1..5 => End::Wanting,
            5..9 => End::NotStarted,
            _ => End::Done,
        };
        ends.push(end)?;
    }
    Ok(ends)
}

/// A desk, which in one of four keeps almost as many jobs as it may.
fn fresh(alloc: Global, dice: &mut Dice) -> Result<Standing, NoMemory> {
    let mut standing = Standing::new(alloc, &ends(alloc, dice)?)?;
    let jobs = if dice.below(4) == 0 { 990 } else { 0 };
    for number in 0..jobs {
        standing = served(alloc, standing, &numbered(alloc, number)?)?.standing;
    }
    Ok(standing)
}

/// How a desk answered: the status that it says it sent, and what it sent.
#[derive(Drop)]
struct Answered {
    standing: Standing,
    said: Option<u16>,
    sent: Vec<u8>,
}

fn served(alloc: Global, standing: Standing, request: &[u8]) -> Result<Answered, NoMemory> {
    let input = Bytes::from_slice(alloc, request)?;
    let mut link = MemoryLink::new(alloc, input, ROOM, Vec::new(alloc))?;
    let (standing, said) = standing.serve(alloc, &mut link);
    let sent = link.text().to_vec(alloc)?;
    Ok(Answered {
        standing,
        said,
        sent,
    })
}

/// Asks a desk one request and whether it goes on, and counts the answer.
fn ask(
    alloc: Global,
    standing: Standing,
    number: u32,
    request: &[u8],
    counts: &mut Counts,
) -> Result<Standing, Wrong> {
    let Answered {
        standing,
        said,
        sent,
    } = served(alloc, standing, request)?;
    let Some(status) = status_of(alloc, &sent)? else {
        return Err(Wrong::Answer(number, sent));
    };
    if said != Some(status) {
        return Err(Wrong::Answer(number, sent));
    }
    counts.add(status);
    let Answered { standing, sent, .. } = served(alloc, standing, NEXT)?;
    if status_of(alloc, &sent)? != Some(200) {
        return Err(Wrong::Stopped(number));
    }
    Ok(standing)
}

/// Asks so many requests, which a seed makes, and counts their answers.
pub fn asked(alloc: Global, seed: u64, count: u32) -> Result<Counts, Wrong> {
    let mut dice = Dice::new(seed);
    let mut counts = Counts::new();
    let mut standing = fresh(alloc, &mut dice)?;
    for number in 0..count {
        if number % LIFE == 0 {
            standing = fresh(alloc, &mut dice)?;
        }
        let request = torn(alloc, &mut dice)?;
        standing = ask(alloc, standing, number, &request, &mut counts)?;
    }
    Ok(counts)
}
