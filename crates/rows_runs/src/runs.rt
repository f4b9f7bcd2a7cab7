//! Runs over volumes in memory, and how they end.

use rows_base::{
    Dsn, Failing, Given, Machine, REGISTERED, REGISTERED_TWO, Ran, RowsFault, Step, journal, volume,
};
use std::alloc::Global;

/// The words of a text over VOL001 and VOL002.
pub const WORDS_OF_TWO: [&str; 4] = [
    "--unit=VOL001=a",
    "--unit=VOL002=d",
    "--journal=b",
    "--sysin=c",
];

/// A step as a letter, its unit, and a number: R states free space anew, S shrinks A.B to so many tracks, A adds a copy, P puts one in the
/// place of another, D deletes, C carries, F lets one count as dumped.
pub type Told = (char, u32, u32);

/// The steps of a run, and the one that was under way.
pub type Steps = (&'static [Told], Option<Told>);

/// Words, the calls that fail, and how a run of them ends: its status, its lines and its steps.
pub type Row = (
    &'static [&'static str],
    &'static [Failing],
    u8,
    &'static str,
    Steps,
);

/// Whether a name is A.B.
fn is_a_b(name: &Dsn) -> bool {
    matches!(Dsn::read(b"A.B"), Ok(set) if set.is_same(name))
}

fn told(step: &Step) -> Told {
    match step {
        Step::Repair { unit } => ('R', *unit, 0),
        Step::Shrink { unit, name, keep } if is_a_b(name) => ('S', *unit, *keep),
        Step::Add { unit, .. } => ('A', *unit, 0),
        Step::Replace { unit, .. } => ('P', *unit, 0),
        Step::Delete { unit, .. } => ('D', *unit, 0),
        Step::Carry { unit, .. } => ('C', *unit, 0),
        Step::ResetFlag { unit, .. } => ('F', *unit, 0),
        _ => ('-', 0, 0),
    }
}

/// Whether a run did these steps, and no other was under way than this one.
pub fn did(ran: &Ran, (steps, pending): Steps) -> bool {
    let is_pending = match &ran.pending {
        Some(step) => pending == Some(told(step)),
        None => pending.is_none(),
    };
    for (step, want) in ran.steps.iter().zip(steps) {
        if told(step) != *want {
            return false;
        }
    }
    is_pending && ran.steps.len() == steps.len()
}

/// Runs words and a text over volumes and the journal that is registered for them, where these calls fail.
pub fn run(
    alloc: Global,
    volumes: &[Given],
    words: &[&str],
    text: &[u8],
    failing: &[Failing],
) -> Result<Ran, RowsFault> {
    let journal = match volumes.len() {
        1 => journal(alloc, 68, &REGISTERED)?,
        _ => journal(alloc, 68, &REGISTERED_TWO)?,
    };
    Machine::new(alloc, volumes, journal, failing, 0)?.run(alloc, words, text, failing)
}

/// The first row that ends otherwise with this text over these volumes, or doesn't leave this first one: its number from 0, and the status
/// and the lines that it has. With 24 and 36 the pool isn't called.
pub fn first_wrong(
    alloc: Global,
    volumes: &[Given],
    text: &[u8],
    after: Given,
    rows: &[Row],
) -> Result<Option<(usize, u8, String)>, RowsFault> {
    let after = volume(alloc, after)?;
    for (number, &(words, failing, status, lines, steps)) in rows.iter().enumerate() {
        let mut ran = run(alloc, volumes, words, text, failing)?;
        let is_told = ran.status == status && ran.lines.as_str() == lines && did(&ran, steps);
        let is_late = ran.machine.calls() > 0 && matches!(status, 24 | 36);
        if !is_told || is_late || !ran.machine.holds(alloc, 0, &after)? {
            return Ok(Some((number, ran.status, ran.lines)));
        }
    }
    Ok(None)
}
