//! Tests: words are read as what they name, and end with their status where a stream fails.

use crate::runs::{Row, Steps, WORDS_OF_TWO, first_wrong};
use rows_base::Outside::{Held, Lines, Pool, Sysin};
use rows_base::{GIVEN, LISTING_WORDS, RowsFault, Run, read_words, words_of};
use std::alloc::Global;
use std::test::*;

const HELD_WORDS: [&str; 4] = ["--unit=VOL001=a", "--journal=b", "--sysin=c", "--held=h"];

pub const MAKING_WORDS: [&str; 3] = ["--unit=VOL001=a", "--journal=b", "--format-journal=003"];

pub const PRINT: &[u8] = b" PRINT VTOC INDDNAME(VOL001)\n";

pub const LISTED: &str = "ADR101I (001) PRINT STARTED
ADR110I (001) VOLUME VOL001 3390 USABLE 15 FREE 13 IN 1 RUNS INDEX 0
ADR102I (001) PRINT ENDED CODE 0
ADR103I (000) MAXIMUM CODE 0
";

const MADE: &str = "ADR104I (000) JOURNAL FORMATTED UNITS 1 ROOM 3\n";

const NO_POOL: &str = "ADR516T (000) RUN ENDED WITH STATUS 16\n";

const NO_TEXT: &str = "ADR524T (000) RUN ENDED WITH STATUS 24: SYSIN\n";

const NO_HELD: &str = "ADR524T (000) RUN ENDED WITH STATUS 24: HELD\n";

const REFUSED: &str = "ADR536T (000) RUN ENDED WITH STATUS 36\n";

const NONE: Steps = (&[], None);

static ROWS: [Row; 8] = [
    // the pool has one volume alone
    (&WORDS_OF_TWO, &[], 36, REFUSED, NONE),
    (&LISTING_WORDS, &[(Sysin, 0)], 24, NO_TEXT, NONE),
    (&HELD_WORDS, &[(Held, 0)], 24, NO_HELD, NONE),
    // no text of holds is named, and so none is read
    (&LISTING_WORDS, &[(Held, 0)], 0, LISTED, NONE),
    (&LISTING_WORDS, &[(Pool, 0)], 16, NO_POOL, NONE),
    // a last line that isn't written changes nothing of the status
    (&LISTING_WORDS, &[(Sysin, 0), (Lines, 0)], 24, "", NONE),
    // a making reads no text
    (&MAKING_WORDS, &[(Sysin, 0), (Held, 0)], 0, MADE, NONE),
    (&MAKING_WORDS, &[(Pool, 0)], 16, NO_POOL, NONE),
];

/// Words that name fewer volumes than the pool has.
static FEWER: [Row; 1] = [(&LISTING_WORDS, &[], 36, REFUSED, NONE)];

#[test]
fn each_failing_stream_has_its_status(rt: HostRuntime) -> Result<(), Fail> {
    let wrong = first_wrong(rt.alloc(), &[GIVEN], PRINT, GIVEN, &ROWS)?;
    assert!(rt; wrong.is_none(), "{wrong:?}");
    let fewer = first_wrong(rt.alloc(), &[GIVEN, GIVEN], PRINT, GIVEN, &FEWER)?;
    assert!(rt; fewer.is_none(), "{fewer:?}");
    Ok(())
}

/// Whether a run has the journal `b`, and is its making with this room, or without one a run of the text `c`.
fn is_run_of(run: &Run, want: Option<u32>) -> bool {
    match run {
        Run::Jobs { journal, sysin, .. } => {
            want.is_none() && journal.as_str() == "b" && sysin.as_str() == "c"
        }
        Run::Format { journal, room, .. } => want == Some(*room) && journal.as_str() == "b",
        Run::Make { .. } => false,
    }
}

/// Whether words are read as such a run.
fn are_read_as(alloc: Global, words: &[&str], want: Option<u32>) -> Result<bool, RowsFault> {
    let words = words_of(alloc, words)?;
    let Ok(run) = read_words(alloc, &words) else {
        return Ok(false);
    };
    Ok(is_run_of(&run, want))
}

#[test]
fn words_are_read_as_what_they_name(rt: HostRuntime) -> Result<(), Fail> {
    assert!(rt; are_read_as(rt.alloc(), &LISTING_WORDS, None)?);
    assert!(rt; are_read_as(rt.alloc(), &MAKING_WORDS, Some(3))?);
    Ok(())
}
