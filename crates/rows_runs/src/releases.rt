//! Tests: the steps of releases, and what stands where a call or a write of lines fails.

use crate::runs::{Row, Steps, WORDS_OF_TWO, did, first_wrong, run};
use rows_base::Outside::{Lines, Pool};
use rows_base::{Change, Given, LISTING_WORDS, RowsFault, SLOT, WITH_SET};
use std::alloc::Global;
use std::test::*;

/// Byte 58 of the format 4 says that format 5 isn't valid.
const NOT_VALID: Change = (SLOT + 87, 0x80);

/// The last block of A.B, a byte that is otherwise, and the steps of its release.
static STEPS: [([u8; 3], &[Change], Steps); 4] = [
    ([0, 2, 1], &[], (&[('S', 0, 3)], None)),
    ([0, 0, 0], &[], (&[('S', 0, 1)], None)),
    // a release of no track is no step
    ([0, 9, 1], &[], (&[], None)),
    ([0, 2, 1], &[NOT_VALID], (&[('R', 0, 0), ('S', 0, 3)], None)),
];

/// The first release with other steps: its number from 0, and the lines that it has.
fn wrong_steps(alloc: Global) -> Result<Option<(usize, String)>, RowsFault> {
    let text = b" RELEASE DATASET(INCLUDE(A.B)) DDNAME(VOL001)\n";
    for (number, &(last, blocks, steps)) in STEPS.iter().enumerate() {
        let last = Some(last);
        let given = Given {
            last,
            blocks,
            ..WITH_SET
        };
        let ran = run(alloc, &[given], &LISTING_WORDS, text, &[])?;
        if !did(&ran, steps) {
            return Ok(Some((number, ran.lines)));
        }
    }
    Ok(None)
}

#[test]
fn each_release_has_its_steps(rt: HostRuntime) -> Result<(), Fail> {
    let wrong = wrong_steps(rt.alloc())?;
    assert!(rt; wrong.is_none(), "{wrong:?}");
    Ok(())
}

/// VOL002 with A.B: the last character of the serial in its label.
const SECOND: Given = Given {
    blocks: &[(234, 0xf2)],
    ..WITH_SET
};

/// VOL001 once A.B keeps its first three tracks: the one free run begins at 5 and has 10 tracks, and A.B ends at 4.
const SHRUNK: Given = Given {
    blocks: &[(SLOT + 182, 5), (SLOT + 185, 10), (SLOT + 439, 4)],
    ..WITH_SET
};

const RELEASE_BOTH: &[u8] = b" RELEASE DATASET(INCLUDE(A.B)) DDNAME(VOL001)
 RELEASE DATASET(INCLUDE(A.B)) DDNAME(VOL002)
";

/// The calls up to the second release: a sync, three blocks of the journal and two labels when it is opened, label and VTOC of both
/// units, and of the first release the ten tracks of A.B, a sync, and the nine calls of a commit.
const SECOND_RELEASE: u64 = 6 + 4 + 10 + 1 + 9;

/// Its first write: behind the ten tracks of its A.B and a sync.
const SECOND_WRITE: u64 = SECOND_RELEASE + 11;

const HALTED: &str = "ADR101I (001) RELEASE STARTED
ADR120I (001) A.B RELEASED 7
ADR102I (001) RELEASE ENDED CODE 0
ADR101I (002) RELEASE STARTED
ADR516T (000) RUN ENDED WITH STATUS 16
";

const FIRST_ALONE: &str = "ADR101I (001) RELEASE STARTED
ADR120I (001) A.B RELEASED 7
ADR102I (001) RELEASE ENDED CODE 0
";

const ONE: Steps = (&[('S', 0, 3)], None);

const BOTH: Steps = (&[('S', 0, 3), ('S', 1, 3)], None);

const BEGUN: Steps = (&[('S', 0, 3)], Some(('S', 1, 3)));

static HALTS: [Row; 4] = [
    (&WORDS_OF_TWO, &[(Pool, SECOND_RELEASE)], 16, HALTED, ONE),
    (&WORDS_OF_TWO, &[(Pool, SECOND_WRITE)], 16, HALTED, BEGUN),
    // the lines of the first aren't written, and so the second doesn't run
    (&WORDS_OF_TWO, &[(Lines, 0)], 28, "", ONE),
    (&WORDS_OF_TWO, &[(Lines, 1)], 28, FIRST_ALONE, BOTH),
];

#[test]
fn a_run_that_halts_keeps_what_was_done(rt: HostRuntime) -> Result<(), Fail> {
    let volumes = [WITH_SET, SECOND];
    let wrong = first_wrong(rt.alloc(), &volumes, RELEASE_BOTH, SHRUNK, &HALTS)?;
    assert!(rt; wrong.is_none(), "{wrong:?}");
    Ok(())
}
