//! Tests: the steps of copies of A.B, on tracks 2 to 4 of VOL001.

use crate::runs::{Steps, WORDS_OF_TWO, did, run};
use rows_base::{Change, GIVEN, Given, RowsFault, SLOT, WITH_SET};
use rows_bytes::{BASE, Vtoc};
use std::alloc::Global;
use std::test::*;

/// The last head of A.B's extent.
const ENDS_AT_4: Change = (SLOT + 439, 4);

/// The last character of the serial in the label.
const LABELLED_2: Change = (234, 0xf2);

/// Byte 58 of the format 4 says that format 5 isn't valid.
const NOT_VALID: Change = (SLOT + 87, 0x80);

const VTOC: Vtoc = Vtoc {
    entries: &[(5, 10)],
    ..BASE
};

const SMALL: Given = Given {
    vtoc: VTOC,
    blocks: &[ENDS_AT_4],
    ..WITH_SET
};

const UNSTATED: Given = Given {
    blocks: &[ENDS_AT_4, NOT_VALID],
    ..SMALL
};

const EMPTY_2: Given = Given {
    blocks: &[LABELLED_2],
    ..GIVEN
};

const SMALL_2: Given = Given {
    blocks: &[ENDS_AT_4, LABELLED_2],
    ..SMALL
};

const COPY: &[u8] = b" COPY DS(INC(A.B)) INDD(VOL001) OUTDD(VOL002)\n";

const REPLACE: &[u8] = b" COPY DS(INC(A.B)) INDD(VOL001) OUTDD(VOL002) REPU\n";

const CARRY: &[u8] = b" COPY DS(INC(A.B)) INDD(VOL001) OUTDD(VOL002) DELETE\n";

const RENAME: &[u8] = b" COPY DS(INC(A.B)) INDD(VOL001) OUTDD(VOL001) DELETE RENAMEU((A.B,C.D))\n";

/// Both volumes, a text, and its steps.
type Row = (Given, Given, &'static [u8], Steps);

static ROWS: [Row; 6] = [
    (SMALL, EMPTY_2, COPY, (&[('A', 1, 0)], None)),
    (SMALL, SMALL_2, COPY, (&[], None)),
    (SMALL, SMALL_2, REPLACE, (&[('P', 1, 0)], None)),
    (SMALL, EMPTY_2, CARRY, (&[('C', 1, 0)], None)),
    // its copy stands first
    (SMALL, EMPTY_2, RENAME, (&[('A', 0, 0), ('D', 0, 0)], None)),
    (
        UNSTATED,
        EMPTY_2,
        CARRY,
        (&[('R', 0, 0), ('C', 1, 0)], None),
    ),
];

/// The first copy with other steps: its number from 0, and the lines that it has.
fn wrong_steps(alloc: Global) -> Result<Option<(usize, String)>, RowsFault> {
    for (number, &(first, second, text, steps)) in ROWS.iter().enumerate() {
        let ran = run(alloc, &[first, second], &WORDS_OF_TWO, text, &[])?;
        if !did(&ran, steps) {
            return Ok(Some((number, ran.lines)));
        }
    }
    Ok(None)
}

#[test]
fn each_copy_has_its_steps(rt: HostRuntime) -> Result<(), Fail> {
    let wrong = wrong_steps(rt.alloc())?;
    assert!(rt; wrong.is_none(), "{wrong:?}");
    Ok(())
}
