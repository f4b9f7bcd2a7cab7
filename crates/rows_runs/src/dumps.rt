//! Tests: dumps of A.B, on tracks 2 to 4 of VOL001, on three outputs of which calls fail.

use crate::outputs::{NEVER, memory_outs};
use crate::runs::{Steps, did};
use rows_base::{
    Change, Given, Machine, OutState, REGISTERED, Ran, RowsFault, SLOT, WITH_SET, journal,
};
use rows_bytes::{BASE, Vtoc};
use std::alloc::Global;
use std::test::*;

/// The last head of A.B's extent.
const ENDS_AT_4: Change = (SLOT + 439, 4);

const SMALL: Given = Given {
    vtoc: Vtoc {
        entries: &[(5, 10)],
        ..BASE
    },
    blocks: &[ENDS_AT_4],
    ..WITH_SET
};

const WORDS: [&str; 6] = [
    "--unit=VOL001=a",
    "--journal=b",
    "--sysin=c",
    "--out=O1=d",
    "--out=O2=e",
    "--out=O3=f",
];

const DUMP: &[u8] = b" DUMP DS(INC(A.B)) INDD(VOL001) OUTDD(O3,O1,O2) RESET DELETE\n";

/// The calls of an output: the header, the begin of a part, its three tracks and its end, the trailer, and that it is finished.
const CALLS: u64 = 1 + 1 + 3 + 1 + 1 + 1;

const LOST: [&str; 3] = [
    "ADR321E (001) OUTPUT O1 LOST",
    "ADR321E (001) OUTPUT O2 LOST",
    "ADR321E (001) OUTPUT O3 LOST",
];

const CHANGED: Steps = (&[('F', 0, 0), ('D', 0, 0)], None);

/// Runs the dump, where one call of each output fails.
fn dumped(alloc: Global, [first, second, third]: [u64; 3]) -> Result<Ran, RowsFault> {
    let outs = memory_outs(alloc, &[("O1", first), ("O2", second), ("O3", third)])?;
    let registered = journal(alloc, 68, &REGISTERED)?;
    Machine::new(alloc, &[SMALL], registered, &[], 0)?.run_on(alloc, &WORDS, DUMP, &[], outs)
}

/// Whether the outputs of a run are whole, but for those of which a call fails: each of these is lost, and has its line.
fn lost(ran: &Ran, failing: &[u64; 3]) -> bool {
    for ((out, call), line) in ran.outs.iter().zip(failing).zip(&LOST) {
        let is_lost = *call < CALLS;
        let state = if is_lost {
            OutState::Lost
        } else {
            OutState::Whole
        };
        if out.state != state || ran.lines.as_str().contains(*line) != is_lost {
            return false;
        }
    }
    ran.outs.len() == 3
}

/// Whether a run said that A.B is dumped, and that it counts as dumped and went behind that.
fn changed(ran: &Ran) -> bool {
    let lines = ran.lines.as_str();
    lines.contains("ADR122I (001) A.B DUMPED")
        && lines.contains("ADR125I (001) A.B RESET\nADR124I (001) A.B DELETED")
        && did(ran, CHANGED)
}

/// Whether a run said that no output is whole, and did nothing.
fn refused(ran: &Ran) -> bool {
    let lines = ran.lines.as_str();
    let is_told = lines.contains("ADR406T (001) NO OUTPUT WHOLE") && !lines.contains("A.B");
    ran.status == 12 && is_told && did(ran, (&[], None))
}

/// The first number of a call with which it ends otherwise: where that call of one output fails, and of two, the dump stands on the others;
/// where it fails of all three, on none.
fn first_wrong(alloc: Global) -> Result<Option<(u64, String)>, RowsFault> {
    for call in 0..CALLS {
        for failing in [
            [call, NEVER, NEVER],
            [NEVER, call, NEVER],
            [NEVER, NEVER, call],
            [call, NEVER, call],
        ] {
            let ran = dumped(alloc, failing)?;
            if ran.status != 8 || !changed(&ran) || !lost(&ran, &failing) {
                return Ok(Some((call, ran.lines)));
            }
        }
        let ran = dumped(alloc, [call, call, call])?;
        if !refused(&ran) || !lost(&ran, &[call, call, call]) {
            return Ok(Some((call, ran.lines)));
        }
    }
    Ok(None)
}

#[test]
fn an_output_with_a_failing_call_is_lost(rt: HostRuntime) -> Result<(), Fail> {
    let wrong = first_wrong(rt.alloc())?;
    assert!(rt; wrong.is_none(), "{wrong:?}");
    Ok(())
}

#[test]
fn outputs_have_so_many_calls(rt: HostRuntime) -> Result<(), Fail> {
    let ran = dumped(rt.alloc(), [CALLS, CALLS, CALLS])?;
    assert_eq!(rt; ran.status, 0);
    assert!(rt; changed(&ran) && lost(&ran, &[CALLS, CALLS, CALLS]));
    Ok(())
}
