//! Tests: a making of a journal is stopped at each of its calls, over an old open gate without a registration.

use crate::words::{LISTED, MAKING_WORDS, PRINT};
use dasd_pool::Tear;
use rows_base::{
    Change, GIVEN, JOURNAL_BLOCK, LISTING_WORDS, Machine, Ran, RowsFault, journal, volume,
};
use std::alloc::Global;
use std::test::*;

/// The calls of a making where no registration stands: block 0 and the label are read; zeros go to block 0, and a sync; to gate and
/// control, and a sync; then the registration, and a sync.
const CALLS: u64 = 2 + 2 + 3 + 2;

/// More calls than a making has, or a listing and a look at the volume.
const KEEP: u32 = 64;

/// An open gate, and a body of one image, of zeros, for block 1 of the volume, which is its VTOC.
const OPEN: [Change; 3] = [
    (JOURNAL_BLOCK, 1),
    (3 * JOURNAL_BLOCK + 3, 1),
    (3 * JOURNAL_BLOCK + 11, 1),
];

const UNREGISTERED: &str = "ADR520T (000) RUN ENDED WITH STATUS 20: JOURNAL 2\n";

static TEARS: [Tear; 4] = [Tear::Old, Tear::New, Tear::Zero, Tear::Half];

/// Makes a journal there.
fn made(alloc: Global) -> Result<Ran, RowsFault> {
    let place = journal(alloc, 7, &OPEN)?;
    Machine::new(alloc, &[GIVEN], place, &[], KEEP)?.run(alloc, &MAKING_WORDS, b"", &[])
}

/// What a listing says of what a stop leaves. Until the registration is synced, that depends on the tear: torn in the middle it stands, as
/// zeros are behind it.
fn listing(calls: u64, tear: Tear) -> &'static str {
    let is_new = matches!(tear, Tear::New | Tear::Half);
    let stands = calls >= CALLS || calls == CALLS - 1 && is_new;
    if stands { LISTED } else { UNREGISTERED }
}

/// The first stop after which a listing says something else, or the volume is another; and what it says.
fn first_wrong(alloc: Global) -> Result<Option<(u64, Tear, String)>, RowsFault> {
    let making = made(alloc)?.machine;
    let given = volume(alloc, GIVEN)?;
    for calls in 0..=CALLS {
        for &tear in &TEARS {
            let stopped = making.stopped(alloc, calls, tear)?;
            let mut ran = stopped.run(alloc, &LISTING_WORDS, PRINT, &[])?;
            let is_told = ran.lines.as_str() == listing(calls, tear);
            if !is_told || !ran.machine.holds(alloc, 0, &given)? {
                return Ok(Some((calls, tear, ran.lines)));
            }
        }
    }
    Ok(None)
}

#[test]
fn a_making_has_so_many_calls(rt: HostRuntime) -> Result<(), Fail> {
    let ran = made(rt.alloc())?;
    assert_eq!(rt; ran.status, 0);
    assert_eq!(rt; ran.machine.calls(), CALLS);
    Ok(())
}

#[test]
fn no_body_is_put_in_place_behind_a_stop(rt: HostRuntime) -> Result<(), Fail> {
    let wrong = first_wrong(rt.alloc())?;
    assert!(rt; wrong.is_none(), "{wrong:?}");
    Ok(())
}
