use crate::{make_and_list, run_again};
use adr_top::Day;
use ckd_image::{Bytes, Word};
use dasd_pool::{MemoryPool, MemorySink, MemorySource, Tear};
use rows_base::{LISTING_WORDS, RowsFault, WITH_SET, journal, volume};
use std::alloc::Global;
use std::test::*;

const MAKING_WORDS: [&str; 6] = [
    "--unit",
    "VOL001=a",
    "--journal",
    "b",
    "--format-journal",
    "3",
];

const PRINT: &[u8] = b" PRINT VTOC INDDNAME(VOL001)\n";

const RELEASE: &[u8] = b" RELEASE DATASET(INCLUDE(A.B)) DDNAME(VOL001)\n";

const BEFORE: &[u8] = b"ADR111I (001) A.B PS EXTENTS 1 TRACKS 10 LAST 000201
ADR112I (001) EXTENT 1 KIND 01 FROM 2 LENGTH 10
ADR102I (001) PRINT ENDED CODE 0
ADR103I (000) MAXIMUM CODE 0
";

const AFTER: &[u8] = b"ADR111I (001) A.B PS EXTENTS 1 TRACKS 3 LAST 000201
ADR112I (001) EXTENT 1 KIND 01 FROM 2 LENGTH 3
ADR102I (001) PRINT ENDED CODE 0
ADR103I (000) MAXIMUM CODE 0
";

/// More calls than all runs of a row have.
const KEEP: u32 = 200;

/// Copies of words.
fn words_of(alloc: Global, words: &[&str]) -> Result<Vec<Word>, RowsFault> {
    let mut list = Vec::new(alloc);
    for word in words {
        list.push(Word::copy_of(alloc, word)?)?;
    }
    Ok(list)
}

/// A text of which no read fails.
fn source_of(alloc: Global, text: &[u8]) -> Result<MemorySource, RowsFault> {
    let bytes = Bytes::from_slice(alloc, text)?;
    Ok(MemorySource::new(bytes, Vec::new(alloc)))
}

/// The volume with a data set, and seven blocks of zeros where its journal is to be.
fn pool_of(alloc: Global) -> Result<MemoryPool, RowsFault> {
    let mut units = Vec::new(alloc);
    units.push(volume(alloc, WITH_SET)?)?;
    units.push(journal(alloc, 7, &[])?)?;
    Ok(MemoryPool::new(alloc, units, Vec::new(alloc), KEEP)?)
}

/// The pool, where it comes back once its journal was made with the one words, and this text was run with the others.
fn made(
    alloc: Global,
    making: &[&str],
    text: &[u8],
    out: &mut MemorySink,
) -> Result<Option<MemoryPool>, RowsFault> {
    let making = words_of(alloc, making)?;
    let listing = words_of(alloc, &LISTING_WORDS)?;
    let mut sysin = source_of(alloc, text)?;
    let mut held = source_of(alloc, b"")?;
    let pool = pool_of(alloc)?;
    Ok(make_and_list(alloc, &making, &listing, &mut sysin, &mut held, out, pool))
}

/// Whether it comes back.
fn comes_back(alloc: Global, making: &[&str], text: &[u8]) -> Result<bool, RowsFault> {
    let mut out = MemorySink::new(alloc, 1000, Vec::new(alloc))?;
    Ok(made(alloc, making, text, &mut out)?.is_some())
}

/// Whether the volume is listed so, behind a release that was stopped after so many of its calls.
fn is_listed(alloc: Global, calls: u64, tear: Tear, lines: &[u8]) -> Result<bool, RowsFault> {
    let mut out = MemorySink::new(alloc, 2000, Vec::new(alloc))?;
    let Some(pool) = made(alloc, &MAKING_WORDS, PRINT, &mut out)? else {
        return Ok(false);
    };
    let words = words_of(alloc, &LISTING_WORDS)?;
    let mut first = source_of(alloc, RELEASE)?;
    let mut second = source_of(alloc, PRINT)?;
    let mut held = source_of(alloc, b"")?;
    let calls = pool.calls().saturating_add(calls);
    let today = Day { year: 2024, day: 1 };
    let resumed = run_again(
        alloc,
        &words,
        &mut first,
        &mut second,
        &mut held,
        &mut out,
        pool,
        today,
        calls,
        tear,
    )?;
    Ok(resumed.second.status == 0 && out.text().ends_with(lines))
}

#[test]
fn a_pool_is_settled_for_a_volume_with_a_data_set(rt: HostRuntime) -> Result<(), Fail> {
    assert!(rt; comes_back(rt.alloc(), &MAKING_WORDS, PRINT)?);
    assert!(rt;
        !comes_back(rt.alloc(), &LISTING_WORDS, PRINT)?,
        "no journal"
    );
    assert!(rt;
        !comes_back(rt.alloc(), &MAKING_WORDS, b" PRINT")?,
        "no listing"
    );
    Ok(())
}

#[test]
fn a_run_goes_on_where_a_stop_left_the_one_before(rt: HostRuntime) -> Result<(), Fail> {
    assert!(rt;
        is_listed(rt.alloc(), 0, Tear::New, BEFORE)?,
        "before its first call"
    );
    assert!(rt;
        is_listed(rt.alloc(), 22, Tear::Old, BEFORE)?,
        "the gate is written"
    );
    assert!(rt;
        is_listed(rt.alloc(), 22, Tear::New, AFTER)?,
        "the gate is open"
    );
    assert!(rt;
        is_listed(rt.alloc(), 24, Tear::Zero, AFTER)?,
        "the VTOC is torn"
    );
    assert!(rt;
        is_listed(rt.alloc(), 100, Tear::Old, AFTER)?,
        "behind its end"
    );
    Ok(())
}
