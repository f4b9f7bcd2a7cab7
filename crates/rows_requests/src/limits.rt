//! The longest head, the most header lines, the longest body and the most jobs.

use ckd_image::NoMemory;
use rows_standing::{Row, Standing, wanted};
use std::alloc::Global;
use std::test::*;

const LISTED: Row = ("", "200 OK", "11", "{\"jobs\":[]}");

const BAD: Row = ("", "400 Bad Request", "13", "{\"error\":400}");

const POSTED: Row = (
    "",
    "201 Created",
    "40",
    "{\"key\":\"K1\",\"number\":1,\"state\":\"QUEUED\"}",
);

/// Two texts, and a third so often between them.
fn filled(
    alloc: Global,
    first: &[u8],
    piece: &[u8],
    count: usize,
    last: &[u8],
) -> Result<Vec<u8>, NoMemory> {
    let mut text = Vec::from_slice(alloc, first)?;
    for _ in 0..count {
        text.extend_from_slice(piece)?;
    }
    text.extend_from_slice(last)?;
    Ok(text)
}

/// Whether a fresh desk answers a request as a row says.
fn is_answered(alloc: Global, request: &[u8], row: &Row) -> Result<bool, NoMemory> {
    let (_, answer) = Standing::new(alloc, &[])?.answer(alloc, request)?;
    Ok(answer == wanted(alloc, row)?)
}

/// A head of 27 bytes and so many more in the value of its only line.
fn long_head(alloc: Global, more: usize) -> Result<Vec<u8>, NoMemory> {
    filled(alloc, b"GET /jobs HTTP/1.1\r\nx: ", b"a", more, b"\r\n\r\n")
}

#[test]
fn a_head_has_at_most_8192_bytes(rt: HostRuntime) -> Result<(), Fail> {
    let longest = long_head(rt.alloc(), 8165)?;
    assert_eq!(rt; longest.len(), 8192);
    assert!(rt; is_answered(rt.alloc(), &longest, &LISTED)?);
    let longer = long_head(rt.alloc(), 8166)?;
    assert!(rt; is_answered(rt.alloc(), &longer, &BAD)?);
    Ok(())
}

/// A head of so many header lines.
fn many_lines(alloc: Global, count: usize) -> Result<Vec<u8>, NoMemory> {
    filled(alloc, b"GET /jobs HTTP/1.1\r\n", b"a:\r\n", count, b"\r\n")
}

#[test]
fn a_head_has_at_most_128_lines(rt: HostRuntime) -> Result<(), Fail> {
    let most = many_lines(rt.alloc(), 128)?;
    assert!(rt; is_answered(rt.alloc(), &most, &LISTED)?);
    let more = many_lines(rt.alloc(), 129)?;
    assert!(rt; is_answered(rt.alloc(), &more, &BAD)?);
    Ok(())
}

/// A job whose body has 12 bytes and so many more.
fn long_body(alloc: Global, more: usize) -> Result<Vec<u8>, NoMemory> {
    let head = b"POST /jobs/K1 HTTP/1.1\r\ncontent-length: 65536\r\n\r\n{\"sysin\":\"";
    filled(alloc, head, b"a", more, b"\"}")
}

#[test]
fn a_body_has_at_most_65536_bytes(rt: HostRuntime) -> Result<(), Fail> {
    let longest = long_body(rt.alloc(), 65_524)?;
    assert!(rt; is_answered(rt.alloc(), &longest, &POSTED)?);
    let cut = long_body(rt.alloc(), 65_523)?;
    assert!(rt; is_answered(rt.alloc(), &cut, &BAD)?);
    Ok(())
}

/// A job with a number for a key.
fn numbered(alloc: Global, number: u32) -> Result<Vec<u8>, NoMemory> {
    let text = format!(in alloc;
        "POST /jobs/{number} HTTP/1.1\r\ncontent-length: 12\r\n\r\n{{\"sysin\":\"\"}}"
    )?;
    Ok(text.into_bytes())
}

/// A desk of so many jobs.
fn with_jobs(alloc: Global, count: u32) -> Result<Standing, NoMemory> {
    let mut standing = Standing::new(alloc, &[])?;
    for number in 0..count {
        let (next, _) = standing.answer(alloc, &numbered(alloc, number)?)?;
        standing = next;
    }
    Ok(standing)
}

#[test]
fn a_desk_keeps_at_most_1000_jobs(rt: HostRuntime) -> Result<(), Fail> {
    let standing = with_jobs(rt.alloc(), 999)?;
    let (standing, answer) = standing.answer(rt.alloc(), &numbered(rt.alloc(), 999)?)?;
    let last: Row = (
        "",
        "201 Created",
        "44",
        "{\"key\":\"999\",\"number\":1000,\"state\":\"QUEUED\"}",
    );
    assert!(rt; answer == wanted(rt.alloc(), &last)?);
    let (standing, answer) = standing.answer(rt.alloc(), &numbered(rt.alloc(), 1000)?)?;
    let full: Row = ("", "429 Too Many Requests", "13", "{\"error\":429}");
    assert!(rt; answer == wanted(rt.alloc(), &full)?);
    let (_, answer) = standing.answer(rt.alloc(), &numbered(rt.alloc(), 8)?)?;
    let kept: Row = (
        "",
        "200 OK",
        "39",
        "{\"key\":\"8\",\"number\":9,\"state\":\"QUEUED\"}",
    );
    assert!(rt; answer == wanted(rt.alloc(), &kept)?);
    Ok(())
}
