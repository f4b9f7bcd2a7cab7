//! Requests as the desk takes them, and such as reach its limits.

use crate::dice::Dice;
use ckd_image::NoMemory;
use std::alloc::Global;

/// Requests of each route, some of which ask for what isn't there.
static LAWFUL: [&str; 20] = [
    "GET /jobs HTTP/1.1\r\n\r\n",
    "GET /jobs HTTP/1.0\r\nhost: desk\r\nuser-agent: none\r\n\r\n",
    "GET /jobs/1 HTTP/1.1\r\n\r\n",
    "GET /jobs/2 HTTP/1.1\r\nhost: desk\r\n\r\n",
    "GET /jobs/none HTTP/1.1\r\n\r\n",
    "POST /jobs/1 HTTP/1.1\r\ncontent-length: 12\r\n\r\n{\"sysin\":\"\"}",
    "POST /jobs/2 HTTP/1.1\r\nContent-Length: 40\r\nhost: desk\r\n\r\n{\"sysin\":\" PRINT VTOC INDDNAME(VOL001)\"}",
    "POST /jobs/3 HTTP/1.1\r\ncontent-length: 29\r\n\r\n{\"sysin\":\"\\u0007\\\"\\\\\\n\u{e9}\u{20ac}\"}",
    "POST /jobs/4 HTTP/1.1\r\ncontent-length: 0021\r\n\r\n { \"sysin\" : \"DUMP\" }",
    "POST /jobs/1/run HTTP/1.1\r\n\r\n",
    "POST /jobs/2/run HTTP/1.1\r\n\r\n",
    "POST /jobs/3/run HTTP/1.0\r\n\r\n",
    "POST /jobs/4/run HTTP/1.1\r\ncontent-length: 3\r\n\r\n{ }",
    "GET /volumes/VOL001 HTTP/1.1\r\n\r\n",
    "GET /volumes/VOL002 HTTP/1.1\r\n\r\n",
    "GET /volumes/VOL009 HTTP/1.1\r\n\r\n",
    "PUT /holds/A.B HTTP/1.1\r\ncontent-length: 30\r\n\r\n{\"holder\":\"JOB1\",\"mode\":\"EXC\"}",
    "PUT /holds/SYS1.PROCLIB HTTP/1.1\r\ncontent-length: 30\r\n\r\n{\"mode\":\"SHR\",\"holder\":\"JOB2\"}",
    "DELETE /holds/A.B/JOB1 HTTP/1.1\r\n\r\n",
    "DELETE /holds/SYS1.PROCLIB/JOB2 HTTP/1.1\r\n\r\n",
];

/// Two texts, and a third so often between them.
fn filled(
    alloc: Global,
    first: &[u8],
    piece: &[u8],
    count: usize,
    last: &[u8],
) -> Result<Vec<u8>, NoMemory> {
    let mut text = Vec::from_slice(alloc, first)?;
    for _ in 0..count {
        text.extend_from_slice(piece)?;
    }
    text.extend_from_slice(last)?;
    Ok(text)
}

/// A head of 8,190 to 8,194 bytes.
fn long_head(alloc: Global, dice: &mut Dice) -> Result<Vec<u8>, NoMemory> {
    let more = 8163 + dice.below(5);
    filled(alloc, b"GET /jobs HTTP/1.1\r\nx: ", b"a", more, b"\r\n\r\n")
}

/// A head of 126 to 130 lines.
fn many_lines(alloc: Global, dice: &mut Dice) -> Result<Vec<u8>, NoMemory> {
    let count = 126 + dice.below(5);
    filled(alloc, b"GET /jobs HTTP/1.1\r\n", b"a:\r\n", count, b"\r\n")
}

/// A key of 30 to 34 bytes.
fn long_key(alloc: Global, dice: &mut Dice) -> Result<Vec<u8>, NoMemory> {
    let count = 30 + dice.below(5);
    let last = b" HTTP/1.1\r\ncontent-length: 12\r\n\r\n{\"sysin\":\"\"}";
    filled(alloc, b"POST /jobs/", b"K", count, last)
}

/// A body of which 65,536 bytes are asked for, and from 2 fewer to 2 more come.
fn long_body(alloc: Global, dice: &mut Dice) -> Result<Vec<u8>, NoMemory> {
    let count = 65_522 + dice.below(5);
    let head = b"POST /jobs/long HTTP/1.1\r\ncontent-length: 65536\r\n\r\n{\"sysin\":\"";
    filled(alloc, head, b"a", count, b"\"}")
}

/// A length of 65,534 to 65,538 bytes, of which few come.
fn long_length(alloc: Global, dice: &mut Dice) -> Result<Vec<u8>, NoMemory> {
    let length = 65_534 + dice.below(5);
    let text = format!(in alloc;
        "PUT /holds/A HTTP/1.1\r\ncontent-length: {length}\r\n\r\n{{\"holder\":\"J\"}}"
    )?;
    Ok(text.into_bytes())
}

/// A job whose key has a number.
pub fn numbered(alloc: Global, number: usize) -> Result<Vec<u8>, NoMemory> {
    let text = format!(in alloc;
        "POST /jobs/J{number} HTTP/1.1\r\ncontent-length: 12\r\n\r\n{{\"sysin\":\"\"}}"
    )?;
    Ok(text.into_bytes())
}

/// The run of such a job.
fn run_of(alloc: Global, number: usize) -> Result<Vec<u8>, NoMemory> {
    let text = format!(in alloc; "POST /jobs/J{number}/run HTTP/1.1\r\n\r\n")?;
    Ok(text.into_bytes())
}

/// A request that the desk takes, or one at a limit.
pub fn lawful(alloc: Global, dice: &mut Dice) -> Result<Vec<u8>, NoMemory> {
    match dice.below(160) {
        0 => long_head(alloc, dice),
        1 => many_lines(alloc, dice),
        2 => long_body(alloc, dice),
        3 => long_length(alloc, dice),
        4 => long_key(alloc, dice),
        5..25 => numbered(alloc, dice.below(2000)),
        25..45 => run_of(alloc, dice.below(200)),
        _ => Ok(Vec::from_slice(alloc, LAWFUL[dice.below(LAWFUL.len())].as_bytes())?),
    }
}
