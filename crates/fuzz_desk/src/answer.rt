//! What a stranger may rely on of an answer.

use ckd_image::NoMemory;
use ckd_image::text::split;
use httparse::Status;
use httparse::spans::{EMPTY_HEADER_SPAN, HeaderSpan, ResponseSpans, Span, parse_response};
use serde_json::Value;
use std::alloc::Global;

/// The statuses of the desk.
pub const STATUSES: [u16; 13] = [
    200, 201, 204, 400, 404, 405, 409, 411, 413, 429, 500, 503, 507,
];

/// The bytes that a span covers, if it is one of these.
fn part(answer: &[u8], span: Span) -> Option<&[u8]> {
    let (front, _) = split(answer, span.end)?;
    let (_, part) = split(front, span.start)?;
    Some(part)
}

/// Whether a line of a head has this name and value.
fn is_line(answer: &[u8], header: &HeaderSpan, name: &[u8], value: &[u8]) -> bool {
    part(answer, header.name) == Some(name) && part(answer, header.value) == Some(value)
}

/// Whether a head has the lines of an answer with so many bytes behind it.
fn has_lines(
    alloc: Global,
    answer: &[u8],
    headers: &[HeaderSpan],
    size: usize,
) -> Result<bool, NoMemory> {
    let length = format!(in alloc; "{size}")?;
    let [kind, long, last] = headers else {
        return Ok(false);
    };
    Ok(
        is_line(answer, kind, b"content-type", b"application/json")
            && is_line(answer, long, b"content-length", length.as_bytes())
            && is_line(answer, last, b"connection", b"close"),
    )
}

/// Whether bytes are a JSON value.
fn is_json(alloc: Global, body: &[u8]) -> Result<bool, NoMemory> {
    match Value::from_slice(alloc, body) {
        Ok(_) => Ok(true),
        Err(fault) if fault.is_memory() => Err(NoMemory),
        Err(_) => Ok(false),
    }
}

/// Whether bytes are the body of an answer with a status: a JSON value, which names the status where it refuses.
fn is_body(alloc: Global, status: u16, body: &[u8]) -> Result<bool, NoMemory> {
    if status < 400 || status == 503 {
        return is_json(alloc, body);
    }
    let text = format!(in alloc; "{{\"error\":{status}}}")?;
    Ok(text.as_bytes() == body)
}

/// Whether the lines and the body of an answer with a status are right. A 204 has one line, and no body.
fn is_right(
    alloc: Global,
    answer: &[u8],
    headers: &[HeaderSpan],
    head: &ResponseSpans,
) -> Result<bool, NoMemory> {
    let Some((_, body)) = split(answer, head.len) else {
        return Ok(false);
    };
    if head.code == 204 {
        let [last] = headers else {
            return Ok(false);
        };
        return Ok(is_line(answer, last, b"connection", b"close") && body.is_empty());
    }
    Ok(has_lines(alloc, answer, headers, body.len())? && is_body(alloc, head.code, body)?)
}

/// The status of bytes that are one whole answer of HTTP/1.1, with a status of the desk, the lines of such an answer, and a body of the length that it says.
pub fn status_of(alloc: Global, answer: &[u8]) -> Result<Option<u16>, NoMemory> {
    let mut headers = [EMPTY_HEADER_SPAN; 4];
    let Ok(Status::Complete(head)) = parse_response(answer, &mut headers) else {
        return Ok(None);
    };
    if head.version != 1 || !STATUSES.contains(&head.code) {
        return Ok(None);
    }
    if !is_right(alloc, answer, &headers[..head.headers], &head)? {
        return Ok(None);
    }
    Ok(Some(head.code))
}
