//! Requests that are refused, by the first status that has a cause.

use ckd_image::NoMemory;
use rows_standing::{Row, first_wrong_of};
use std::alloc::Global;
use std::test::*;

/// A head that isn't one or whose length isn't; then a key, name, holder or body that isn't one, or that ends too early.
static BAD: [&str; 29] = [
    "",
    "GET /jobs HTTP/1.1\r\n",
    "GET /jobs HTTP/2.0\r\n\r\n",
    "GET /jobs HTTP/1.1\r\nname\r\n\r\n",
    "GET /tapes HTTP/1.1\r\ncontent-length: 1\r\ncontent-length: 1\r\n\r\n",
    "DELETE /jobs HTTP/1.1\r\ncontent-length: +5\r\n\r\n",
    "GET /jobs HTTP/1.1\r\ncontent-length: 5, 5\r\ntransfer-encoding: chunked\r\n\r\n",
    "GET /jobs HTTP/1.1\r\ncontent-length:\r\n\r\n",
    "GET /jobs HTTP/1.1\r\ncontent-length: 0x5\r\n\r\n",
    "GET /jobs/K+1 HTTP/1.1\r\n\r\n",
    "GET /jobs/K%31 HTTP/1.1\r\n\r\n",
    "GET /jobs/K1?x HTTP/1.1\r\n\r\n",
    "GET /jobs/123456789012345678901234567890123 HTTP/1.1\r\n\r\n",
    "POST /jobs/K:1/run HTTP/1.1\r\n\r\n",
    "POST /jobs/K:1 HTTP/1.1\r\ncontent-length: 12\r\n\r\n{\"sysin\":\"\"}",
    "POST /jobs/K1 HTTP/1.1\r\ncontent-length: 2\r\n\r\n{}",
    "POST /jobs/K1 HTTP/1.1\r\ncontent-length: 0\r\n\r\n",
    "POST /jobs/K1 HTTP/1.1\r\ncontent-length: 13\r\n\r\n{\"sysin\":\"\"}",
    "POST /jobs/K1 HTTP/1.1\r\ncontent-length: 11\r\n\r\n{\"sysin\":1}",
    "POST /jobs/K1 HTTP/1.1\r\ncontent-length: 11\r\n\r\n{\"sysin\":\"\"}",
    "POST /jobs/K1 HTTP/1.1\r\ncontent-length: 19\r\n\r\n{\"sysin\":\"\",\"x\":\"\"}",
    "POST /jobs/K1 HTTP/1.1\r\ncontent-length: 10\r\n\r\n[\"sysin\",]",
    "POST /jobs/K1 HTTP/1.1\r\ncontent-length: 13\r\n\r\n{\"sysin\":\"\u{1}\"}",
    "PUT /holds/A.B HTTP/1.1\r\ncontent-length: 30\r\n\r\n{\"holder\":\"JOB1\",\"mode\":\"exc\"}",
    "PUT /holds/A.B HTTP/1.1\r\ncontent-length: 30\r\n\r\n{\"holder\":\"1JOB\",\"mode\":\"EXC\"}",
    "PUT /holds/A..B HTTP/1.1\r\ncontent-length: 30\r\n\r\n{\"holder\":\"JOB1\",\"mode\":\"EXC\"}",
    "PUT /holds/A.B HTTP/1.1\r\ncontent-length: 17\r\n\r\n{\"holder\":\"JOB1\"}",
    "DELETE /holds/1A/JOB1 HTTP/1.1\r\n\r\n",
    "DELETE /holds/A/LONGHOLDER HTTP/1.1\r\n\r\n",
];

/// A path of no route, whatever else; then a key, a serial or a hold that isn't there.
static NOT_FOUND: [&str; 19] = [
    "GET /tapes HTTP/1.1\r\n\r\n",
    "GET / HTTP/1.1\r\n\r\n",
    "GET /jobs/ HTTP/1.1\r\n\r\n",
    "GET /jobs? HTTP/1.1\r\n\r\n",
    "GET /JOBS HTTP/1.1\r\n\r\n",
    "GET /jobs/K1/ HTTP/1.1\r\n\r\n",
    "POST /jobs//run HTTP/1.1\r\n\r\n",
    "POST /jobs/K1/run/ HTTP/1.1\r\n\r\n",
    "POST /jobs/K1/RUN HTTP/1.1\r\n\r\n",
    "GET /volumes/ HTTP/1.1\r\n\r\n",
    "GET /volumes/VOL001/ HTTP/1.1\r\n\r\n",
    "PUT /holds/ HTTP/1.1\r\n\r\n",
    "DELETE /holds/A/ HTTP/1.1\r\n\r\n",
    "DELETE /holds/A/B/C HTTP/1.1\r\ncontent-length: 70000\r\ntransfer-encoding: chunked\r\n\r\n",
    "GET /jobs/K1 HTTP/1.1\r\n\r\n",
    "POST /jobs/K1/run HTTP/1.1\r\n\r\n",
    "GET /volumes/VOL003 HTTP/1.1\r\n\r\n",
    "GET /volumes/vol001 HTTP/1.1\r\n\r\n",
    "DELETE /holds/A.B/JOB1 HTTP/1.1\r\n\r\n",
];

static NOT_ALLOWED: [&str; 9] = [
    "DELETE /jobs HTTP/1.1\r\n\r\n",
    "POST /jobs HTTP/1.1\r\n\r\n",
    "get /jobs HTTP/1.1\r\n\r\n",
    "PUT /jobs/K1 HTTP/1.1\r\n\r\n",
    "GET /jobs/K1/run HTTP/1.1\r\n\r\n",
    "POST /volumes/VOL001 HTTP/1.1\r\ncontent-length: 70000\r\n\r\n",
    "GET /holds/A.B HTTP/1.1\r\n\r\n",
    "DELETE /holds/A.B HTTP/1.1\r\n\r\n",
    "PUT /holds/A.B/JOB1 HTTP/1.1\r\ntransfer-encoding: chunked\r\n\r\n",
];

/// A body without a length, or anything with a transfer coding, whatever its length is.
static WITHOUT_LENGTH: [&str; 5] = [
    "POST /jobs/K1 HTTP/1.1\r\n\r\n",
    "POST /jobs/K:1 HTTP/1.1\r\n\r\n",
    "PUT /holds/A.B HTTP/1.1\r\n\r\n{\"holder\":\"JOB1\",\"mode\":\"EXC\"}",
    "GET /jobs HTTP/1.1\r\nTransfer-Encoding: identity\r\n\r\n",
    "POST /jobs/K1 HTTP/1.1\r\ncontent-length: 65537\r\ntransfer-encoding: chunked\r\n\r\n",
];

/// A length over 65,536, whatever the key is and whether a body is wanted or not.
static TOO_LONG: [&str; 5] = [
    "POST /jobs/K1 HTTP/1.1\r\ncontent-length: 65537\r\n\r\n",
    "POST /jobs/K:1 HTTP/1.1\r\ncontent-length: 65537\r\n\r\n",
    "PUT /holds/1 HTTP/1.1\r\ncontent-length: 99999999999999999999999\r\n\r\n",
    "GET /jobs HTTP/1.1\r\ncontent-length: 65537\r\n\r\n",
    "POST /jobs/K1/run HTTP/1.1\r\ncontent-length: 000000000000000065537\r\n\r\n",
];

/// A status and its phrase, and the body that is sent with it.
type Refusal = (&'static str, &'static str);

/// The first of some requests that isn't refused so by a fresh desk, and how it is answered.
fn first_of(
    alloc: Global,
    (status, body): Refusal,
    requests: &[&'static str],
) -> Result<Option<(usize, Vec<u8>)>, NoMemory> {
    for (number, request) in requests.iter().enumerate() {
        let row: Row = (*request, status, "13", body);
        if let Some((_, answer)) = first_wrong_of(alloc, &[], &[row])? {
            return Ok(Some((number, answer)));
        }
    }
    Ok(None)
}

#[test]
fn what_is_not_of_its_form_is_400(rt: HostRuntime) -> Result<(), Fail> {
    let wrong = first_of(rt.alloc(), ("400 Bad Request", "{\"error\":400}"), &BAD)?;
    assert!(rt; wrong.is_none(), "{wrong:?}");
    Ok(())
}

#[test]
fn what_is_not_there_is_404(rt: HostRuntime) -> Result<(), Fail> {
    let wrong = first_of(rt.alloc(), ("404 Not Found", "{\"error\":404}"), &NOT_FOUND)?;
    assert!(rt; wrong.is_none(), "{wrong:?}");
    Ok(())
}

#[test]
fn another_method_is_405(rt: HostRuntime) -> Result<(), Fail> {
    let wrong = first_of(
        rt.alloc(),
        ("405 Method Not Allowed", "{\"error\":405}"),
        &NOT_ALLOWED,
    )?;
    assert!(rt; wrong.is_none(), "{wrong:?}");
    Ok(())
}

#[test]
fn a_body_without_a_length_is_411(rt: HostRuntime) -> Result<(), Fail> {
    let wrong = first_of(
        rt.alloc(),
        ("411 Length Required", "{\"error\":411}"),
        &WITHOUT_LENGTH,
    )?;
    assert!(rt; wrong.is_none(), "{wrong:?}");
    Ok(())
}

#[test]
fn a_length_over_65536_is_413(rt: HostRuntime) -> Result<(), Fail> {
    let wrong = first_of(
        rt.alloc(),
        ("413 Payload Too Large", "{\"error\":413}"),
        &TOO_LONG,
    )?;
    assert!(rt; wrong.is_none(), "{wrong:?}");
    Ok(())
}

/// A request whose body isn't wanted is answered, and the body is left; of a name that is doubled the last string counts.
static TAKEN: [Row; 4] = [
    (
        "GET /jobs HTTP/1.1\r\ncontent-length: 65536\r\n\r\n",
        "200 OK",
        "11",
        "{\"jobs\":[]}",
    ),
    (
        "\r\n\nGET /jobs HTTP/1.0\nname: value\n\nmore",
        "200 OK",
        "11",
        "{\"jobs\":[]}",
    ),
    (
        "POST /jobs/12345678901234567890123456789012 HTTP/1.1\r\ncontent-length: 24\r\n\r\n{\"sysin\":1,\"sysin\":\"AB\"}more",
        "201 Created",
        "70",
        "{\"key\":\"12345678901234567890123456789012\",\"number\":1,\"state\":\"QUEUED\"}",
    ),
    (
        "POST /jobs/12345678901234567890123456789012 HTTP/1.1\r\ncontent-length: 16\r\n\r\n {\"sysin\":\"A\u{42}\"} ",
        "200 OK",
        "70",
        "{\"key\":\"12345678901234567890123456789012\",\"number\":1,\"state\":\"QUEUED\"}",
    ),
];

#[test]
fn what_is_not_asked_for_is_left(rt: HostRuntime) -> Result<(), Fail> {
    let wrong = first_wrong_of(rt.alloc(), &[], &TAKEN)?;
    assert!(rt; wrong.is_none(), "{wrong:?}");
    Ok(())
}
