//! Each route, and its answers in the order in which one desk gives them.

use rows_standing::{End, Row, first_wrong_of};
use std::test::*;

const GET_JOBS: &str = "GET /jobs HTTP/1.1\r\n\r\n";

const POST_ONE: &str =
    "POST /jobs/K1 HTTP/1.1\r\nhost: desk\r\ncontent-length: 40\r\n\r\n{\"sysin\":\" PRINT VTOC INDDNAME(VOL001)\"}";

const RUN_ONE: &str = "POST /jobs/K1/run HTTP/1.1\r\n\r\n";

const GET_ONE: &str = "GET /jobs/K1 HTTP/1.0\r\n\r\n";

const QUEUED: &str = "{\"key\":\"K1\",\"number\":1,\"state\":\"QUEUED\"}";

const ENDED: &str =
    "{\"code\":0,\"key\":\"K1\",\"number\":1,\"print\":\" PRINT VTOC INDDNAME(VOL001)\\nDONE\\n\",\"state\":\"ENDED\"}";

/// A job is posted, run once, and repeats its result; its volume is shown as of the run.
static JOBS: [Row; 14] = [
    (GET_JOBS, "200 OK", "11", "{\"jobs\":[]}"),
    (
        "GET /volumes/VOL001 HTTP/1.1\r\n\r\n",
        "200 OK",
        "77",
        "{\"free\":13,\"index\":0,\"runs\":1,\"serial\":\"VOL001\",\"state\":\"ONLINE\",\"usable\":15}",
    ),
    (POST_ONE, "201 Created", "40", QUEUED),
    (POST_ONE, "200 OK", "40", QUEUED),
    (
        "POST /jobs/K1 HTTP/1.1\r\ncontent-length: 12\r\n\r\n{\"sysin\":\"\"}",
        "409 Conflict",
        "13",
        "{\"error\":409}",
    ),
    (GET_ONE, "200 OK", "40", QUEUED),
    (RUN_ONE, "200 OK", "95", ENDED),
    (RUN_ONE, "200 OK", "95", ENDED),
    (GET_ONE, "200 OK", "95", ENDED),
    (
        POST_ONE,
        "200 OK",
        "39",
        "{\"key\":\"K1\",\"number\":1,\"state\":\"ENDED\"}",
    ),
    (
        "POST /jobs/k_2- HTTP/1.1\r\nCONTENT-LENGTH: \t012 \r\n\r\n{\"sysin\":\"\"}",
        "201 Created",
        "42",
        "{\"key\":\"k_2-\",\"number\":2,\"state\":\"QUEUED\"}",
    ),
    (
        GET_JOBS,
        "200 OK",
        "93",
        "{\"jobs\":[{\"key\":\"K1\",\"number\":1,\"state\":\"ENDED\"},{\"key\":\"k_2-\",\"number\":2,\"state\":\"QUEUED\"}]}",
    ),
    (
        "GET /volumes/VOL001 HTTP/1.1\r\n\r\n",
        "200 OK",
        "77",
        "{\"free\":12,\"index\":0,\"runs\":1,\"serial\":\"VOL001\",\"state\":\"ONLINE\",\"usable\":15}",
    ),
    (
        "GET /volumes/VOL002 HTTP/1.1\r\n\r\n",
        "200 OK",
        "37",
        "{\"serial\":\"VOL002\",\"state\":\"OFFLINE\"}",
    ),
];

#[test]
fn a_job_is_posted_and_run_once(rt: HostRuntime) -> Result<(), Fail> {
    let wrong = first_wrong_of(rt.alloc(), &[End::Broken, End::Done], &JOBS)?;
    assert!(rt; wrong.is_none(), "{wrong:?}");
    Ok(())
}

/// Holds come and go; a name and a holder are read as capitals.
static HOLDS: [Row; 6] = [
    (
        "PUT /holds/a.b HTTP/1.1\r\ncontent-length: 30\r\n\r\n{\"holder\":\"Job1\",\"mode\":\"EXC\"}",
        "201 Created",
        "2",
        "{}",
    ),
    (
        "PUT /holds/A.B HTTP/1.1\r\ncontent-length: 30\r\n\r\n{\"mode\":\"SHR\",\"holder\":\"JOB2\"}",
        "409 Conflict",
        "13",
        "{\"error\":409}",
    ),
    (
        "DELETE /holds/A.B/JOB2 HTTP/1.1\r\n\r\n",
        "404 Not Found",
        "13",
        "{\"error\":404}",
    ),
    (
        "DELETE /holds/A.B/job1 HTTP/1.1\r\n\r\n",
        "204 No Content",
        "",
        "",
    ),
    (
        "DELETE /holds/A.B/JOB1 HTTP/1.1\r\n\r\n",
        "404 Not Found",
        "13",
        "{\"error\":404}",
    ),
    (
        "PUT /holds/A.B HTTP/1.1\r\ncontent-length: 30\r\n\r\n{\"mode\":\"SHR\",\"holder\":\"JOB2\"}",
        "201 Created",
        "2",
        "{}",
    ),
];

#[test]
fn holds_come_and_go(rt: HostRuntime) -> Result<(), Fail> {
    let wrong = first_wrong_of(rt.alloc(), &[], &HOLDS)?;
    assert!(rt; wrong.is_none(), "{wrong:?}");
    Ok(())
}
