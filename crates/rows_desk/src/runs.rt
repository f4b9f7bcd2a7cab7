//! Runs that end for want of memory, that never start, and that break the pool.

use rows_standing::{End, Row, first_wrong_of};
use std::test::*;

const POST_ONE: &str = "POST /jobs/K1 HTTP/1.1\r\ncontent-length: 13\r\n\r\n{\"sysin\":\"A\"}";

const RUN_ONE: &str = "POST /jobs/K1/run HTTP/1.1\r\n\r\n";

const GET_ONE: &str = "GET /jobs/K1 HTTP/1.1\r\n\r\n";

const QUEUED: &str = "{\"key\":\"K1\",\"number\":1,\"state\":\"QUEUED\"}";

/// A run that doesn't start leaves its job queued; one that ends for want of memory is kept.
static WANTING: [Row; 6] = [
    (POST_ONE, "201 Created", "40", QUEUED),
    (RUN_ONE, "507 Insufficient Storage", "13", "{\"error\":507}"),
    (GET_ONE, "200 OK", "40", QUEUED),
    (RUN_ONE, "507 Insufficient Storage", "13", "{\"error\":507}"),
    (
        RUN_ONE,
        "200 OK",
        "69",
        "{\"code\":32,\"key\":\"K1\",\"number\":1,\"print\":\"A\\nDONE\\n\",\"state\":\"ENDED\"}",
    ),
    (
        GET_ONE,
        "200 OK",
        "69",
        "{\"code\":32,\"key\":\"K1\",\"number\":1,\"print\":\"A\\nDONE\\n\",\"state\":\"ENDED\"}",
    ),
];

#[test]
fn a_run_may_want_memory(rt: HostRuntime) -> Result<(), Fail> {
    let wrong = first_wrong_of(
        rt.alloc(),
        &[End::Broken, End::Wanting, End::NotStarted],
        &WANTING,
    )?;
    assert!(rt; wrong.is_none(), "{wrong:?}");
    Ok(())
}

/// A run that breaks the pool has ended with 16, and later runs of queued jobs name it.
static BROKEN: [Row; 7] = [
    (POST_ONE, "201 Created", "40", QUEUED),
    (
        "POST /jobs/K2 HTTP/1.1\r\ncontent-length: 13\r\n\r\n{\"sysin\":\"B\"}",
        "201 Created",
        "40",
        "{\"key\":\"K2\",\"number\":2,\"state\":\"QUEUED\"}",
    ),
    (
        "POST /jobs/K2/run HTTP/1.1\r\n\r\n",
        "500 Internal Server Error",
        "13",
        "{\"error\":500}",
    ),
    (RUN_ONE, "503 Service Unavailable", "9", "{\"job\":2}"),
    (
        "POST /jobs/K2/run HTTP/1.1\r\n\r\n",
        "200 OK",
        "69",
        "{\"code\":16,\"key\":\"K2\",\"number\":2,\"print\":\"B\\nDONE\\n\",\"state\":\"ENDED\"}",
    ),
    (GET_ONE, "200 OK", "40", QUEUED),
    (
        "POST /jobs/K3/run HTTP/1.1\r\n\r\n",
        "404 Not Found",
        "13",
        "{\"error\":404}",
    ),
];

#[test]
fn a_run_may_break_the_pool(rt: HostRuntime) -> Result<(), Fail> {
    let wrong = first_wrong_of(rt.alloc(), &[End::Done, End::Broken], &BROKEN)?;
    assert!(rt; wrong.is_none(), "{wrong:?}");
    Ok(())
}
