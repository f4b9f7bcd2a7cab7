//! What is asked of the desk, and what comes next.

use ckd_image::Bytes;
use dsn_filter::Dsn;
use enq_table::{Holder, Mode};

/// A request that was read: a job is posted with its text, run, or looked at; all jobs are listed; a unit is looked at; a data set is held or let go.
#[derive(Debug, Drop)]
pub enum Request {
    Post {
        key: Bytes,
        text: Bytes,
    },
    Run {
        key: Bytes,
    },
    Get {
        key: Bytes,
    },
    List,
    Volume {
        serial: Bytes,
    },
    Hold {
        name: Dsn,
        mode: Mode,
        holder: Holder,
    },
    Free {
        name: Dsn,
        holder: Holder,
    },
}

/// What comes next: an answer with a status (RFC 9110, 15) and a body, or the run of the job with a number.
#[derive(Debug, Drop)]
pub enum Next {
    Answer { status: u16, body: Bytes },
    Run { number: u32 },
}
