//! The head of a request, received within its limits.

ghost use Rattle.std.specs.Prelude.{◌≡◌, ◌≤◌, [], length, IfOk, IfErr};
ghost use Rattle.dasd_pool.specs.Stream.{Takes};
ghost use Rattle.httparse.specs.Spans.{IsRequestWithin};
ghost use Rattle.desk_head.specs.Head.{IsLook, IsHeadAt, IsHeadFault, WantsHead};
ghost use Rattle.desk_head.specs.Received.{TakesEnough, UnlessFailed};

use crate::fault::RequestFault;
use crate::receiving::receive_more;
use dasd_pool::Link;
use httparse::Status;
use httparse::spans::{HeaderSpan, RequestSpans, parse_request};

/// The most bytes of a head, the empty line at its end and those before its first line included.
pub const MOST_HEAD: usize = 8192;

/// The most header lines.
pub const MOST_FIELDS: usize = 128;

/// What the bytes that came so far are.
#[derive(Clone, Copy, Debug, PartialEq, Eq)]
pub(crate) enum Look {
    /// A whole head stands at their front.
    Whole(RequestSpans),
    NotYet,
    /// Whatever comes behind them, no head of so many lines does.
    Never,
}

/// Looks for a head at the front of what came.
fn look_at(input: &[u8], headers: &mut [HeaderSpan]) -> Look
    requires { length headers.old ≡ 128 }
    ensures { IsLook input.now headers.new result }
{
    match parse_request(input, headers) {
        Ok(Status::Complete(spans)) => Look::Whole(spans),
        Ok(Status::Partial) => Look::NotYet,
        Err(_) => Look::Never,
    }
}

/// Receives a head, and maybe some bytes behind it: what is received is at most the bytes of the longest head, and nothing more once the head is whole.
pub fn receive_head<L: Link>(
    link: &mut L,
    input: &mut Vec<u8>,
    headers: &mut [HeaderSpan],
) -> Result<RequestSpans, RequestFault>
    requires empty { input.old.items ≡ [] }
    requires room { length headers.old ≡ 128 }
    ensures received { IfOk result (λ _. Takes (L.left link.old) (L.left link.new) input.new.items) }
    ensures head { IfOk result (IsHeadAt input.new.items headers.new) }
    ensures refused { IfErr result (IsHeadFault (L.left link.old) (L.faults link.old) (L.faults link.new)) }
    ensures enough { IfOk result (λ _. TakesEnough WantsHead (L.left link.old) (L.left link.new)) }
    ensures enough_refused { IfErr result (λ fault. UnlessFailed fault (TakesEnough WantsHead (L.left link.old) (L.left link.new))) }
    ensures silent { L.taken link.new ≡ L.taken link.old }
    ensures later { L.faults link.old ≤ L.faults link.new }
{
    'receiving: loop {
        match look_at(input, headers) {
            Look::Whole(spans) => return Ok(spans),
            Look::NotYet => {}
            Look::Never => return Err(RequestFault::Status(400)),
        }
        if input.len() >= MOST_HEAD {
            return Err(RequestFault::Status(400));
        }
        if !receive_more(link, input, MOST_HEAD)? {
            return Err(RequestFault::Status(400));
        }
    }
}
