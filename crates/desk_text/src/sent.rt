//! Sending an answer.

ghost use Rattle.std.specs.Prelude.{◌≡◌, OnOk};
ghost use Rattle.dasd_pool.specs.Count.{HasCause};
ghost use Rattle.dasd_pool.specs.Stream.{Appends, AppendsSome};
ghost use Rattle.desk_text.specs.Answers.{IsDeskAnswer, answer_text};

use crate::head::AnswerHead;
use dasd_pool::{Link, WriteFault, send_all};

/// Sends a whole answer (RFC 9112, 4 and 6), and takes no memory; after a failed call a front of it was sent.
pub fn send<L: Link>(link: &mut L, status: u16, body: &[u8]) -> Result<(), WriteFault>
    requires { IsDeskAnswer status body.now }
    ensures sent { OnOk result (Appends (L.taken link.old) (L.taken link.new) (answer_text status body.now)) }
    ensures some { AppendsSome (L.taken link.old) (L.taken link.new) (answer_text status body.now) }
    ensures unread { L.left link.new ≡ L.left link.old }
    ensures cause { HasCause (L.faults link.old) (L.faults link.new) result }
{
    let head = AnswerHead::of(status, body.len());
    send_all(link, head.as_slice())?;
    send_all(link, body)
}
