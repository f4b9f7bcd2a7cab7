//! One connection.

ghost use Rattle.std.specs.Prelude.{◌≡◌, ◌≤◌, None, IsSome};
ghost use Rattle.desk_state.specs.Ends.{AreNumbered};
ghost use Rattle.desk_serve.specs.Serves.{Sends, Serves, ReceivesEnough, Refuses, refusal_of, status_said, body_said, LivesOn};
ghost use Rattle.desk_request.specs.Reads.{IsStatusFault};
ghost use Rattle.desk_text.specs.Answers.{IsDeskAnswer};

use crate::runner::Runner;
use crate::settling::{Said, Settled, settle};
use dasd_pool::Link;
use desk_head::RequestFault;
use desk_request::read_request;
use desk_state::Desk;
use desk_text::{AnswerHead, send};
use std::alloc::Global;

/// Sends what is said.
fn tell<L: Link>(link: &mut L, said: &Said) -> Option<u16>
    requires { IsDeskAnswer (status_said said.now) (body_said said.now) }
    ensures sends { Sends (L.taken link.old) (L.taken link.new) (L.faults link.old) (L.faults link.new) said.now result }
    ensures unread { L.left link.new ≡ L.left link.old }
    ensures later { L.faults link.old ≤ L.faults link.new }
{
    let (status, sent) = match said {
        Said::Body { status, body } => (*status, send(link, *status, body.as_slice())),
        Said::Error { status } => (
            *status,
            send(link, *status, AnswerHead::error(*status).as_slice()),
        ),
    };
    match sent {
        Ok(()) => Some(status),
        Err(_) => None,
    }
}

/// The desk and its session after a connection, and the status that was answered.
#[derive(Drop)]
pub struct Served<S> {
    pub desk: Desk,
    pub session: Option<S>,
    pub answer: Option<u16>,
}

/// Sends what is said, and hands on desk and session.
fn told<L: Link, S: Runner>(link: &mut L, settled: Settled<S>) -> Served<S>
    requires { IsDeskAnswer (status_said settled.said) (body_said settled.said) }
    ensures desk { result.desk ≡ settled.desk }
    ensures session { result.session ≡ settled.session }
    ensures sends { Sends (L.taken link.old) (L.taken link.new) (L.faults link.old) (L.faults link.new) settled.said result.answer }
    ensures unread { L.left link.new ≡ L.left link.old }
    ensures later { L.faults link.old ≤ L.faults link.new }
{
    let Settled {
        desk,
        session,
        said,
    } = settled;
    let answer = tell(link, &said);
    Served {
        desk,
        session,
        answer,
    }
}

/// What is said of a request that wasn't read; nothing where the link failed.
fn refusal(fault: RequestFault) -> Option<Said>
    ensures { result ≡ refusal_of fault }
{
    match fault {
        RequestFault::Status(status) => Some(Said::Error { status }),
        RequestFault::Read => None,
        RequestFault::NoMemory => Some(Said::Error { status: 507 }),
    }
}

/// Answers a request that wasn't read. Desk and session stay as they are.
fn refuse<L: Link, S: Runner>(
    link: &mut L,
    desk: Desk,
    session: Option<S>,
    fault: RequestFault,
) -> Served<S>
    requires { IsStatusFault fault }
    ensures desk { result.desk ≡ desk }
    ensures session { result.session ≡ session }
    ensures sends { Refuses (L.taken link.old) (L.taken link.new) (L.faults link.old) (L.faults link.new) (refusal_of fault) result.answer }
    ensures unread { L.left link.new ≡ L.left link.old }
    ensures later { L.faults link.old ≤ L.faults link.new }
{
    match refusal(fault) {
        Some(said) => told(
            link,
            Settled {
                desk,
                session,
                said,
            },
        ),
        None => Served {
            desk,
            session,
            answer: None,
        },
    }
}

/// Serves one connection: reads a request, does what it asks and answers it.
pub fn serve_one<L: Link, S: Runner>(
    alloc: Global,
    link: &mut L,
    desk: Desk,
    session: Option<S>,
) -> Served<S>
    requires numbered { AreNumbered desk.jobs }
    requires there { desk.broken ≡ None → IsSome session }
    ensures serves { Serves S.runs S.shows (L.left link.old) (L.taken link.old) (L.taken link.new) (L.faults link.old) (L.faults link.new) desk session result.desk result.session result.answer }
    ensures enough { ReceivesEnough (L.left link.old) (L.left link.new) (L.taken link.old) (L.taken link.new) (L.faults link.old) (L.faults link.new) result.answer }
    ensures lives { LivesOn desk result.desk }
    ensures stays_numbered { AreNumbered result.desk.jobs }
    ensures stays_there { result.desk.broken ≡ None → IsSome result.session }
{
    match read_request(alloc, link) {
        Ok(request) => told(link, settle(alloc, desk, session, request)),
        Err(fault) => refuse(link, desk, session, fault),
    }
}
