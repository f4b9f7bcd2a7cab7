//! What a request does.

ghost use Rattle.std.specs.Prelude.{◌≡◌, ◌≢◌, ◌⊎◌, ◌≤◌, ◌-◌, ℕ, List, Option, IsSome, IfSome, Some, None, length, slice_get};
ghost use Rattle.desk_text.specs.declared.job.Job.{Job};
ghost use Rattle.desk_text.specs.Values.{job_value};
ghost use Rattle.serde_json.specs.Written.{compact_text};
ghost use Rattle.desk_state.specs.Desks.{IsLawful};
ghost use Rattle.desk_state.specs.Ends.{AreNumbered, IsQueued, units_of};
ghost use Rattle.desk_serve.specs.Serves.{AfterRun, RunsJob, SaysResult, Settles, status_said, body_said};
ghost use Rattle.desk_serve.specs.Runs.{IsGoing, HasRunCode, lines_shown};
ghost use Rattle.desk_text.specs.Answers.{IsDeskAnswer};
ghost use Rattle.desk_serve.specs.declared.settling.Said.TheVariants as saids;

use crate::runner::{RunEnd, Runner};
use ckd_image::Bytes;
use desk_state::{Desk, Lines, Next, Request};
use desk_text::job_body;
use std::alloc::Global;

/// What is said: a status with a body, or a refusal, whose body takes no memory.
#[derive(Debug, Drop)]
pub enum Said {
    Body { status: u16, body: Bytes },
    Error { status: u16 },
}

/// The desk and its session after a request, and what is said.
#[derive(Drop)]
pub struct Settled<S> {
    pub desk: Desk,
    pub session: Option<S>,
    pub said: Said,
}

/// The result of an ended job.
fn result_of(alloc: Global, desk: &Desk, number: u32) -> Option<Bytes>
    requires first { 1 ≤ number }
    requires there { number ≤ length desk.now.jobs }
    ensures { IfSome result (λ body. (job : Job) × (slice_get desk.now.jobs (number - 1) ≡ Some job) × (body ≡ compact_text (job_value job))) }
{
    job_body(alloc, desk.job(number)).ok()
}

/// Says of each unit what the session shows, where there is one.
fn show_units<S: Runner>(lines: &mut Lines, session: &Option<S>)
    ensures shown { lines.new ≡ lines_shown S.shows session.now lines.old }
    ensures units { units_of lines.new ≡ units_of lines.old }
{
    if let Some(session) = session {
        session.show(lines);
    }
}

/// What is said of a job that ended, unless for want of memory.
fn said_of(alloc: Global, desk: &Desk, number: u32, code: u8) -> Said
    requires first { 1 ≤ number }
    requires there { number ≤ length desk.now.jobs }
    ensures said { (result ≡ saids.Error 507) ⊎ ((code ≢ 32) × SaysResult desk.now number result) }
    ensures status { IsDeskAnswer (status_said result) (body_said result) }
{
    if code == 32 {
        return Said::Error { status: 507 };
    }
    match result_of(alloc, desk, number) {
        Some(body) => Said::Body { status: 200, body },
        None => Said::Error { status: 507 },
    }
}

/// What a run leaves of the desk, and what is said.
fn after_run<S: Runner>(
    alloc: Global,
    desk: Desk,
    number: u32,
    end: RunEnd,
    session: &Option<S>,
) -> (Desk, Said)
    requires queued { IsQueued desk.jobs number }
    requires numbered { AreNumbered desk.jobs }
    requires code { HasRunCode end }
    ensures after { AfterRun desk number end (lines_shown S.shows session.now desk.lines) result.0 result.1 }
    ensures status { IsDeskAnswer (status_said result.1) (body_said result.1) }
    ensures stays_numbered { AreNumbered result.0.jobs }
    ensures going { result.0.broken ≡ None → IsGoing end }
{
    let mut desk = desk;
    match end {
        RunEnd::Ended { code, print } => {
            desk.end(number, code, print);
            show_units(&mut desk.lines, session);
            let said = said_of(alloc, &desk, number, code);
            (desk, said)
        }
        RunEnd::NotStarted => (desk, Said::Error { status: 507 }),
        RunEnd::Broken { print } => {
            desk.end_broken(number, print);
            (desk, Said::Error { status: 500 })
        }
    }
}

/// Runs the job that is asked for.
fn run_job<S: Runner>(alloc: Global, desk: Desk, session: Option<S>, number: u32) -> Settled<S>
    requires queued { IsQueued desk.jobs number }
    requires numbered { AreNumbered desk.jobs }
    requires there { IsSome session }
    ensures status { IsDeskAnswer (status_said result.said) (body_said result.said) }
    ensures stays_numbered { AreNumbered result.desk.jobs }
    ensures stays_there { result.desk.broken ≡ None → IsSome result.session }
    ensures runs { RunsJob S.runs S.shows desk session number result.desk result.session result.said }
{
    let Some(runner) = session else {
        unreachable!();
    };
    let (session, end) = runner.run(desk.job(number).text.as_slice(), &desk.held);
    let (desk, said) = after_run(alloc, desk, number, end, &session);
    Settled {
        desk,
        session,
        said,
    }
}

/// Does what a request asks.
pub(crate) fn settle<S: Runner>(
    alloc: Global,
    desk: Desk,
    session: Option<S>,
    request: Request,
) -> Settled<S>
    requires lawful { IsLawful request }
    requires numbered { AreNumbered desk.jobs }
    requires there { desk.broken ≡ None → IsSome session }
    ensures status { IsDeskAnswer (status_said result.said) (body_said result.said) }
    ensures stays_numbered { AreNumbered result.desk.jobs }
    ensures stays_there { result.desk.broken ≡ None → IsSome result.session }
    ensures settles { Settles S.runs S.shows desk session request result.desk result.session result.said }
{
    let mut desk = desk;
    match desk.decide(alloc, request) {
        Ok(Next::Answer { status, body }) => Settled {
            desk,
            session,
            said: Said::Body { status, body },
        },
        Ok(Next::Run { number }) => run_job(alloc, desk, session, number),
        Err(_) => Settled {
            desk,
            session,
            said: Said::Error { status: 507 },
        },
    }
}
