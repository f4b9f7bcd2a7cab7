//! Answers that change nothing.

ghost use Rattle.std.specs.Prelude.{◌≡◌, IfOk, find};
ghost use Rattle.std.specs.Option.{option_copied};
ghost use Rattle.std.specs.Str.{bytes_eq};
ghost use Rattle.desk_state.specs.Answers.{IsRefusal, IsAnswer, IsLineAnswer, GetAnswers, RunAnswers, VolumeAnswers, job_of, line_of};
ghost use Rattle.desk_text.specs.Values.{jobs_value};

use crate::request::Next;
use ckd_image::{Bytes, NoMemory};
use desk_text::{
    Job, UnitLine, busy_body, error_body, job_body, jobs_body, line_body, volume_body,
};
use std::alloc::Global;

/// The job of a key.
pub(crate) fn find_job<'a>(jobs: &'a [Job], key: &[u8]) -> Option<&'a Job>
    ensures { option_copied result ≡ job_of key.now jobs.now }
{
    jobs.iter().find(|job| job.key.as_slice() == key)
}

/// The line of a unit.
fn find_line<'a>(lines: &'a [UnitLine], serial: &[u8]) -> Option<&'a UnitLine>
    ensures { option_copied result ≡ line_of serial.now lines.now }
{
    lines.iter().find(|line| line.serial.as_slice() == serial)
}

/// A refusal.
pub(crate) fn refused(alloc: Global, status: u16) -> Result<Next, NoMemory>
    ensures { IfOk result (IsRefusal status) }
{
    let body = error_body(alloc, status)?;
    Ok(Next::Answer { status, body })
}

/// A job as it stands in lists.
pub(crate) fn line_answer(alloc: Global, status: u16, job: &Job) -> Result<Next, NoMemory>
    ensures { IfOk result (IsLineAnswer status job.now) }
{
    let body = line_body(alloc, job)?;
    Ok(Next::Answer { status, body })
}

/// A job alone.
pub(crate) fn get(alloc: Global, jobs: &[Job], key: &[u8]) -> Result<Next, NoMemory>
    ensures { IfOk result (GetAnswers (job_of key.now jobs.now)) }
{
    match find_job(jobs, key) {
        Some(job) => {
            let body = job_body(alloc, job)?;
            Ok(Next::Answer { status: 200, body })
        }
        None => refused(alloc, 404),
    }
}

/// All jobs.
pub(crate) fn list(alloc: Global, jobs: &[Job]) -> Result<Next, NoMemory>
    ensures { IfOk result (IsAnswer 200 (jobs_value jobs.now)) }
{
    let body = jobs_body(alloc, jobs)?;
    Ok(Next::Answer { status: 200, body })
}

/// What is asked of a job that was found: its result where it ended, else a run, unless one broke the pool.
fn run_found(alloc: Global, job: &Job, broken: Option<u32>) -> Result<Next, NoMemory>
    ensures { IfOk result (RunAnswers broken (Some job.now)) }
{
    if job.ended.is_some() {
        let body = job_body(alloc, job)?;
        return Ok(Next::Answer { status: 200, body });
    }
    match broken {
        Some(number) => {
            let body = busy_body(alloc, number)?;
            Ok(Next::Answer { status: 503, body })
        }
        None => Ok(Next::Run { number: job.number }),
    }
}

/// The run of a job.
pub(crate) fn run(
    alloc: Global,
    jobs: &[Job],
    broken: Option<u32>,
    key: &[u8],
) -> Result<Next, NoMemory>
    ensures { IfOk result (RunAnswers broken (job_of key.now jobs.now)) }
{
    match find_job(jobs, key) {
        Some(job) => run_found(alloc, job, broken),
        None => refused(alloc, 404),
    }
}

/// A unit.
pub(crate) fn volume(alloc: Global, lines: &[UnitLine], serial: &[u8]) -> Result<Next, NoMemory>
    ensures { IfOk result (VolumeAnswers (line_of serial.now lines.now)) }
{
    match find_line(lines, serial) {
        Some(line) => {
            let body = volume_body(alloc, line)?;
            Ok(Next::Answer { status: 200, body })
        }
        None => refused(alloc, 404),
    }
}
