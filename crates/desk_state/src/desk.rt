//! The desk.

ghost use Rattle.std.specs.Prelude.{◌≡◌, ◌≤◌, ◌-◌, ◌++◌, ◌∷◌, [], length, IfOk, OnErr, None, Some, slice_get};
ghost use Rattle.desk_state.specs.Ends.{AreNumbered, IsRunCode, with_end};
ghost use Rattle.dsn_filter.specs.Dsn.{IsDsn};
ghost use Rattle.enq_table.specs.Holder.{IsHolder};
ghost use Rattle.desk_state.specs.Answers.{job_of};
ghost use Rattle.desk_state.specs.Desks.{Answers, PostAnswers, HoldAnswers, FreeAnswers, IsLawful, RunsQueued, HasStatus};

use crate::answers::{find_job, get, line_answer, list, refused, run, volume};
use crate::jobs::Jobs;
use crate::lines::Lines;
use crate::request::{Next, Request};
use ckd_image::text::same;
use ckd_image::{Bytes, NoMemory};
use desk_text::{Job, hold_body};
use dsn_filter::Dsn;
use enq_table::{EnqFault, Held, Holder, Mode};
use std::alloc::Global;

/// The most jobs that are kept.
const MOST_JOBS: usize = 1000;

/// The desk: its jobs in order, who holds which data set, a line for each unit, and the job whose run first broke the pool.
#[derive(Debug, Drop)]
pub struct Desk {
    pub jobs: Jobs,
    pub held: Held,
    pub lines: Lines,
    pub broken: Option<u32>,
}

impl Desk {
    /// Keeps a new job, if there is room.
    fn keep(&mut self, alloc: Global, key: Bytes, text: Bytes) -> Result<Next, NoMemory>
        ensures ok { IfOk result (PostAnswers self.old key text None self.new) }
        ensures err { OnErr result (self.new ≡ self.old) }
    {
        if self.jobs.len() >= MOST_JOBS {
            return refused(alloc, 429);
        }
        let number = self.jobs.len() as u32 + 1;
        let job = Job {
            key,
            number,
            text,
            ended: None,
        };
        let next = line_answer(alloc, 201, &job)?;
        self.jobs.push(job)?;
        Ok(next)
    }

    /// What is said of a job that is kept and posted again.
    fn post(&mut self, alloc: Global, key: Bytes, text: Bytes) -> Result<Next, NoMemory>
        ensures ok { IfOk result (PostAnswers self.old key text (job_of key self.old.jobs) self.new) }
        ensures err { OnErr result (self.new ≡ self.old) }
    {
        if let Some(job) = find_job(self.jobs.as_slice(), key.as_slice()) {
            if same(job.text.as_slice(), text.as_slice()) {
                return line_answer(alloc, 200, job);
            }
            return refused(alloc, 409);
        }
        self.keep(alloc, key, text)
    }

    fn hold(
        &mut self,
        alloc: Global,
        name: Dsn,
        mode: Mode,
        holder: Holder,
    ) -> Result<Next, NoMemory>
        requires name { IsDsn name }
        requires holder { IsHolder holder }
        ensures ok { IfOk result (HoldAnswers self.old (record { name = name; mode = mode; holder = holder }) self.new) }
        ensures err { OnErr result (self.new ≡ self.old) }
    {
        let body = hold_body(alloc)?;
        let refusal = refused(alloc, 409)?;
        match self.held.hold(name, mode, holder) {
            Ok(()) => Ok(Next::Answer { status: 201, body }),
            Err(EnqFault::AlreadyHeld(_)) => Ok(refusal),
            Err(_) => Err(NoMemory),
        }
    }

    fn free(&mut self, alloc: Global, name: &Dsn, holder: &Holder) -> Result<Next, NoMemory>
        ensures ok { IfOk result (FreeAnswers self.old name.now holder.now self.new) }
        ensures err { OnErr result (self.new ≡ self.old) }
    {
        let refusal = refused(alloc, 404)?;
        match self.held.release(name, holder) {
            Ok(()) => Ok(Next::Answer {
                status: 204,
                body: Bytes::new(alloc),
            }),
            Err(_) => Ok(refusal),
        }
    }

    fn answer(&mut self, alloc: Global, request: Request) -> Result<Next, NoMemory>
        requires { IsLawful request }
        ensures ok { IfOk result (Answers self.old request self.new) }
        ensures err { OnErr result (self.new ≡ self.old) }
    {
        match request {
            Request::Post { key, text } => self.post(alloc, key, text),
            Request::Run { key } => run(alloc, self.jobs.as_slice(), self.broken, key.as_slice()),
            Request::Get { key } => get(alloc, self.jobs.as_slice(), key.as_slice()),
            Request::List => list(alloc, self.jobs.as_slice()),
            Request::Volume { serial } => volume(alloc, self.lines.as_slice(), serial.as_slice()),
            Request::Hold { name, mode, holder } => self.hold(alloc, name, mode, holder),
            Request::Free { name, holder } => self.free(alloc, &name, &holder),
        }
    }

    /// What a request that makes no run does, and its answer; or the number of the job that is to run, which is queued. On `Err` nothing changed.
    pub fn decide(&mut self, alloc: Global, request: Request) -> Result<Next, NoMemory>
        requires lawful { IsLawful request }
        requires numbered { AreNumbered self.old.jobs }
        ensures ok { IfOk result (Answers self.old request self.new) }
        ensures run { IfOk result (RunsQueued self.old self.new) }
        ensures status { IfOk result HasStatus }
        ensures err { OnErr result (self.new ≡ self.old) }
        ensures stays_numbered { AreNumbered self.new.jobs }
    {
        let next = self.answer(alloc, request)?;
        Ok(next)
    }

    /// The job with a number.
    pub fn job(&self, number: u32) -> &Job
        requires first { 1 ≤ number }
        requires there { number ≤ length self.now.jobs }
        ensures { slice_get self.now.jobs (number - 1) ≡ Some result.now }
    {
        &self.jobs.as_slice()[number as usize - 1]
    }

    /// The job with a number ended with a code and what it printed.
    pub fn end(&mut self, number: u32, code: u8, print: Bytes)
        requires first { 1 ≤ number }
        requires there { number ≤ length self.old.jobs }
        requires code { IsRunCode code }
        ensures { self.new ≡ record self.old { jobs = with_end self.old.jobs (number - 1) code print } }
    {
        self.jobs.end(number as usize - 1, code, print);
    }

    /// The same where its run broke the pool, the first that did.
    pub fn end_broken(&mut self, number: u32, print: Bytes)
        requires first { 1 ≤ number }
        requires there { number ≤ length self.old.jobs }
        ensures { self.new ≡ record self.old { jobs = with_end self.old.jobs (number - 1) 16 print; broken = Some number } }
    {
        self.jobs.end(number as usize - 1, 16, print);
        self.broken = Some(number);
    }
}
