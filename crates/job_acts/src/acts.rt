//! Steps one after the other.

ghost use Rattle.std.specs.Prelude.{◌≡◌, ◌∷◌, [], All, IfOk};
ghost use Rattle.job_acts.specs.Making.{MayPlan};
ghost use Rattle.job_acts.specs.Acting.{AreSound, IsAttemptOf, EndsSteps, EndsLook, EndsActs, LacksRoom, MayAct, MayDo, looked_at};

use crate::plans::plan_step;
use dasd_pool::Pool;
use job_steps::unit_session::Session;
use job_steps::{Attempt, Cut, carry_out, try_plan};
use move_core::Step;
use std::alloc::Global;

/// Steps that are to be done in their order. So many of the first are looked at before anything is done; the others have room once those stand.
#[derive(Drop)]
pub struct Acts {
    pub steps: Vec<Step>,
    pub looked: usize,
}

/// What was seen of steps: each has room, or a VTOC has none for one of them.
#[derive(Drop)]
pub enum Looked<P: Pool> {
    Fits(Session<P>),
    Full(Session<P>),
}

/// What became of steps: they are done, or a VTOC has no room for one of them, and nothing was done.
#[derive(Drop)]
pub enum Acted<P: Pool> {
    Done(Session<P>),
    Full(Session<P>),
}

/// Makes a step ready.
fn attempt<P: Pool>(alloc: Global, session: Session<P>, step: &Step) -> Result<Attempt<P>, Cut<P>>
    requires { MayPlan session.room session.units step.now }
    ensures { IsAttemptOf P.Pool session step.now result }
{
    match plan_step(alloc, &session, step) {
        Ok(plan) => try_plan(session, plan),
        Err(_) => Err(Cut::Short(session)),
    }
}

/// Does a step for which there is room.
fn do_step<P: Pool>(
    alloc: Global,
    session: Session<P>,
    step: Step,
    steps: &mut Vec<Step>,
) -> Result<Session<P>, Cut<P>>
    requires may { MayPlan session.room session.units step }
    requires room { ¬ LacksRoom session.units step }
    ensures ends { EndsSteps P.Pool session (step ∷ []) steps.old.items steps.new.items result }
    ensures sound { IfOk result (λ next. AreSound next.units) }
{
    let planned = match attempt(alloc, session, &step)? {
        Attempt::Ready(planned) => planned,
        Attempt::Full(_) => unreachable!(),
    };
    let session = carry_out(planned, step, steps)?;
    session.stands();
    Ok(session)
}

/// Does steps one after the other.
fn do_steps<P: Pool>(
    alloc: Global,
    session: Session<P>,
    list: Vec<Step>,
    steps: &mut Vec<Step>,
) -> Result<Session<P>, Cut<P>>
    requires { MayDo session.room session.units list.items }
    ensures { EndsSteps P.Pool session list.items steps.old.items steps.new.items result }
{
    let mut session = session;
    for step in list {
        session = do_step(alloc, session, step, steps)?;
    }
    Ok(session)
}

/// Looks whether there is room for a step. Nothing is done.
pub fn look<P: Pool>(alloc: Global, session: Session<P>, step: &Step) -> Result<Looked<P>, Cut<P>>
    requires { MayPlan session.room session.units step.now }
    ensures { EndsLook P.Pool session (step.now ∷ []) result }
{
    match attempt(alloc, session, step)? {
        Attempt::Ready(planned) => Ok(Looked::Fits(planned.abandon())),
        Attempt::Full(session) => Ok(Looked::Full(session)),
    }
}

/// Looks whether there is room for each of some steps.
fn look_over<P: Pool>(
    alloc: Global,
    session: Session<P>,
    list: &[Step],
) -> Result<Looked<P>, Cut<P>>
    requires { All (MayPlan session.room session.units) list.now }
    ensures { EndsLook P.Pool session list.now result }
{
    let mut session = session;
    for step in list {
        session = match look(alloc, session, step)? {
            Looked::Fits(session) => session,
            Looked::Full(session) => return Ok(Looked::Full(session)),
        };
    }
    Ok(Looked::Fits(session))
}

impl Acts {
    /// Does the steps, and adds them to those of the run. Nothing is done where a VTOC has no room for one of those that are looked at.
    pub fn carry_out<P: Pool>(
        self,
        alloc: Global,
        session: Session<P>,
        steps: &mut Vec<Step>,
    ) -> Result<Acted<P>, Cut<P>>
        requires { MayAct session.room session.units self }
        ensures { EndsActs P.Pool session self.steps.items (looked_at self) steps.old.items steps.new.items result }
    {
        let Acts {
            steps: list,
            looked,
        } = self;
        let session = match look_over(alloc, session, &list[..looked])? {
            Looked::Fits(session) => session,
            Looked::Full(session) => return Ok(Acted::Full(session)),
        };
        Ok(Acted::Done(do_steps(alloc, session, list, steps)?))
    }
}
