//! One step: it is planned, and carried out.

ghost use Rattle.std.specs.Prelude.{◌≡◌, [], ◌++◌, IfOk, IfErr};
ghost use Rattle.move_core.specs.Facts.{shown};
ghost use Rattle.move_core.specs.Runs.{IsRun, Ended};
ghost use Rattle.unit_session.specs.Planned.{MayBegin, pool_switched, done_by};
ghost use Rattle.unit_session.specs.unit_steps.Plans.{IsOfUnits, IsPlan};
ghost use Rattle.job_steps.specs.Carried.{pool_left, pending_left, Continues, steps_of, pool_tried, pending_tried, IsTried, IsReadyOrFull, IsCutBefore, AreAfter, IsUnderWay, IsCutIn, pending_made};

use crate::cut::Cut;
use dasd_pool::Pool;
use move_core::Step;
use unit_session::unit_steps::Plan;
use unit_session::{Broken, PlanFault, PlanStop, Planned, Session};

/// What becomes of a plan: its step is ready, or the VTOC has no room for it.
#[derive(Drop)]
pub enum Attempt<P: Pool> {
    Ready(Planned<P>),
    Full(Session<P>),
}

/// Plans a step. A plan that copies a track without a text is refused as if memory ran out, and nothing was done: a statement asks for the texts first.
pub fn try_plan<P: Pool>(session: Session<P>, plan: Plan) -> Result<Attempt<P>, Cut<P>>
    requires plan { IsPlan session.units plan }
    requires may { MayBegin session.room session.units plan.changes }
    ensures run { IsRun P.tells (shown P.Pool session.pool) (shown P.Pool (pool_tried result)) (IsTried result) [] (pending_tried result) }
    ensures tried { IfOk result (IsReadyOrFull P.Pool session plan) }
    ensures cut { IfErr result (IsCutBefore P.Pool session) }
{
    match session.plan(plan) {
        Ok(planned) => Ok(Attempt::Ready(planned)),
        Err(PlanStop::Kept(session, PlanFault::Full(_, _))) => Ok(Attempt::Full(session)),
        Err(PlanStop::Kept(session, PlanFault::Pool)) => Err(Cut::Halted(session.into())),
        Err(PlanStop::Kept(session, _)) => Err(Cut::Short(session)),
        Err(PlanStop::Failed(broken)) => Err(Cut::Halted(broken)),
    }
}

/// Copies and switches.
fn make<P: Pool>(planned: Planned<P>) -> Result<Session<P>, Broken<P>>
    requires { IsOfUnits planned.plan.step }
    ensures run { IsRun P.tells (shown P.Pool planned.session.pool) (shown P.Pool (pool_switched result)) (Ended result) (done_by planned.plan.step result) (pending_made result) }
    ensures after { IfOk result (AreAfter P.Pool planned) }
    ensures pending { IfErr result (IsUnderWay planned.plan.step) }
{
    planned.copy()?.switch()
}

/// Carries out a planned step whose texts, if it has any, come from units, and adds it to the steps of the run. Its place in that list is taken before anything is written.
pub fn carry_out<P: Pool>(
    planned: Planned<P>,
    step: Step,
    steps: &mut Vec<Step>,
) -> Result<Session<P>, Cut<P>>
    requires step { planned.plan.step ≡ step }
    requires units { IsOfUnits step }
    ensures steps { steps.new.items ≡ steps.old.items ++ steps_of step result }
    ensures run { IsRun P.tells (shown P.Pool planned.session.pool) (shown P.Pool (pool_left result)) (Continues result) (steps_of step result) (pending_left result) }
    ensures after { IfOk result (AreAfter P.Pool planned) }
    ensures cut { IfErr result (IsCutIn P.Pool planned) }
{
    let Ok(()) = steps.push(step) else {
        return Err(Cut::Short(planned.abandon()));
    };
    match make(planned) {
        Ok(session) => Ok(session),
        Err(broken) => {
            let _undone = steps.pop();
            Err(Cut::Halted(broken))
        }
    }
}
