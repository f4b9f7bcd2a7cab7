//! Plans of steps on the units of a session.

ghost use Rattle.std.specs.Prelude.{◌≡◌, ◌∷◌, [], IfOk};
ghost use Rattle.free_map.specs.declared.run.Run.{Run as RunOf};
ghost use Rattle.move_core.specs.declared.steps.Step.TheVariants as steps;
ghost use Rattle.job_acts.specs.Making.{MayBeChanged, HasSet, MayReset, MayCut, MayJoin, MayPut, MayCarry, MayPlan, IsStepPlan, put_step};

use crate::copies::same_runs;
use ckd_image::NoMemory;
use dasd_pool::Pool;
use dsn_filter::Dsn;
use free_map::{Run, Runs};
use job_steps::unit_session::Session;
use move_core::{Origin, Step};
use std::alloc::Global;
use step_room::step_plans::{
    SetAt, SetCopy, carry_set, copy_set, delete_set, join_set, repair_space, reset_flag, shrink_set,
};
use step_room::unit_steps::Plan;

/// Free space of a unit's volume is stated.
fn plan_repair<P: Pool>(alloc: Global, session: &Session<P>, unit: u32) -> Result<Plan, NoMemory>
    requires { MayBeChanged session.now.room session.now.units unit }
    ensures { IfOk result (IsStepPlan session.now.room session.now.units (steps.Repair unit)) }
{
    repair_space(alloc, unit, session.volume(unit))
}

/// A data set is deleted.
fn plan_delete<P: Pool>(alloc: Global, session: &Session<P>, at: SetAt) -> Result<Plan, NoMemory>
    requires { HasSet session.now.room session.now.units at.unit at.name }
    ensures { IfOk result (IsStepPlan session.now.room session.now.units (steps.Delete at.unit at.name)) }
{
    let volume = session.volume(at.unit);
    let Some(plan) = delete_set(alloc, at.unit, volume, at.name)? else {
        unreachable!()
    };
    Ok(plan)
}

/// A data set counts as dumped.
fn plan_reset<P: Pool>(alloc: Global, session: &Session<P>, at: SetAt) -> Result<Plan, NoMemory>
    requires { MayReset session.now.room session.now.units at.unit at.name }
    ensures { IfOk result (IsStepPlan session.now.room session.now.units (steps.ResetFlag at.unit at.name)) }
{
    let volume = session.volume(at.unit);
    let Some(plan) = reset_flag(alloc, at.unit, volume, at.name)? else {
        unreachable!()
    };
    Ok(plan)
}

/// A data set keeps its first tracks alone.
fn plan_cut<P: Pool>(
    alloc: Global,
    session: &Session<P>,
    at: SetAt,
    keep: u32,
) -> Result<Plan, NoMemory>
    requires { MayCut session.now.room session.now.units at.unit at.name keep }
    ensures { IfOk result (IsStepPlan session.now.room session.now.units (steps.Shrink at.unit at.name keep)) }
{
    let volume = session.volume(at.unit);
    let Some(plan) = shrink_set(alloc, at.unit, volume, at.name, keep)? else {
        unreachable!()
    };
    Ok(plan)
}

/// The one of some runs.
fn only(runs: &[Run]) -> Run
    requires { (run : RunOf) × (runs.now ≡ run ∷ []) }
    ensures { runs.now ≡ result ∷ [] }
{
    runs[0]
}

/// A data set moves into one extent.
fn plan_join<P: Pool>(
    alloc: Global,
    session: &Session<P>,
    at: SetAt,
    to: &[Run],
) -> Result<Plan, NoMemory>
    requires { MayJoin session.now.room session.now.units at.unit at.name to.now }
    ensures { IfOk result (IsStepPlan session.now.room session.now.units (steps.Move at.unit at.name to.now)) }
{
    let volume = session.volume(at.unit);
    let run = only(to);
    let Some(plan) = join_set(alloc, at.unit, volume, at.name, run.first)? else {
        unreachable!()
    };
    Ok(plan)
}

/// A copy of a data set is put.
fn plan_put<P: Pool>(
    alloc: Global,
    session: &Session<P>,
    from: SetAt,
    to: SetAt,
    runs: &Runs,
    replaced: bool,
) -> Result<Plan, NoMemory>
    requires { MayPut session.now.room session.now.units from.unit from.name to.unit to.name runs.now replaced }
    ensures { IfOk result (IsStepPlan session.now.room session.now.units (put_step from.unit from.name to.unit to.name runs.now replaced)) }
{
    let source = session.volume(from.unit);
    let target = session.volume(to.unit);
    let runs = same_runs(alloc, runs.as_slice())?;
    let copy = SetCopy {
        from,
        to,
        runs,
        replaced,
    };
    let Some(plan) = copy_set(alloc, source, target, copy)? else {
        unreachable!()
    };
    Ok(plan)
}

/// A data set goes to another unit.
fn plan_carry<P: Pool>(
    alloc: Global,
    session: &Session<P>,
    from: SetAt,
    to: SetAt,
    runs: &Runs,
    replaced: bool,
) -> Result<Plan, NoMemory>
    requires { MayCarry session.now.room session.now.units from.unit from.name to.unit to.name runs.now replaced }
    ensures { IfOk result (IsStepPlan session.now.room session.now.units (steps.Carry from.unit from.name to.unit to.name runs.now replaced)) }
{
    let source = session.volume(from.unit);
    let target = session.volume(to.unit);
    let runs = same_runs(alloc, runs.as_slice())?;
    let copy = SetCopy {
        from,
        to,
        runs,
        replaced,
    };
    let Some(plan) = carry_set(alloc, source, target, copy)? else {
        unreachable!()
    };
    Ok(plan)
}

fn at(unit: &u32, name: &Dsn) -> SetAt
    ensures { result ≡ record { unit = unit.now; name = name.now } }
{
    SetAt {
        unit: *unit,
        name: *name,
    }
}

/// The plan of a step.
pub(crate) fn plan_step<P: Pool>(
    alloc: Global,
    session: &Session<P>,
    step: &Step,
) -> Result<Plan, NoMemory>
    requires { MayPlan session.now.room session.now.units step.now }
    ensures { IfOk result (IsStepPlan session.now.room session.now.units step.now) }
{
    match step {
        Step::Repair { unit } => plan_repair(alloc, session, *unit),
        Step::Delete { unit, name } => plan_delete(alloc, session, at(unit, name)),
        Step::ResetFlag { unit, name } => plan_reset(alloc, session, at(unit, name)),
        Step::Shrink { unit, name, keep } => plan_cut(alloc, session, at(unit, name), *keep),
        Step::Move { unit, name, to } => plan_join(alloc, session, at(unit, name), to.as_slice()),
        Step::Add {
            unit,
            name,
            to,
            origin: Origin::Row(from, old),
        } => plan_put(alloc, session, at(from, old), at(unit, name), to, false),
        Step::Replace {
            unit,
            name,
            to,
            origin: Origin::Row(from, old),
        } => plan_put(alloc, session, at(from, old), at(unit, name), to, true),
        Step::Carry {
            from,
            old,
            unit,
            name,
            to,
            replaced,
        } => plan_carry(alloc, session, at(from, old), at(unit, name), to, *replaced),
        _ => unreachable!(),
    }
}
