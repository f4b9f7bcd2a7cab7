//! A data set is copied to a volume, and deleted where that is asked.

ghost use Rattle.std.specs.Prelude.{◌≡◌, ◌<◌, ◌++◌, length, IfOk, OnOk};
ghost use Rattle.redo_core.specs.Reading.{journal_of};
ghost use Rattle.job_ops.specs.Transfers as spec;
ghost use Rattle.job_ops.specs.Transfers.{copying_step, units_due, first_steps, steps_of_transfer, MayTransfer, EndsTransfer};
ghost use Rattle.dump_sets.specs.job_turns.Stating.{due};
ghost use Rattle.dump_sets.specs.job_turns.job_acts.Making.{repair_steps};

use ckd_image::NoMemory;
use dasd_pool::Pool;
use dump_sets::job_turns::job_acts::{Acted, Acts, same_runs};
use dump_sets::job_turns::job_copies::step_plans::SetAt;
use dump_sets::job_turns::job_copies::step_room::room_laws;
use dump_sets::job_turns::job_steps::Cut;
use dump_sets::job_turns::job_steps::unit_session::Session;
use dump_sets::job_turns::push_repair;
use free_map::Runs;
use move_core::{Origin, Step};
use std::alloc::Global;
use unit_load::UnitState;

/// A data set that is copied, and whether it is deleted then: in the same step where its copy goes to another unit.
#[derive(Drop)]
pub(crate) struct Transfer {
    pub from: SetAt,
    pub to: SetAt,
    pub runs: Runs,
    pub replaced: bool,
    pub delete: bool,
}

impl Transfer {
    /// Its copy goes to another unit in the step that deletes it.
    pub(crate) fn is_carried(&self) -> bool
        ensures { result ≡ spec.is_carried self.now }
    {
        self.delete && self.from.unit != self.to.unit
    }

    /// It is deleted in a step of its own.
    fn is_deleted(&self) -> bool
        ensures { result ≡ spec.is_deleted self.now }
    {
        self.delete && self.from.unit == self.to.unit
    }

    /// The step that puts the copy.
    fn copying_step(&self, alloc: Global) -> Result<Step, NoMemory>
        ensures { IfOk result (λ step. step ≡ copying_step self.now) }
    {
        let to = same_runs(alloc, self.runs.as_slice())?;
        let SetAt { unit, name } = self.to;
        if self.is_carried() {
            return Ok(Step::Carry {
                from: self.from.unit,
                old: self.from.name,
                unit,
                name,
                to,
                replaced: self.replaced,
            });
        }
        let origin = Origin::Row(self.from.unit, self.from.name);
        Ok(if self.replaced {
            Step::Replace {
                unit,
                name,
                to,
                origin,
            }
        } else {
            Step::Add {
                unit,
                name,
                to,
                origin,
            }
        })
    }

    /// Adds the repairs of the volumes that are changed, the lower unit's first.
    fn push_repairs<P: Pool>(
        &self,
        session: &Session<P>,
        steps: &mut Vec<Step>,
    ) -> Result<(), NoMemory>
        requires from { self.now.from.unit < journal_of (P.shape session.now.pool) }
        requires to { self.now.to.unit < journal_of (P.shape session.now.pool) }
        ensures { OnOk result (steps.new.items ≡ steps.old.items ++ repair_steps (units_due session.now.units self.now)) }
    {
        let (from, to) = (self.from.unit, self.to.unit);
        if !self.is_carried() {
            return push_repair(session, to, steps);
        }
        if from < to {
            push_repair(session, from, steps)?;
            return push_repair(session, to, steps);
        }
        push_repair(session, to, steps)?;
        push_repair(session, from, steps)
    }

    /// Its steps. A deletion has room once the copy stands.
    fn acts<P: Pool>(&self, alloc: Global, session: &Session<P>) -> Result<Acts, NoMemory>
        requires from { self.now.from.unit < journal_of (P.shape session.now.pool) }
        requires to { self.now.to.unit < journal_of (P.shape session.now.pool) }
        ensures steps { IfOk result (λ acts. acts.steps.items ≡ steps_of_transfer session.now.units self.now) }
        ensures looked { IfOk result (λ acts. acts.looked ≡ length (first_steps session.now.units self.now)) }
    {
        let mut steps = Vec::new(alloc);
        self.push_repairs(session, &mut steps)?;
        steps.push(self.copying_step(alloc)?)?;
        let looked = steps.len();
        if self.is_deleted() {
            let SetAt { unit, name } = self.from;
            steps.push(Step::Delete { unit, name })?;
        }
        Ok(Acts { steps, looked })
    }

    /// Copies the data set, and deletes it where that is asked; where the free space of a volume isn't stated that is changed, states it first. Nothing is done where
    /// a VTOC has no room for one of them.
    pub(crate) fn carry_out<P: Pool>(
        &self,
        alloc: Global,
        session: Session<P>,
        steps: &mut Vec<Step>,
    ) -> Result<Acted<P>, Cut<P>>
        requires from { self.now.from.unit < journal_of (P.shape session.pool) }
        requires to { self.now.to.unit < journal_of (P.shape session.pool) }
        requires may { MayTransfer session.room session.units self.now }
        ensures { EndsTransfer P.Pool session self.now steps.old.items steps.new.items result }
    {
        room_laws();
        session.stands();
        match self.acts(alloc, &session) {
            Ok(acts) => acts.carry_out(alloc, session, steps),
            Err(_) => Err(Cut::Short(session)),
        }
    }
}
