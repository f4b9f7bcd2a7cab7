//! A data set that stays on its volume gets other extents.

ghost use Rattle.std.specs.Prelude.{◌≡◌, ◌∷◌, [], length, IfOk};
ghost use Rattle.job_ops.specs.Reshaping.{step_of, steps_of_reshape, MayReshape, NeedsRepair, EndsReshape};

use ckd_image::{Listed, NoMemory};
use dasd_pool::Pool;
use dsn_filter::Dsn;
use dump_sets::job_turns::job_acts::{Acted, Acts};
use dump_sets::job_turns::job_copies::step_room::room_laws;
use dump_sets::job_turns::job_steps::Cut;
use dump_sets::job_turns::job_steps::unit_session::Session;
use free_map::{Run, Runs};
use move_core::Step;
use std::alloc::Global;

/// The extents that a data set is to have: those of its first tracks, as many as are told, or one.
#[derive(Clone, Copy)]
pub(crate) enum Layout {
    Front(u32),
    Joined(Run),
}

/// A data set of a unit, and the extents that it is to have.
#[derive(Clone, Copy)]
pub(crate) struct Reshape {
    pub unit: u32,
    pub name: Dsn,
    pub layout: Layout,
    /// Whether the free space of its volume isn't stated.
    pub repair: bool,
}

/// One run as a list.
fn only(alloc: Global, run: Run) -> Result<Runs, NoMemory>
    ensures { IfOk result (λ runs. runs ≡ run ∷ []) }
{
    let mut runs = Vec::new(alloc);
    runs.push(run)?;
    Ok(Listed::from_vec(runs))
}

impl Reshape {
    fn step(&self, alloc: Global) -> Result<Step, NoMemory>
        ensures { IfOk result (λ step. step ≡ step_of self.now) }
    {
        let Reshape { unit, name, .. } = *self;
        Ok(match self.layout {
            Layout::Front(keep) => Step::Shrink { unit, name, keep },
            Layout::Joined(run) => Step::Move {
                unit,
                name,
                to: only(alloc, run)?,
            },
        })
    }

    /// Its step, and before it the statement of the free space, where it isn't stated. There has to be room for both.
    fn acts(&self, alloc: Global) -> Result<Acts, NoMemory>
        ensures steps { IfOk result (λ acts. acts.steps.items ≡ steps_of_reshape self.now) }
        ensures looked { IfOk result (λ acts. acts.looked ≡ length (steps_of_reshape self.now)) }
    {
        let mut steps = Vec::new(alloc);
        if self.repair {
            steps.push(Step::Repair { unit: self.unit })?;
        }
        steps.push(self.step(alloc)?)?;
        let looked = steps.len();
        Ok(Acts { steps, looked })
    }

    /// Gives the data set its extents; where the free space of its volume isn't stated, states it first. Neither is done where the VTOC has no
    /// room for one of them.
    pub(crate) fn carry_out<P: Pool>(
        &self,
        alloc: Global,
        session: Session<P>,
        steps: &mut Vec<Step>,
    ) -> Result<Acted<P>, Cut<P>>
        requires may { MayReshape session.room session.units self.now }
        requires repair { NeedsRepair session.units self.now }
        ensures { EndsReshape P.Pool session self.now steps.old.items steps.new.items result }
    {
        room_laws();
        session.stands();
        match self.acts(alloc) {
            Ok(acts) => acts.carry_out(alloc, session, steps),
            Err(_) => Err(Cut::Short(session)),
        }
    }
}
