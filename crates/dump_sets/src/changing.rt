//! What is done with data sets that stand in a dump: each counts as dumped, or goes, or both.

ghost use Rattle.std.specs.Prelude.{◌≡◌, ◌≢◌, ◌<◌, ◌∷◌, [], AllPairs, IfOk};
ghost use Rattle.dsn_filter.specs.Dsn.{IsDsn};
ghost use Rattle.redo_core.specs.Reading.{journal_of};
ghost use Rattle.job_dumps.specs.job_turns.job_steps.Units.{facts_of};
ghost use Rattle.job_dumps.specs.job_turns.Ends.{Ends};
ghost use Rattle.job_dumps.specs.job_turns.Turns.{AreCutTurns, IsCutAction, Turns};
ghost use Rattle.dump_sets.specs.Changing.{AreLines, ChangesSet, MayChangeSets, StaysForOthers, steps_of_dumped};

use ckd_image::NoMemory;
use dasd_pool::Pool;
use dsn_filter::Dsn;
use job_dumps::DumpWish;
use job_dumps::job_turns::job_acts::{Acted, Acts};
use job_dumps::job_turns::job_copies::step_room::room_laws;
use job_dumps::job_turns::job_steps::Cut;
use job_dumps::job_turns::job_steps::unit_session::Session;
use job_dumps::job_turns::{Log, push_rebuilt, push_repair, say_all};
use job_lines::Message;
use move_core::Step;
use std::alloc::Global;
use volume_change::name_bytes;

/// A data set that stands in a dump, and what is asked of it.
#[derive(Clone, Copy)]
pub(crate) struct Dumped {
    pub unit: u32,
    pub name: Dsn,
    pub wish: DumpWish,
}

impl Dumped {
    /// What is done with it. There is room for each step.
    fn acts<P: Pool>(&self, alloc: Global, session: &Session<P>) -> Result<Acts, NoMemory>
        requires { self.now.unit < journal_of (P.shape session.now.pool) }
        ensures steps { IfOk result (λ acts. acts.steps.items ≡ steps_of_dumped session.now.units self.now) }
        ensures looked { IfOk result (λ acts. acts.looked ≡ 0) }
    {
        let Dumped { unit, name, wish } = *self;
        let mut steps = Vec::new(alloc);
        push_repair(session, unit, &mut steps)?;
        if wish.reset {
            steps.push(Step::ResetFlag { unit, name })?;
        }
        if wish.delete {
            steps.push(Step::Delete { unit, name })?;
        }
        Ok(Acts { steps, looked: 0 })
    }

    /// What is said of it.
    fn lines<P: Pool>(&self, alloc: Global, session: &Session<P>) -> Result<Vec<Message>, NoMemory>
        requires unit { self.now.unit < journal_of (P.shape session.now.pool) }
        requires name { IsDsn self.now.name }
        ensures { IfOk result (λ said. AreLines session.now.units self.now said.items) }
    {
        let text = name_bytes(&self.name);
        let mut said = Vec::new(alloc);
        push_rebuilt(session, self.unit, &mut said)?;
        if self.wish.reset {
            said.push(Message::Reset(text))?;
        }
        if self.wish.delete {
            said.push(Message::Deleted(text))?;
        }
        Ok(said)
    }
}

/// Changes a data set.
fn change<P: Pool>(
    alloc: Global,
    session: Session<P>,
    dumped: Dumped,
    log: &mut Log,
) -> Result<Session<P>, Cut<P>>
    requires unit { dumped.unit < journal_of (P.shape session.pool) }
    requires may { MayChangeSets session.room session.units dumped.unit (dumped.name ∷ []) }
    ensures ends { Ends P.Pool (ChangesSet dumped.wish dumped.unit dumped.name) (IsCutAction (ChangesSet dumped.wish dumped.unit dumped.name)) session
        log.old.steps.items log.new.steps.items log.old.messages.items log.new.messages.items result }
    ensures next { IfOk result (λ next. StaysForOthers session.room session.units next.units dumped.unit dumped.name) }
{
    room_laws();
    session.stands();
    let Ok(said) = dumped.lines(alloc, &session) else {
        return Err(Cut::Short(session));
    };
    let Ok(acts) = dumped.acts(alloc, &session) else {
        return Err(Cut::Short(session));
    };
    match acts.carry_out(alloc, session, &mut log.steps)? {
        Acted::Done(session) => say_all(session, &said, log),
        Acted::Full(_) => unreachable!(),
    }
}

/// Changes data sets of a unit one after the other.
pub(crate) fn change_all<P: Pool>(
    alloc: Global,
    session: Session<P>,
    unit: u32,
    wish: DumpWish,
    names: &[Dsn],
    log: &mut Log,
) -> Result<Session<P>, Cut<P>>
    requires unit { unit < journal_of (P.shape session.pool) }
    requires may { MayChangeSets session.room session.units unit names.now }
    requires apart { AllPairs (λ name other. name ≢ other) names.now }
    ensures { Ends P.Pool (Turns (facts_of P.Pool session) (ChangesSet wish unit) names.now) (AreCutTurns (facts_of P.Pool session) (ChangesSet wish unit) names.now) session
        log.old.steps.items log.new.steps.items log.old.messages.items log.new.messages.items result }
{
    let mut session = session;
    for name in names {
        let dumped = Dumped {
            unit,
            name: *name,
            wish,
        };
        session = change(alloc, session, dumped, log)?;
    }
    Ok(session)
}
