//! RELEASE: the unused tracks of a data set are given back.

ghost use Rattle.std.specs.Prelude.{◌∷◌, [], IsTrue, IfOk, None};
ghost use Rattle.job_ops.specs.declared.task.Task.TheVariants as tasks;
ghost use Rattle.job_ops.specs.Asked.{MayProcess, IsCandidate, IsSeen, IsReasonBefore};
ghost use Rattle.dump_sets.specs.job_turns.job_steps.Units.{ForUnits};
ghost use Rattle.dump_sets.specs.job_turns.Ends.{Ends};
ghost use Rattle.job_ops.specs.Release.{ReleasesSet};
ghost use Rattle.job_ops.specs.Reshaping.{StaysChangeable};
ghost use Rattle.dump_sets.specs.job_turns.Turns.{IsCutAction};

use crate::asking::{Candidate, Scene};
use crate::log::{refuse, say_done};
use crate::reshaping::{Layout, Reshape};
use crate::task::Task;
use dasd_pool::Pool;
use dsn_filter::Dsn;
use dump_sets::job_turns::job_acts::Acted;
use dump_sets::job_turns::job_steps::Cut;
use dump_sets::job_turns::job_steps::unit_session::Session;
use dump_sets::job_turns::{Log, say};
use job_lines::{Message, Reason};
use std::alloc::Global;

/// Gives back the unused tracks of a data set that nothing prevents but the room in the VTOC.
pub(crate) fn give_back<P: Pool>(
    alloc: Global,
    session: Session<P>,
    scene: Scene<'_>,
    name: &Dsn,
    candidate: Candidate,
    log: &mut Log,
) -> Result<Session<P>, Cut<P>>
    requires may { MayProcess session.room session.units scene.unit (name.now ∷ []) }
    requires candidate { IsCandidate tasks.Release session.units scene.unit name.now candidate }
    requires seen { ForUnits P.Pool session (IsSeen tasks.Release scene.unit name.now candidate) }
    requires moves { ¬ IsTrue candidate.stays }
    requires reason { ForUnits P.Pool session (IsReasonBefore tasks.Release scene.held.now scene.unit name.now None) }
    ensures ends { Ends P.Pool (ReleasesSet scene.entry.held.now scene.entry.unit name.now) (IsCutAction (ReleasesSet scene.entry.held.now scene.entry.unit name.now)) session
        log.old.steps.items log.new.steps.items log.old.messages.items log.new.messages.items result }
    ensures next { IfOk result (λ next. StaysChangeable session.room session.units next.units scene.entry.unit) }
{
    if candidate.size <= candidate.keep {
        return say(
            session,
            &mut log.messages,
            Message::Released(candidate.name, 0),
        );
    }
    let reshape = Reshape {
        unit: scene.unit,
        name: *name,
        layout: Layout::Front(candidate.keep),
        repair: candidate.repair,
    };
    let session = match reshape.carry_out(alloc, session, &mut log.steps)? {
        Acted::Done(session) => session,
        Acted::Full(session) => {
            return refuse(
                session,
                log,
                Task::Release,
                candidate.name,
                Reason::VtocFull,
            );
        }
    };
    let given = candidate.size - candidate.keep;
    say_done(
        session,
        candidate,
        Message::Released(candidate.name, given),
        log,
    )
}
