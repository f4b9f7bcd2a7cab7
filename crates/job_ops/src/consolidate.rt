//! CONSOLIDATE: the extents of a data set become one.

ghost use Rattle.std.specs.Prelude.{◌<◌, ◌∷◌, [], IsTrue, IfOk, IfSome, IfNone, None};
ghost use Rattle.volume_model.specs.Unit.{DataSet, OnlineVolume};
ghost use Rattle.vtoc_core.specs.declared.volume.Row.{Row as RowOf};
ghost use Rattle.vtoc_core.specs.declared.volume.Volume.{Volume as VolumeOf};
ghost use Rattle.dump_sets.specs.job_turns.job_copies.unit_steps.Plans.{IsLoadedAt, HasRow};
ghost use Rattle.dump_sets.specs.job_turns.job_copies.step_plans.Plans.{IsPlaceOn};
ghost use Rattle.job_ops.specs.declared.task.Task.TheVariants as tasks;
ghost use Rattle.job_ops.specs.Asked.{MayProcess, IsCandidate, IsSeen, IsReasonBefore};
ghost use Rattle.job_ops.specs.Consolidate.{ConsolidatesSet, IsPlaceOf, LacksPlace};
ghost use Rattle.dump_sets.specs.job_turns.job_steps.Units.{ForUnits, IsSet};
ghost use Rattle.dump_sets.specs.job_turns.Ends.{Ends};
ghost use Rattle.job_ops.specs.Reshaping.{StaysChangeable};
ghost use Rattle.dump_sets.specs.job_turns.Turns.{IsCutAction};

use crate::asking::{Candidate, Scene};
use crate::log::{refuse, say_done};
use crate::reshaping::{Layout, Reshape};
use crate::task::Task;
use dasd_pool::Pool;
use dsn_filter::Dsn;
use dump_sets::job_turns::Log;
use dump_sets::job_turns::job_acts::Acted;
use dump_sets::job_turns::job_steps::Cut;
use dump_sets::job_turns::job_steps::unit_session::Session;
use free_map::Run;
use job_lines::{Message, Reason};
use plan_core::next_consolidate;
use std::alloc::Global;

/// The first track of the place of a data set that has several extents.
fn place_of<P: Pool>(
    session: &Session<P>,
    unit: u32,
    name: &Dsn,
    candidate: Candidate,
) -> Option<u32>
    requires candidate { IsCandidate tasks.Consolidate session.now.units unit name.now candidate }
    requires several { 1 < candidate.extents }
    ensures place { IfSome result (λ first. (volume : VolumeOf) (row : RowOf) → IsLoadedAt session.now.units unit volume → HasRow volume name.now row → IsPlaceOn volume row volume first) }
    ensures found { IfSome result (λ first. ForUnits P.Pool session.now (λ units. (volume : OnlineVolume) (set : DataSet) → IsSet units unit name.now volume set → IsPlaceOf volume set first)) }
    ensures none { IfNone result (ForUnits P.Pool session.now (λ units. (volume : OnlineVolume) (set : DataSet) → IsSet units unit name.now volume set → LacksPlace volume set)) }
{
    let _extents = candidate.extents;
    session.stands();
    next_consolidate(session.volume(unit), name)
}

/// Brings the extents of a data set together that nothing prevents but want of a place or of room in the VTOC.
pub(crate) fn join<P: Pool>(
    alloc: Global,
    session: Session<P>,
    scene: Scene<'_>,
    name: &Dsn,
    candidate: Candidate,
    log: &mut Log,
) -> Result<Session<P>, Cut<P>>
    requires may { MayProcess session.room session.units scene.unit (name.now ∷ []) }
    requires candidate { IsCandidate tasks.Consolidate session.units scene.unit name.now candidate }
    requires seen { ForUnits P.Pool session (IsSeen tasks.Consolidate scene.unit name.now candidate) }
    requires moves { ¬ IsTrue candidate.stays }
    requires reason { ForUnits P.Pool session (IsReasonBefore tasks.Consolidate scene.held.now scene.unit name.now None) }
    ensures ends { Ends P.Pool (ConsolidatesSet scene.entry.held.now scene.entry.unit name.now) (IsCutAction (ConsolidatesSet scene.entry.held.now scene.entry.unit name.now)) session
        log.old.steps.items log.new.steps.items log.old.messages.items log.new.messages.items result }
    ensures next { IfOk result (λ next. StaysChangeable session.room session.units next.units scene.entry.unit) }
{
    if candidate.extents <= 1 {
        return Ok(session);
    }
    let Some(first) = place_of(&session, scene.unit, name, candidate) else {
        return refuse(
            session,
            log,
            Task::Consolidate,
            candidate.name,
            Reason::NoSpace,
        );
    };
    let run = Run {
        first,
        len: candidate.size,
    };
    let reshape = Reshape {
        unit: scene.unit,
        name: *name,
        layout: Layout::Joined(run),
        repair: candidate.repair,
    };
    let session = match reshape.carry_out(alloc, session, &mut log.steps)? {
        Acted::Done(session) => session,
        Acted::Full(session) => {
            return refuse(
                session,
                log,
                Task::Consolidate,
                candidate.name,
                Reason::VtocFull,
            );
        }
    };
    let message = Message::Consolidated(candidate.name, candidate.extents, first);
    say_done(session, candidate, message, log)
}
