//! What is asked of a data set before a statement does anything with it.

ghost use Rattle.std.specs.Prelude.{◌≡◌, ◌↔◌, ◌∷◌, [], IsTrue, IfOk, IfErr, None};
ghost use Rattle.ckd_image.specs.Device.{heads_of};
ghost use Rattle.dasd_pool.specs.Count.{Rose};
ghost use Rattle.move_core.specs.Facts.{shown};
ghost use Rattle.move_core.specs.Runs.{IsRun};
ghost use Rattle.volume_model.specs.Unit.{DataSet};
ghost use Rattle.dump_sets.specs.job_turns.job_copies.unit_change.Described.{DescribesSet};
ghost use Rattle.dump_sets.specs.job_turns.job_steps.unit_session.Sessions.{IsSameSession};
ghost use Rattle.job_ops.specs.Asked.{MayProcess, IsCandidate, IsSeen, IsReasonBefore};
ghost use Rattle.dump_sets.specs.job_turns.job_steps.Units.{ForUnits};
ghost use Rattle.job_ops.specs.Reasons.{IsHeld};
ghost use Rattle.job_ops.specs.Task.{StaysFor};

use crate::task::Task;
use dasd_pool::Pool;
use dsn_filter::Dsn;
use dump_sets::job_turns::job_copies::job_select::{
    is_pinned, is_sequential_or_partitioned, kept_tracks, track_count,
};
use dump_sets::job_turns::job_steps::unit_session::Session;
use enq_table::Held;
use job_lines::Reason;
use unit_load::UnitFault;
use vol_label::Serial;
use volume_change::find;
use vtoc_core::{Row, Volume};

/// Where a statement goes on: the unit, and who holds what.
#[derive(Clone, Copy)]
pub(crate) struct Scene<'a> {
    pub unit: u32,
    pub held: &'a Held,
}

/// What is asked of a data set.
#[derive(Clone, Copy)]
pub(crate) struct Candidate {
    pub name: [u8; 44],
    /// The statement doesn't change it.
    pub stays: bool,
    pub extents: usize,
    pub size: u32,
    /// How many of its tracks a release keeps.
    pub keep: u32,
    /// Its volume's serial, and whether its free space isn't stated.
    pub serial: Serial,
    pub repair: bool,
}

/// Whether a statement leaves a data set as it is.
fn stays_for(task: Task, volume: &Volume, row: &Row) -> bool
    ensures { (set : DataSet) → DescribesSet (heads_of volume.now.device) row.now set → (IsTrue result ↔ StaysFor task (heads_of volume.now.device) set) }
{
    let is_pinned = is_pinned(volume.device, row);
    match task {
        Task::Release => is_pinned || !is_sequential_or_partitioned(row),
        Task::Consolidate => is_pinned,
    }
}

/// What is asked of the data set of a name.
pub(crate) fn look_up<P: Pool>(session: &Session<P>, unit: u32, task: Task, name: &Dsn) -> Candidate
    requires may { MayProcess session.now.room session.now.units unit (name.now ∷ []) }
    ensures candidate { IsCandidate task session.now.units unit name.now result }
    ensures seen { ForUnits P.Pool session.now (IsSeen task unit name.now result) }
{
    session.stands();
    let volume = session.volume(unit);
    let Some(place) = find(volume, name) else {
        unreachable!()
    };
    let row = &volume.rows.as_slice()[place];
    Candidate {
        name: row.name,
        stays: stays_for(task, volume, row),
        extents: row.extents.as_slice().len(),
        size: track_count(volume, row),
        keep: kept_tracks(volume.device, row),
        serial: volume.serial,
        repair: volume.repair,
    }
}

/// Whether somebody holds a name, so that it can't be changed.
fn is_held(held: &Held, name: &Dsn) -> bool
    ensures { IsTrue result ↔ IsHeld held.now name.now }
{
    held.conflict(name, true).is_some()
}

/// The reason of a data set, as far as neither a place nor the room in the VTOC is asked.
pub(crate) fn reason_before<P: Pool>(
    session: &mut Session<P>,
    scene: Scene<'_>,
    task: Task,
    name: &Dsn,
    candidate: Candidate,
) -> Result<Option<Reason>, UnitFault>
    requires may { MayProcess session.old.room session.old.units scene.unit (name.now ∷ []) }
    requires candidate { IsCandidate task session.old.units scene.unit name.now candidate }
    requires seen { ForUnits P.Pool session.old (IsSeen task scene.unit name.now candidate) }
    ensures reason { IfOk result (λ found. ForUnits P.Pool session.old (IsReasonBefore task scene.entry.held.now scene.entry.unit name.now found)) }
    ensures stays { IfOk result (λ found. found ≡ None → ¬ IsTrue candidate.stays) }
    ensures run { IsRun P.tells (shown P.Pool session.old.pool) (shown P.Pool session.new.pool) (Unit {0}) [] None }
    ensures same { IsSameSession P.Pool session.old session.new }
    ensures cause { IfErr result (λ fault. fault ≡ UnitFault.Pool → Rose (P.faults session.old.pool) (P.faults session.new.pool)) }
{
    if candidate.stays {
        return Ok(Some(Reason::Pinned));
    }
    if is_held(scene.held, name) {
        return Ok(Some(Reason::Held));
    }
    if !session.has_texts(scene.unit, name)? {
        return Ok(Some(Reason::BadTrack));
    }
    Ok(None)
}
