//! COPY: the data sets of a volume that a filter takes are copied to a volume.

ghost use Rattle.std.specs.Prelude.{◌≡◌, ◌≢◌, ◌↔◌, ℕ, ◌<◌, ◌∷◌, ◌++◌, [], List, All, AllPairs, IsTrue, IfOk, IfErr, OnOk, slice_get, Some};
ghost use Rattle.by_rules.specs.Day.{IsToday};
ghost use Rattle.dsn_filter.specs.Dsn.{IsDsn};
ghost use Rattle.dsn_filter.specs.Rename.{IsRename};
ghost use Rattle.redo_core.specs.Reading.{journal_of};
ghost use Rattle.volume_model.specs.Pinned.{IsNameOf};
ghost use Rattle.volume_model.specs.Unit.{OnlineVolume, online};
ghost use Rattle.vtoc_core.specs.declared.volume.Row.{Row as RowOf};
ghost use Rattle.dump_sets.specs.job_turns.job_copies.unit_steps.Plans.{IsLoadedAt, HasRow};
ghost use Rattle.vtoc_core.specs.declared.volume.Volume.{Volume as VolumeOf};
ghost use Rattle.job_lines.specs.declared.message.Message.{Message as MessageOf};
ghost use Rattle.dump_sets.specs.job_turns.job_copies.job_select.Selection.{Selects};
ghost use Rattle.dump_sets.specs.job_turns.job_steps.declared.cut.Cut.TheVariants as cuts;
ghost use Rattle.job_ops.specs.Transfers.{is_carried, MayTransfer};
ghost use Rattle.job_ops.specs.Copy.{CopiesSet, CopiesSets, IsCutCopy, IsNewName};
ghost use Rattle.job_ops.specs.Copying as spec;
ghost use Rattle.job_ops.specs.Copying.{request_in, MayBeCopied, StaysCopyable, GoesSoFar, IsJudged, MayStandAs};
ghost use Rattle.dump_sets.specs.job_turns.job_steps.Units.{facts_of, ForUnits};
ghost use Rattle.dump_sets.specs.job_turns.Ends.{Ends};
ghost use Rattle.dump_sets.specs.job_turns.Setting.{setting_of};
ghost use Rattle.dump_sets.specs.job_turns.Turns.{Turns, AreCutTurns, IsCutAction};

use crate::transfer::Transfer;
use by_rules::Day;
use ckd_image::NoMemory;
use dasd_pool::Pool;
use dsn_filter::{Dsn, Rename};
use dump_sets::job_turns::job_acts::Acted;
use dump_sets::job_turns::job_copies::job_select::select;
use dump_sets::job_turns::job_copies::step_plans::SetAt;
use dump_sets::job_turns::job_copies::step_room::room_laws;
use dump_sets::job_turns::job_copies::{Copying, Wish};
use dump_sets::job_turns::job_steps::Cut;
use dump_sets::job_turns::job_steps::unit_session::Session;
use dump_sets::job_turns::{Log, UnitUse, push_rebuilt, say, say_all, taken, units_for};
use enq_table::Held;
use free_map::{Runs, choice_laws, run_laws};
use job_lines::{Message, Reason, Severity};
use std::alloc::Global;
use sysin_lang::Filter;
use unit_load::{UnitFault, UnitState};
use vol_label::Serial;
use volume_change::name_bytes;

/// What a COPY asks for.
#[derive(Clone, Copy)]
pub(crate) struct CopyJob<'a> {
    pub filter: &'a Filter,
    pub serial: Serial,
    pub to: Serial,
    pub wish: Wish,
    pub rename: &'a Rename,
    pub held: &'a Held,
    pub today: Day,
}

/// From which unit to which data sets are copied, how they are renamed, and what they are judged by.
#[derive(Clone, Copy)]
struct Scene<'a> {
    from: u32,
    to: u32,
    wish: Wish,
    rename: &'a Rename,
    held: &'a Held,
    today: Day,
}

/// What was judged of a data set: why it isn't copied; or that there are no places for its copy; or whether that takes the place of another, and where it stands.
#[derive(Drop)]
enum Judged {
    Refused(Reason),
    NoPlaces,
    Placed(bool, Runs),
}

/// Judges a data set, but for its tracks and the room in the VTOC.
fn judge<P: Pool>(
    session: &Session<P>,
    scene: Scene<'_>,
    name: &Dsn,
    new: Dsn,
) -> Result<Judged, NoMemory>
    requires may { MayBeCopied scene.wish.delete session.now.room session.now.units scene.from scene.to (name.now ∷ []) }
    requires new { IsDsn new }
    ensures judged { IfOk result (λ judged. ForUnits P.Pool session.now (IsJudged (request_in scene.entry) name.now new judged)) }
    ensures stands { IfOk result (MayStandAs session.now.units scene.entry.from scene.entry.to name.now new) }
{
    session.stands();
    let source = session.volume(scene.from);
    let target = session.volume(scene.to);
    let copying = Copying {
        source,
        target,
        within: scene.from == scene.to,
        name: *name,
        new,
        wish: scene.wish,
    };
    let replaced = match copying.judge(scene.held, scene.today) {
        Ok(replaced) => replaced,
        Err(reason) => return Ok(Judged::Refused(reason)),
    };
    Ok(match copying.places()? {
        Some(runs) => Judged::Placed(replaced, runs),
        None => Judged::NoPlaces,
    })
}

/// Says that a data set isn't copied.
fn not_copied<P: Pool>(
    session: Session<P>,
    log: &mut Log,
    name: &Dsn,
    reason: Reason,
) -> Result<Session<P>, Cut<P>>
    requires { IsDsn name.now }
    ensures steps { log.new.steps ≡ log.old.steps }
    ensures said { IfOk result (λ next. (next ≡ session) × ((text : List ℕ) × IsNameOf name.now text × (log.new.messages.items ≡ log.old.messages.items ++ (Message.NotProcessed text reason Severity.Error ∷ [])))) }
    ensures short { IfErr result (λ cut. (cut ≡ cuts.Short session) × (log.new.messages.items ≡ log.old.messages.items)) }
{
    let message = Message::NotProcessed(name_bytes(name), reason, Severity::Error);
    say(session, &mut log.messages, message)
}

/// Adds that the free space of the volumes was stated that are changed, the lower unit's first.
fn push_all_rebuilt<P: Pool>(
    session: &Session<P>,
    transfer: &Transfer,
    said: &mut Vec<Message>,
) -> Result<(), NoMemory>
    requires from { transfer.now.from.unit < journal_of (P.shape session.now.pool) }
    requires to { transfer.now.to.unit < journal_of (P.shape session.now.pool) }
    ensures { OnOk result (said.new.items ≡ said.old.items ++ spec.rebuilt_for (is_carried transfer.now) session.now.units transfer.now.from.unit transfer.now.to.unit) }
{
    let (from, to) = (transfer.from.unit, transfer.to.unit);
    if !transfer.is_carried() {
        return push_rebuilt(session, to, said);
    }
    if from < to {
        push_rebuilt(session, from, said)?;
        return push_rebuilt(session, to, said);
    }
    push_rebuilt(session, to, said)?;
    push_rebuilt(session, from, said)
}

/// What is said of a data set that was copied.
fn lines<P: Pool>(
    alloc: Global,
    session: &Session<P>,
    transfer: &Transfer,
) -> Result<Vec<Message>, NoMemory>
    requires from { transfer.now.from.unit < journal_of (P.shape session.now.pool) }
    requires to { transfer.now.to.unit < journal_of (P.shape session.now.pool) }
    requires online { (volume : VolumeOf) × IsLoadedAt session.now.units transfer.now.to.unit volume }
    requires names { IsDsn transfer.now.from.name × IsDsn transfer.now.to.name }
    ensures { IfOk result (λ said. spec.AreLines session.now.units transfer.now said.items) }
{
    let SetAt { unit, name } = transfer.to;
    let volume = session.volume(unit);
    let text = name_bytes(&transfer.from.name);
    let told = if name.is_same(&transfer.from.name) {
        None
    } else {
        Some(name_bytes(&name))
    };
    let mut said = Vec::new(alloc);
    push_all_rebuilt(session, transfer, &mut said)?;
    said.push(Message::Copied(text, volume.serial, told))?;
    if transfer.delete {
        said.push(Message::Deleted(text))?;
    }
    Ok(said)
}

/// Puts the copy of a data set that nothing prevents but want of room in a VTOC.
fn put_copy<P: Pool>(
    alloc: Global,
    session: Session<P>,
    scene: Scene<'_>,
    transfer: &Transfer,
    log: &mut Log,
) -> Result<Session<P>, Cut<P>>
    requires from { scene.from < journal_of (P.shape session.pool) }
    requires to { scene.to < journal_of (P.shape session.pool) }
    requires transfer { spec.IsTransferOf scene transfer.now }
    requires may { MayTransfer session.room session.units transfer.now }
    requires there { ForUnits P.Pool session (spec.IsThere (request_in scene) transfer.now.from.name) }
    requires renamed { IsNewName scene.rename.now transfer.now.from.name transfer.now.to.name }
    requires goes { ForUnits P.Pool session (GoesSoFar (request_in scene) transfer.now.from.name transfer.now.to.name) }
    requires replaced { ForUnits P.Pool session (spec.IsReplacedIn (request_in scene) transfer.now.from.name transfer.now.to.name transfer.now.replaced) }
    requires placed { ForUnits P.Pool session (spec.ArePlacedIn (request_in scene) transfer.now.from.name transfer.now.to.name transfer.now.runs) }
    requires texts { ForUnits P.Pool session (spec.HasGoodTexts (request_in scene) transfer.now.from.name transfer.now.to.name) }
    ensures ends { Ends P.Pool (CopiesSet (request_in scene.entry) transfer.now.from.name) (IsCutAction (CopiesSet (request_in scene.entry) transfer.now.from.name)) session
        log.old.steps.items log.new.steps.items log.old.messages.items log.new.messages.items result }
    ensures next { IfOk result (λ next. StaysCopyable scene.entry.wish.delete session.room session.units next.units scene.entry.from scene.entry.to transfer.now.from.name) }
{
    room_laws();
    run_laws();
    choice_laws();
    session.stands();
    let Ok(said) = lines(alloc, &session, transfer) else {
        return Err(Cut::Short(session));
    };
    match transfer.carry_out(alloc, session, &mut log.steps)? {
        Acted::Done(session) => say_all(session, said.as_slice(), log),
        Acted::Full(session) => { not_copied(session, log, &transfer.from.name, Reason::VtocFull) }
    }
}

/// Goes on with a data set that has a text on each of its tracks.
fn go_on<P: Pool>(
    alloc: Global,
    session: Session<P>,
    scene: Scene<'_>,
    name: &Dsn,
    new: Dsn,
    judged: Judged,
    log: &mut Log,
) -> Result<Session<P>, Cut<P>>
    requires from { scene.from < journal_of (P.shape session.pool) }
    requires to { scene.to < journal_of (P.shape session.pool) }
    requires may { MayBeCopied scene.wish.delete session.room session.units scene.from scene.to (name.now ∷ []) }
    requires there { ForUnits P.Pool session (spec.IsThere (request_in scene) name.now) }
    requires renamed { IsNewName scene.rename.now name.now new }
    requires judged { ForUnits P.Pool session (IsJudged (request_in scene) name.now new judged) }
    requires stands { MayStandAs session.units scene.from scene.to name.now new judged }
    requires texts { ForUnits P.Pool session (spec.HasGoodTexts (request_in scene) name.now new) }
    ensures ends { Ends P.Pool (CopiesSet (request_in scene.entry) name.now) (IsCutAction (CopiesSet (request_in scene.entry) name.now)) session
        log.old.steps.items log.new.steps.items log.old.messages.items log.new.messages.items result }
    ensures next { IfOk result (λ next. StaysCopyable scene.entry.wish.delete session.room session.units next.units scene.entry.from scene.entry.to name.now) }
{
    match judged {
        Judged::Refused(reason) => not_copied(session, log, name, reason),
        Judged::NoPlaces => not_copied(session, log, name, Reason::NoSpace),
        Judged::Placed(replaced, runs) => {
            session.stands();
            let transfer = Transfer {
                from: SetAt {
                    unit: scene.from,
                    name: *name,
                },
                to: SetAt {
                    unit: scene.to,
                    name: new,
                },
                runs,
                replaced,
                delete: scene.wish.delete,
            };
            put_copy(alloc, session, scene, &transfer, log)
        }
    }
}

/// Goes on with a data set of which it was judged that nothing prevents it at first.
fn try_copy<P: Pool>(
    alloc: Global,
    session: Session<P>,
    scene: Scene<'_>,
    name: &Dsn,
    new: Dsn,
    judged: Judged,
    log: &mut Log,
) -> Result<Session<P>, Cut<P>>
    requires from { scene.from < journal_of (P.shape session.pool) }
    requires to { scene.to < journal_of (P.shape session.pool) }
    requires may { MayBeCopied scene.wish.delete session.room session.units scene.from scene.to (name.now ∷ []) }
    requires there { ForUnits P.Pool session (spec.IsThere (request_in scene) name.now) }
    requires renamed { IsNewName scene.rename.now name.now new }
    requires judged { ForUnits P.Pool session (IsJudged (request_in scene) name.now new judged) }
    requires stands { MayStandAs session.units scene.from scene.to name.now new judged }
    ensures ends { Ends P.Pool (CopiesSet (request_in scene.entry) name.now) (IsCutAction (CopiesSet (request_in scene.entry) name.now)) session
        log.old.steps.items log.new.steps.items log.old.messages.items log.new.messages.items result }
    ensures next { IfOk result (λ next. StaysCopyable scene.entry.wish.delete session.room session.units next.units scene.entry.from scene.entry.to name.now) }
{
    if let Judged::Refused(reason) = judged {
        return not_copied(session, log, name, reason);
    }
    let mut session = session;
    match session.has_texts(scene.from, name) {
        Ok(true) => go_on(alloc, session, scene, name, new, judged, log),
        Ok(false) => not_copied(session, log, name, Reason::BadTrack),
        Err(UnitFault::Pool) => Err(Cut::Halted(session.into())),
        Err(UnitFault::NoMemory) => Err(Cut::Short(session)),
    }
}

/// The turn of a data set.
fn take_turn<P: Pool>(
    alloc: Global,
    session: Session<P>,
    scene: Scene<'_>,
    name: &Dsn,
    log: &mut Log,
) -> Result<Session<P>, Cut<P>>
    requires from { scene.from < journal_of (P.shape session.pool) }
    requires to { scene.to < journal_of (P.shape session.pool) }
    requires rename { IsRename scene.rename.now }
    requires may { MayBeCopied scene.wish.delete session.room session.units scene.from scene.to (name.now ∷ []) }
    ensures ends { Ends P.Pool (CopiesSet (request_in scene.entry) name.now) (IsCutAction (CopiesSet (request_in scene.entry) name.now)) session
        log.old.steps.items log.new.steps.items log.old.messages.items log.new.messages.items result }
    ensures next { IfOk result (λ next. StaysCopyable scene.entry.wish.delete session.room session.units next.units scene.entry.from scene.entry.to name.now) }
{
    session.stands();
    let Some(new) = scene.rename.apply(name) else {
        return not_copied(session, log, name, Reason::NewNameTooLong);
    };
    match judge(&session, scene, name, new) {
        Ok(judged) => try_copy(alloc, session, scene, name, new, judged, log),
        Err(_) => Err(Cut::Short(session)),
    }
}

/// The turns of data sets, one after the other.
fn take_turns<P: Pool>(
    alloc: Global,
    session: Session<P>,
    scene: Scene<'_>,
    names: &[Dsn],
    log: &mut Log,
) -> Result<Session<P>, Cut<P>>
    requires from { scene.from < journal_of (P.shape session.pool) }
    requires to { scene.to < journal_of (P.shape session.pool) }
    requires rename { IsRename scene.rename.now }
    requires may { MayBeCopied scene.wish.delete session.room session.units scene.from scene.to names.now }
    requires apart { AllPairs (λ name other. name ≢ other) names.now }
    ensures { Ends P.Pool (Turns (facts_of P.Pool session) (CopiesSet (request_in scene.entry)) names.now) (AreCutTurns (facts_of P.Pool session) (CopiesSet (request_in scene.entry)) names.now) session
        log.old.steps.items log.new.steps.items log.old.messages.items log.new.messages.items result }
{
    let mut session = session;
    for name in names {
        session = take_turn(alloc, session, scene, name, log)?;
    }
    Ok(session)
}

/// Whether the volumes of two units are of one device.
fn are_alike<P: Pool>(session: &Session<P>, from: u32, to: u32) -> bool
    requires source { (volume : VolumeOf) × IsLoadedAt session.now.units from volume }
    requires target { (volume : VolumeOf) × IsLoadedAt session.now.units to volume }
    ensures { (source target : VolumeOf) → IsLoadedAt session.now.units from source → IsLoadedAt session.now.units to target → (IsTrue result ↔ (target.device ≡ source.device)) }
{
    let source = session.volume(from);
    let target = session.volume(to);
    target.device == source.device
}

/// Copies each data set that the filter takes.
pub(crate) fn copy<P: Pool>(
    alloc: Global,
    session: Session<P>,
    job: CopyJob<'_>,
    log: &mut Log,
) -> Result<Session<P>, Cut<P>>
    requires today { IsToday job.today }
    requires rename { IsRename job.rename.now }
    ensures { Ends P.Pool (CopiesSets (setting_of P.Pool session job.entry.held.now job.entry.today) job.entry.filter.now job.entry.serial job.entry.to job.entry.wish job.entry.rename.now)
        (IsCutCopy (setting_of P.Pool session job.entry.held.now job.entry.today) job.entry.filter.now job.entry.serial job.entry.to job.entry.wish job.entry.rename.now) session
        log.old.steps.items log.new.steps.items log.old.messages.items log.new.messages.items result }
{
    let source = UnitUse {
        serial: job.serial,
        changes: job.wish.delete,
    };
    let target = UnitUse {
        serial: job.to,
        changes: true,
    };
    let (from, to) = match units_for(&session, source, target) {
        Ok(units) => units,
        Err(message) => return say(session, &mut log.messages, message),
    };
    if !are_alike(&session, from, to) {
        return say(session, &mut log.messages, Message::UnlikeDevices);
    }
    let Ok(names) = taken(alloc, &session, from, job.filter, job.today) else {
        return Err(Cut::Short(session));
    };
    if names.is_empty() {
        return say(session, &mut log.messages, Message::NothingSelected);
    }
    let scene = Scene {
        from,
        to,
        wish: job.wish,
        rename: job.rename,
        held: job.held,
        today: job.today,
    };
    take_turns(alloc, session, scene, &names, log)
}
