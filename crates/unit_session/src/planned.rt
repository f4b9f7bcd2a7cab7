//! A step that is planned, and carried out in two calls.

ghost use Rattle.std.specs.Prelude.{◌≡◌, ◌↔◌, ◌<◌, [], None, Some, length, All, IsTrue, IfOk, IfErr, OnOk, IsErr};
ghost use Rattle.ckd_image.specs.Device.{slot_of};
ghost use Rattle.ckd_image.specs.Track.{IsTrack};
ghost use Rattle.dasd_pool.specs.Count.{Rose};
ghost use Rattle.dasd_pool.specs.Disk.{IsSynced, LeavesOnly, Runs, none};
ghost use Rattle.move_core.specs.Facts.{Original, shown};
ghost use Rattle.move_core.specs.Runs.{AreCalls, IsRun, IsRunFor, Ended};
ghost use Rattle.redo_core.specs.Phases.{of_commit};
ghost use Rattle.redo_core.specs.Reading.{journal_of};
ghost use Rattle.vtoc_layout.specs.Layout.{AreDistinct};
ghost use Rattle.unit_load.specs.Reads.{OnlyReads};
ghost use Rattle.unit_steps.specs.Plans.{IsOfUnits, IsPlan};
ghost use Rattle.unit_steps.specs.Rendering.{WereRendered, entries_of, units_after};
ghost use Rattle.unit_session.specs.Sessions.{IsSameSession};
ghost use Rattle.unit_session.specs.declared.copies.Copies.{Copies as CopiesOf};
ghost use Rattle.unit_session.specs.Copies.{AreCopiesOf, OnCopies, MayCopy, HaveTexts, IsLookFault, OnlyWrites, CopiesLeave, IsShortFor, contents_of, may_write_for};
ghost use Rattle.unit_session.specs.Given.{AreGivenOf, AreNotBoth, FitsAt, GivesAt, IsGivenAt, OnGiven, count_given, is_given};
ghost use Rattle.unit_session.specs.Texts.{IsSeen};
ghost use Rattle.unit_session.specs.Planned.{pool_planned, pool_copied, pool_given, pool_switched, done_by, pending_by, HoldsOriginal, IsMadeOf, IsPlanFault, IsKeptAs, MayBegin, MayWriteAll, IsReady, SparesUnchanged};

use crate::copies::{Copies, GivenTracks, Source, copies_of, given_of};
use crate::copying::{look_at_texts, place_copies};
use crate::fault::{Broken, PlanFault, PlanStop};
use crate::giving::write_given;
use crate::patching::{patched, renewed};
use crate::rendering::{bar_of, entries_for, render_all};
use crate::session::Session;
use ckd_image::Track;
use dasd_pool::{Pool, PoolFault};
use redo_core::{Entries, Journal};
use std::alloc::Global;
use std::marker::Model;
use unit_steps::vtoc_render::Rendered;
use unit_steps::{Plan, Tracks};
use volume_change::Change;

/// A session and a plan of which all is ready: nothing is written, and no memory is taken any more.
#[derive(Drop)]
pub struct Planned<P: Pool> {
    session: Session<P>,
    plan: Plan,
    work: Work,
}

/// A planned step whose new tracks hold their texts, so that one commit makes it. All that was written is durable.
#[derive(Drop)]
pub struct Copied<P: Pool> {
    session: Session<P>,
    plan: Plan,
    rendered: Vec<Rendered>,
    entries: Entries,
}

/// What a plan needs: its copies or the tracks that the caller gives, with room for a slot, its rendered changes, and their entries.
#[derive(Drop)]
struct Work {
    copies: Option<Copies>,
    given: Option<GivenTracks>,
    slot: Vec<u8>,
    rendered: Vec<Rendered>,
    entries: Entries,
}

impl<P: Pool> Model for Planned<P> {
    ghost use Rattle.unit_session.specs.Planned.{PlannedView, IsReady};

    ghost Value = { PlannedView P };

    ghost view = { λ p. record { session = p.session; plan = p.plan; copies = p.work.copies; given = p.work.given; rendered = p.work.rendered.items; entries = p.work.entries.blocks } };

    ghost invariant = { λ p. IsReady P.Pool (record { session = p.session; plan = p.plan; copies = p.work.copies; given = p.work.given; rendered = p.work.rendered.items; entries = p.work.entries.blocks })
        p.work.slot.items p.work.entries.control };
}

impl<P: Pool> Model for Copied<P> {
    ghost use Rattle.unit_session.specs.Planned.{CopiedView, MaySwitch};

    ghost Value = { CopiedView P };

    ghost view = { λ c. record { session = c.session; plan = c.plan; rendered = c.rendered.items; entries = c.entries.blocks } };

    ghost invariant = { λ c. MaySwitch P.Pool (record { session = c.session; plan = c.plan; rendered = c.rendered.items; entries = c.entries.blocks }) c.entries.control };
}

/// How many bytes the slots have that are copied or given.
fn size_for(copies: &Option<Copies>, given: &Option<GivenTracks>) -> u32
    requires { AreNotBoth copies.now given.now }
    ensures copied { OnCopies (λ some. result ≡ slot_of some.device) copies.now }
    ensures given { OnGiven (λ some. result ≡ slot_of some.device) given.now }
{
    if let Some(copies) = copies {
        return copies.device.slot();
    }
    match given {
        Some(given) => given.device.slot(),
        None => 0,
    }
}

/// Room for a slot that is copied or given.
fn slot_for(
    alloc: Global,
    copies: &Option<Copies>,
    given: &Option<GivenTracks>,
) -> Result<Vec<u8>, PlanFault>
    requires { AreNotBoth copies.now given.now }
    ensures size { IfOk result (λ slot. OnCopies (λ some. length slot.items ≡ slot_of some.device) copies.now) }
    ensures given { IfOk result (λ slot. OnGiven (λ some. length slot.items ≡ slot_of some.device) given.now) }
    ensures fault { IfErr result (λ fault. fault ≡ PlanFault.NoMemory) }
{
    let size = size_for(copies, given);
    match vec![in alloc; 0u8; size as usize] {
        Ok(slot) => Ok(slot),
        Err(_) => Err(PlanFault::NoMemory),
    }
}

/// Asks whether each unit that changes name may be written.
fn ask_units<P: Pool>(journal: &mut Journal<P>, changes: &[(u32, Change)]) -> Result<(), PlanFault>
    requires { All (λ change. change.0 < journal_of (P.shape journal.old.pool)) changes.now }
    ensures reads { OnlyReads P.Pool journal.old journal.new }
    ensures writable { OnOk result (MayWriteAll (P.shape journal.old.pool) changes.now) }
    ensures fault { IfErr result (λ fault. (fault ≡ PlanFault.Pool) × Rose (P.faults journal.old.pool) (P.faults journal.new.pool)) }
{
    for (unit, _) in changes {
        let Ok(()) = journal.ask_to_write(*unit) else {
            return Err(PlanFault::Pool);
        };
    }
    Ok(())
}

/// Looks whether each track that is to be copied has a text, if there are any.
fn look_at_any<P: Pool>(
    journal: &mut Journal<P>,
    copies: &Option<Copies>,
    slot: &mut [u8],
) -> Result<(), PlanFault>
    requires may { OnCopies (MayCopy (P.shape journal.old.pool)) copies.now }
    requires size { OnCopies (λ some. length slot.old ≡ slot_of some.device) copies.now }
    ensures reads { OnlyReads P.Pool journal.old journal.new }
    ensures size { length slot.new ≡ length slot.old }
    ensures texts { P.tells → OnOk result (OnCopies (HaveTexts (contents_of P.Pool journal.old)) copies.now) }
    ensures fault { IfErr result (λ fault. (some : CopiesOf) × (copies.now ≡ Some some) × IsLookFault P.Pool journal.old.pool journal.new.pool some fault) }
{
    match copies {
        Some(copies) => look_at_texts(journal, copies, slot),
        None => Ok(()),
    }
}

/// Whether the data set of a plan's texts is the one that was seen.
fn is_seen(seen: &Option<Source>, tracks: &Tracks) -> bool
    ensures { IsTrue result ↔ IsSeen seen.now tracks.now }
{
    match (seen, tracks) {
        (Some(source), Tracks::Rows { unit, name }) => {
            source.unit == *unit && source.name.is_same(name)
        }
        _ => false,
    }
}

/// Looks whether each track that is to be copied has a text, where it was not seen before.
fn look_unless_seen<P: Pool>(
    journal: &mut Journal<P>,
    seen: &Option<Source>,
    tracks: &Tracks,
    copies: &Option<Copies>,
    slot: &mut [u8],
) -> Result<(), PlanFault>
    requires may { OnCopies (MayCopy (P.shape journal.old.pool)) copies.now }
    requires size { OnCopies (λ some. length slot.old ≡ slot_of some.device) copies.now }
    requires seen { P.tells → IsSeen seen.now tracks.now → OnCopies (HaveTexts (contents_of P.Pool journal.old)) copies.now }
    ensures reads { OnlyReads P.Pool journal.old journal.new }
    ensures size { length slot.new ≡ length slot.old }
    ensures texts { P.tells → OnOk result (OnCopies (HaveTexts (contents_of P.Pool journal.old)) copies.now) }
    ensures fault { IfErr result (λ fault. (some : CopiesOf) × (copies.now ≡ Some some) × IsLookFault P.Pool journal.old.pool journal.new.pool some fault) }
{
    if is_seen(seen, tracks) {
        return Ok(());
    }
    look_at_any(journal, copies, slot)
}

impl<P: Pool> Session<P> {
    /// Makes a step ready: nothing is written. The plan is refused where a volume that it changes has an index, or a VTOC of more tracks than half of
    /// what a commit may have less one; where a track to be copied has no text; where a VTOC has no room; or, as a fault of the pool, where a unit that
    /// it changes may not be written.
    pub fn plan(self, plan: Plan) -> Result<Planned<P>, PlanStop<P>>
        requires { IsPlan self.units plan }
        ensures run { IsRun P.tells (shown P.Pool self.pool) (shown P.Pool (pool_planned result)) (Unit {0}) [] None }
        ensures writes { P.tells → Runs none (P.disk self.pool) (P.disk (pool_planned result)) }
        ensures session { IfOk result (λ planned. IsSameSession P.Pool self planned.session) }
        ensures plan { IfOk result (λ planned. planned.plan ≡ plan) }
        ensures allowed { IfOk result (λ planned. MayBegin self.room self.units plan.changes) }
        ensures rendered { IfOk result (λ planned. WereRendered self.units self.vtocs plan.changes planned.rendered) }
        ensures writable { IfOk result (λ planned. MayWriteAll (P.shape planned.session.pool) plan.changes) }

        // The copies are those of its tracks, each of which has a text.
        ensures copies { IfOk result (λ planned. AreCopiesOf self.units plan.tracks plan.changes planned.copies) }
        ensures texts { P.tells → IfOk result (λ planned. OnCopies (HaveTexts (P.disk planned.session.pool).state.contents) planned.copies) }

        // The given tracks are those of the row that its change puts.
        ensures given { IfOk result (λ planned. AreGivenOf self.units plan.tracks plan.changes planned.given) }
        ensures refused { IfErr result (IsKeptAs P.Pool self (λ kept. IsPlanFault P.Pool self plan kept.pool)) }
    {
        let mut session = self;
        match session.prepare(&plan) {
            Ok(work) => Ok(Planned {
                session,
                plan,
                work,
            }),
            Err(fault) => Err(PlanStop::Kept(session, fault)),
        }
    }

    /// All that a plan needs.
    fn prepare(&mut self, plan: &Plan) -> Result<Work, PlanFault>
        requires { IsPlan self.old.units plan.now }
        ensures run { IsRun P.tells (shown P.Pool self.old.pool) (shown P.Pool self.new.pool) (Unit {0}) [] None }
        ensures writes { P.tells → Runs none (P.disk self.old.pool) (P.disk self.new.pool) }
        ensures session { IsSameSession P.Pool self.old self.new }
        ensures ready { IfOk result (λ work. IsReady P.Pool (record { session = self.new; plan = plan.now; copies = work.copies; given = work.given; rendered = work.rendered.items; entries = work.entries.blocks })
            work.slot.items work.entries.control) }
        ensures allowed { OnOk result (MayBegin self.old.room self.old.units plan.now.changes) }
        ensures fault { IfErr result (IsPlanFault P.Pool self.old plan.now self.new.pool) }
    {
        let changes = plan.changes.as_slice();
        if let Some(fault) = bar_of(self.journal.room(), &self.units, changes) {
            return Err(fault);
        }
        self.journal.sizes();
        let copies = copies_of(self.alloc, &self.units, plan)?;
        let given = given_of(self.alloc, &self.units, plan)?;
        let mut slot = slot_for(self.alloc, &copies, &given)?;
        look_unless_seen(
            &mut self.journal,
            &self.seen,
            &plan.tracks,
            &copies,
            &mut slot,
        )?;
        let rendered = render_all(self.alloc, &self.units, &self.vtocs, changes)?;
        let entries = entries_for(self.alloc, changes, &rendered)?;
        // A unit is asked last, so that another cause is told first also where it may only be read.
        ask_units(&mut self.journal, changes)?;
        Ok(Work {
            copies,
            given,
            slot,
            rendered,
            entries,
        })
    }
}

/// Makes copies, if there are any.
fn place_any<P: Pool>(
    alloc: Global,
    journal: &mut Journal<P>,
    copies: &Option<Copies>,
    slot: &mut [u8],
) -> Result<(), PoolFault>
    requires may { OnCopies (MayCopy (P.shape journal.old.pool)) copies.now }
    requires size { OnCopies (λ some. length slot.old ≡ slot_of some.device) copies.now }
    ensures writes { OnlyWrites P.Pool (may_write_for copies.now) journal.old journal.new }
    ensures copied { P.tells → OnOk result (CopiesLeave (contents_of P.Pool journal.old) (contents_of P.Pool journal.new) copies.now) }
    ensures short { P.tells → OnOk result (OnCopies (IsShortFor (P.shape journal.old.pool) (contents_of P.Pool journal.new)) copies.now) }
    ensures cause { IsErr result → Rose (P.faults journal.old.pool) (P.faults journal.new.pool) }
{
    match copies {
        Some(copies) => {
            place_copies(alloc, journal, copies, slot)?;
            journal.sizes();
            Ok(())
        }
        None => Ok(()),
    }
}

/// Makes copies, if there are any, and all that was written durable.
fn make_copies<P: Pool>(
    alloc: Global,
    journal: &mut Journal<P>,
    copies: &Option<Copies>,
    slot: &mut [u8],
) -> Result<(), PoolFault>
    requires may { OnCopies (MayCopy (P.shape journal.old.pool)) copies.now }
    requires size { OnCopies (λ some. length slot.old ≡ slot_of some.device) copies.now }
    ensures writes { OnlyWrites P.Pool (may_write_for copies.now) journal.old journal.new }
    ensures copied { P.tells → OnOk result (CopiesLeave (contents_of P.Pool journal.old) (contents_of P.Pool journal.new) copies.now) }
    ensures short { P.tells → OnOk result (OnCopies (IsShortFor (P.shape journal.old.pool) (contents_of P.Pool journal.new)) copies.now) }
    ensures synced { P.tells → OnOk result (IsSynced (P.disk journal.new.pool).state) }
    ensures cause { IsErr result → Rose (P.faults journal.old.pool) (P.faults journal.new.pool) }
{
    place_any(alloc, journal, copies, slot)?;
    journal.sync()
}

impl<P: Pool> Planned<P> {
    /// How many tracks the caller gives, which are those of the plan's new row.
    pub fn to_give(&self) -> u32
        ensures count { result ≡ count_given self.now.given }
        ensures of_plan { IsPlan self.now.session.units self.now.plan }
        ensures given { AreGivenOf self.now.session.units self.now.plan.tracks self.now.plan.changes self.now.given }
        ensures once { OnGiven (λ given. AreDistinct given.tracks.items) self.now.given }
    {
        match &self.work.given {
            Some(given) => given.tracks.len() as u32,
            None => 0,
        }
    }

    /// Writes the text of a given track, past the journal. Another text for the track takes the place of the first. No memory is taken.
    pub fn give(self, index: u32, track: &Track) -> Result<Planned<P>, Broken<P>>
        requires place { GivesAt self.given index }
        requires track { IsTrack track.now }
        requires fits { FitsAt self.given index track.now }
        ensures run { AreCalls P.tells (shown P.Pool self.session.pool) (shown P.Pool (pool_given result)) (Ended result) [] None }
        ensures writes { P.tells → Runs (is_given self.given index) (P.disk self.session.pool) (P.disk (pool_given result)) }
        ensures text { P.tells → IfOk result (λ next. IsGivenAt self.given index track.now (P.disk next.session.pool).state.contents) }
        ensures plan { IfOk result (λ next. next.plan ≡ self.plan) }
        ensures copies { IfOk result (λ next. next.copies ≡ self.copies) }
        ensures given { IfOk result (λ next. next.given ≡ self.given) }
        ensures rendered { IfOk result (λ next. next.rendered ≡ self.rendered) }
        ensures entries { IfOk result (λ next. next.entries ≡ self.entries) }
        ensures session { IfOk result (λ next. (next.session.room ≡ self.session.room) × (next.session.names ≡ self.session.names)
            × (next.session.units ≡ self.session.units) × (next.session.vtocs ≡ self.session.vtocs)) }
        ensures pending { IfErr result (λ broken. broken.pending ≡ Some self.plan.step) }
    {
        let Planned {
            session,
            plan,
            work,
        } = self;
        let Session {
            alloc,
            journal,
            names,
            units,
            vtocs,
            ..
        } = session;
        let mut journal = journal;
        let mut work = work;
        // What was seen is forgotten with the first write.
        let seen = None;
        journal.rests();
        match write_given(&mut journal, &work.given, index, track, &mut work.slot) {
            Ok(()) => Ok(Planned {
                session: Session {
                    alloc,
                    journal,
                    names,
                    units,
                    vtocs,
                    seen,
                },
                plan,
                work,
            }),
            Err(_) => {
                let pending = Some(plan.step);
                Err(Broken {
                    pool: journal.into_pool(),
                    pending,
                })
            }
        }
    }

    /// Copies texts to the new tracks, past the journal, and makes them durable with one sync, also where there are none. Where that fails, the step is
    /// under way: some of its tracks may be written, on which nothing rests, so that the units stand as before.
    pub fn copy(self) -> Result<Copied<P>, Broken<P>>
        ensures run { AreCalls P.tells (shown P.Pool self.session.pool) (shown P.Pool (pool_copied result)) (Ended result) [] None }
        ensures writes { P.tells → Runs (may_write_for self.copies) (P.disk self.session.pool) (P.disk (pool_copied result)) }

        // The copies are those of the plan's tracks, onto tracks of a volume.
        ensures of_plan { IsPlan self.session.units self.plan }
        ensures copies { AreCopiesOf self.session.units self.plan.tracks self.plan.changes self.copies }
        ensures may { OnCopies (MayCopy (P.shape self.session.pool)) self.copies }
        ensures writable { MayWriteAll (P.shape self.session.pool) self.plan.changes }
        ensures plan { IfOk result (λ next. next.plan ≡ self.plan) }
        ensures rendered { IfOk result (λ next. next.rendered ≡ self.rendered) }
        ensures entries { IfOk result (λ next. next.entries ≡ self.entries) }
        ensures session { IfOk result (λ next. (next.session.room ≡ self.session.room) × (next.session.names ≡ self.session.names)
            × (next.session.units ≡ self.session.units) × (next.session.vtocs ≡ self.session.vtocs)) }

        // Each text stands on its new track, the others are empty, all else is as it was, and a stop leaves it so.
        ensures copied { P.tells → IfOk result (λ next. CopiesLeave (P.disk self.session.pool).state.contents (P.disk next.session.pool).state.contents self.copies) }
        ensures synced { P.tells → IfOk result (λ next. IsSynced (P.disk next.session.pool).state) }
        ensures pending { IfErr result (λ broken. broken.pending ≡ Some self.plan.step) }
    {
        let Planned {
            session,
            plan,
            work,
        } = self;
        let Session {
            alloc,
            journal,
            names,
            units,
            vtocs,
            ..
        } = session;
        let mut journal = journal;
        let mut slot = work.slot;
        // What was seen is forgotten with the first write.
        let seen = None;
        journal.rests();
        match make_copies(alloc, &mut journal, &work.copies, &mut slot) {
            Ok(()) => Ok(Copied {
                session: Session {
                    alloc,
                    journal,
                    names,
                    units,
                    vtocs,
                    seen,
                },
                plan,
                rendered: work.rendered,
                entries: work.entries,
            }),
            Err(_) => Err(Broken {
                pool: journal.into_pool(),
                pending: Some(plan.step),
            }),
        }
    }

    /// Leaves the step undone. Nothing was written, but for given texts, on which nothing rests.
    pub fn abandon(self) -> Session<P>
        ensures { result ≡ self.session }
    {
        let Planned { session, .. } = self;
        session
    }
}

impl<P: Pool> Copied<P> {
    /// Makes the step, by one commit of the tracks of VTOCs that it changes.
    pub fn switch(self) -> Result<Session<P>, Broken<P>>
        ensures run { IsOfUnits self.plan.step
            → IsRun P.tells (shown P.Pool self.session.pool) (shown P.Pool (pool_switched result)) (Ended result) (done_by self.plan.step result) (pending_by self.plan.step result) }

        // The step of a part is one wherever an input holds what its tracks hold.
        ensures part { (original : Original) → IsMadeOf P.Pool self original
            → IsRunFor (HoldsOriginal self.plan.step original) P.tells (shown P.Pool self.session.pool) (shown P.Pool (pool_switched result)) (Ended result) (done_by self.plan.step result) (pending_by self.plan.step result) }

        // Blocks of the journal are written, and those of the entries. Each is another slot than its block holds, so that a stop leaves every block of a
        // volume that stays the same with its bytes.
        ensures writes { P.tells → Runs (of_commit (journal_of (P.shape self.session.pool)) self.entries) (P.disk self.session.pool) (P.disk (pool_switched result)) }
        ensures spared { P.tells → LeavesOnly (P.disk self.session.pool) (P.disk (pool_switched result))
            (SparesUnchanged (P.shape self.session.pool) (P.disk self.session.pool).state.contents self.entries) }
        ensures entries { self.entries ≡ entries_of self.plan.changes self.rendered }

        ensures plan { IsPlan self.session.units self.plan }
        ensures rendered { WereRendered self.session.units self.session.vtocs self.plan.changes self.rendered }
        ensures units { IfOk result (λ session. session.units ≡ units_after self.session.units self.plan.changes self.rendered) }
        ensures session { IfOk result (λ session. (session.room ≡ self.session.room) × (session.names ≡ self.session.names)) }
        ensures pending { IfErr result (λ broken. broken.pending ≡ Some self.plan.step) }
    {
        let Copied {
            session,
            plan,
            rendered,
            entries,
        } = self;
        let Session {
            alloc,
            journal,
            names,
            units,
            vtocs,
            ..
        } = session;
        let Plan { step, changes, .. } = plan;
        journal.rests();
        match journal.commit(entries) {
            Ok(journal) => {
                let vtocs = patched(&units, changes.as_slice(), &rendered, vtocs);
                let units = renewed(changes.as_slice(), rendered, units);
                Ok(Session {
                    alloc,
                    journal,
                    names,
                    units,
                    vtocs,
                    seen: None,
                })
            }
            Err(stop) => Err(Broken {
                pool: stop.pool,
                pending: Some(step),
            }),
        }
    }
}
