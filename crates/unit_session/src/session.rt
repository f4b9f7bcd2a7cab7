//! Volumes over an open journal.

ghost use Rattle.std.specs.Prelude.{◌≡◌, ◌⊎◌, ◌≤◌, ◌<◌, ℕ, false, [], None, Some, List, length, slice_get, IfOk, IfErr, OnOk, IsErr};
ghost use Rattle.ckd_image.specs.Head.{IsHead, IsHeadFault};
ghost use Rattle.dasd_pool.specs.Calls.{size_in};
ghost use Rattle.dasd_pool.specs.Count.{Rose};
ghost use Rattle.dasd_pool.specs.Disk.{Runs, none};
ghost use Rattle.redo_core.specs.Faults.{IsOpenFault, MayOpen};
ghost use Rattle.redo_core.specs.Opening.{AreNames, of_opening};
ghost use Rattle.redo_core.specs.Reading.{journal_of};
ghost use Rattle.volume_model.specs.Unit.{UnitModel};
ghost use Rattle.move_core.specs.Facts.{Facts, shown};
ghost use Rattle.move_core.specs.Runs.{IsFinished, IsRun};
ghost use Rattle.move_core.specs.Stands.{Stands, IsSettled};
ghost use Rattle.unit_load.specs.Kept.{IsKept};
ghost use Rattle.unit_load.specs.Reads.{OnlyReads};
ghost use Rattle.unit_load.specs.declared.state.UnitState.{UnitState as StateOf};
ghost use Rattle.unit_steps.specs.Loaded.{AreLoaded, HaveFills, HaveStates, KeepVtocs, AreVtocsOf, AreModels, IsModel};
ghost use Rattle.standing_units.specs.Standing.{IsSettledFor};
ghost use Rattle.unit_steps.specs.Plans.{IsLoadedAt};
ghost use Rattle.unit_session.specs.Sessions.{begun, AreParts, HasBegun, IsRefusal, IsSameSession, IsSession};
ghost use Rattle.vtoc_core.specs.declared.volume.Volume.{Volume as VolumeOf};

use crate::copies::{Source, volume_at};
use crate::load::{LoadedUnits, load_units};
use ckd_image::{Bytes, CkdFault, Head};
use dasd_pool::{Pool, PoolFault};
use redo_core::{Journal, JournalFault, JournalStop};
use std::alloc::{AllocError, Global};
use std::marker::Model;
use unit_load::{UnitFault, UnitState};
use vol_label::Serial;
use vtoc_core::Volume;

/// The volumes of a pool between two steps: its open journal, in which no slide is open, the registered serials, and each unit as it was loaded, with
/// the slots of its VTOC; and the data set of which each track was last seen to have a text, while nothing was written since.
#[derive(Drop)]
pub struct Session<P: Pool> {
    pub(crate) alloc: Global,
    pub(crate) journal: Journal<P>,
    pub(crate) names: Vec<Serial>,
    pub(crate) units: Vec<UnitState>,
    pub(crate) vtocs: Vec<Bytes>,
    pub(crate) seen: Option<Source>,
}

impl<P: Pool> Model for Session<P> {
    ghost use Rattle.unit_session.specs.Sessions.{SessionView, IsSession};

    ghost Value = { SessionView P };

    ghost view = { λ s. record { pool = s.journal.pool; room = s.journal.room; names = s.names.items; units = s.units.items; vtocs = s.vtocs.items } };

    ghost invariant = { λ s. IsSession P.Pool s.journal s.names.items s.units.items s.vtocs.items s.seen };
}

/// What a session is made of.
#[derive(Drop)]
pub struct SessionParts<P: Pool> {
    pub alloc: Global,
    pub journal: Journal<P>,
    pub names: Vec<Serial>,
    pub units: Vec<UnitState>,
    pub vtocs: Vec<Bytes>,
}

/// Copies of serials.
fn copied(alloc: Global, names: &[Serial]) -> Result<Vec<Serial>, AllocError>
    ensures { IfOk result (λ copies. copies.items ≡ names.now) }
{
    let mut copies = Vec::new(alloc);
    copies.extend_from_slice(names)?;
    Ok(copies)
}

/// What a journal answers where a unit was not read.
fn cause_of(fault: UnitFault) -> JournalFault
    ensures pool { result ≡ JournalFault.Pool → fault ≡ UnitFault.Pool }
    ensures told { fault ≡ UnitFault.Pool → result ≡ JournalFault.Pool }
    ensures no_refusal { ¬ IsRefusal result }
{
    match fault {
        UnitFault::Pool => JournalFault::Pool,
        UnitFault::NoMemory => JournalFault::NoMemory,
    }
}

/// The registered serials and the units of an open journal.
fn loaded<P: Pool>(
    alloc: Global,
    journal: &mut Journal<P>,
    names: &[Serial],
) -> Result<(Vec<Serial>, LoadedUnits), JournalFault>
    ensures reads { OnlyReads P.Pool journal.old journal.new }
    ensures names { IfOk result (λ found. found.0.items ≡ names.now) }
    ensures count { IfOk result (λ found. HaveStates (P.shape journal.old.pool) found.1.units.items) }
    ensures kept { IfOk result (λ found. KeepVtocs (P.shape journal.old.pool) found.1.units.items found.1.vtocs.items) }
    ensures loaded { P.tells → IfOk result (λ found. AreLoaded (P.shape journal.old.pool) (P.disk journal.old.pool).state.contents found.1.units.items) }
    ensures slots { P.tells → IfOk result (λ found. AreVtocsOf (P.disk journal.old.pool).state.contents found.1.units.items found.1.vtocs.items) }
    ensures fills { IfOk result (λ found. HaveFills journal.old.fills found.1.units.items) }
    ensures cause { IfErr result (λ cause. cause ≡ JournalFault.Pool → Rose (P.faults journal.old.pool) (P.faults journal.new.pool)) }
    ensures no_refusal { IfErr result (λ cause. ¬ IsRefusal cause) }
{
    let Ok(names) = copied(alloc, names) else {
        return Err(JournalFault::NoMemory);
    };
    match load_units(alloc, journal) {
        Ok(units) => Ok((names, units)),
        Err(fault) => Err(cause_of(fault)),
    }
}

impl<P: Pool> Session<P> {
    /// Opens the journal of a pool that a stop may have left, under these serials, and loads each unit. It is refused as the opening is, or because
    /// a unit was not read.
    pub fn begin(alloc: Global, pool: P, names: &[Serial]) -> Result<Session<P>, JournalStop<P>>
        requires { AreNames (P.shape pool) names.now }
        ensures run { IsRun P.tells (shown P.Pool pool) (shown P.Pool (begun result)) (HasBegun result) [] None }

        // The units are those that the pool stands for, and the slots of their VTOCs are its slots.
        ensures units { P.tells → IfOk result (λ session. (facts : Facts) (models : List UnitModel) → facts.shape ≡ P.shape session.pool
            → IsSettled facts (P.disk session.pool).state models → AreModels session.units models) }
        ensures vtocs { P.tells → IfOk result (λ session. AreVtocsOf (P.disk session.pool).state.contents session.units session.vtocs) }
        ensures names { IfOk result (λ session. session.names ≡ names.now) }
        ensures room { IfOk result (λ session. 3 ≤ session.room) }

        // There are units for which it is settled, whatever the blocks of its volumes are.
        ensures settled { P.tells → IfOk result (λ session. IsSettledFor (P.shape session.pool) names.now (P.disk session.pool).state) }

        // The units for which a pool stood are those for which it is settled then, since the opening syncs all of it.
        ensures stands { P.tells → IfOk result (λ session. (facts : Facts) (models : List UnitModel) → facts.shape ≡ P.shape pool
            → Stands facts (P.disk pool).state.contents models → IsSettled facts (P.disk session.pool).state models) }

        // What never changes of the pool is what its registration says.
        ensures facts { P.tells → IfOk result (λ session. (facts : Facts) (models : List UnitModel) → facts.shape ≡ P.shape session.pool
            → IsSettled facts (P.disk session.pool).state models → facts ≡ record { shape = P.shape session.pool; names = session.names; room = session.room; inputs = facts.inputs }) }

        // Another opening would have nothing to write.
        ensures closed { P.tells → IfOk result (λ session. IsFinished (P.shape session.pool) (P.disk session.pool).state.contents) }

        // A refusal names the first cause that stands against the opening, and at no moment was anything written; nor was it where memory or the
        // pool failed before all causes were known not to stand.
        ensures allowed { P.tells → OnOk result (MayOpen (P.shape pool) (P.disk pool).state.contents names.now) }
        ensures refused { P.tells → IfErr result (λ stop. IsOpenFault (P.shape pool) (P.disk pool).state.contents names.now stop.cause) }
        ensures unwritten { P.tells → IfErr result (λ stop. IsRefusal stop.cause → Runs none (P.disk pool) (P.disk stop.pool)) }
        ensures careful { P.tells → IfErr result (λ stop. MayOpen (P.shape pool) (P.disk pool).state.contents names.now ⊎ Runs none (P.disk pool) (P.disk stop.pool)) }
        ensures runs { P.tells → Runs (of_opening (journal_of (P.shape pool)) (P.disk pool).state.contents) (P.disk pool) (P.disk (begun result)) }
    {
        let mut journal = match Journal::open_units(alloc, pool, names) {
            Ok(journal) => journal,
            Err(stop) => return Err(stop),
        };
        match loaded(alloc, &mut journal, names) {
            Ok((names, found)) => Ok(Session {
                alloc,
                journal,
                names,
                units: found.units,
                vtocs: found.vtocs,
                seen: None,
            }),
            Err(cause) => Err(JournalStop {
                pool: journal.into_pool(),
                cause,
            }),
        }
    }

    /// How many units there are, the journal's not counted.
    pub fn units(&self) -> u32
        ensures value { result ≡ journal_of (P.shape self.now.pool) }
        ensures names { length self.now.names ≡ result }
        ensures states { length self.now.units ≡ result }
        ensures models { P.tells → (facts : Facts) (models : List UnitModel) → facts.shape ≡ P.shape self.now.pool
            → IsSettled facts (P.disk self.now.pool).state models → AreModels self.now.units models }
        ensures vtocs { P.tells → AreVtocsOf (P.disk self.now.pool).state.contents self.now.units self.now.vtocs }
    {
        self.journal.rests();
        self.journal.units()
    }

    /// The registered serial of a unit.
    pub fn name(&self, unit: u32) -> Serial
        requires { unit < journal_of (P.shape self.now.pool) }
        ensures { slice_get self.now.names unit ≡ Some result }
    {
        self.names[unit as usize]
    }

    /// How many blocks a commit may have.
    pub fn room(&self) -> u32
        ensures value { result ≡ self.now.room }
        ensures least { 3 ≤ result }
    {
        self.journal.room()
    }

    /// The head of a unit.
    pub fn head(&self, unit: u32) -> Result<Head, CkdFault>
        requires { unit < journal_of (P.shape self.now.pool) }
        ensures read { IfOk result (λ found. IsHead ((P.shape self.now.pool).head unit) ((P.shape self.now.pool).blocks unit) found.device
            × (found.tracks ≡ (P.shape self.now.pool).blocks unit)) }
        ensures refused { IfErr result (IsHeadFault ((P.shape self.now.pool).head unit) ((P.shape self.now.pool).blocks unit)) }
    {
        Head::read(&self.journal.head(unit), self.journal.blocks(unit))
    }

    /// How many tracks a unit has.
    pub fn blocks(&self, unit: u32) -> u32
        requires { unit < journal_of (P.shape self.now.pool) }
        ensures { result ≡ (P.shape self.now.pool).blocks unit }
    {
        self.journal.blocks(unit)
    }

    /// The bytes of each slot of a unit.
    pub fn block_size(&self, unit: u32) -> u32
        requires { unit < journal_of (P.shape self.now.pool) }
        ensures value { result ≡ (P.shape self.now.pool).block_size unit }
        ensures fits { result ≤ 65536 }
        ensures said { result ≡ size_in ((P.shape self.now.pool).head unit) }
    {
        self.journal.block_size(unit)
    }

    /// A unit, as it was loaded: what the pool stands for.
    pub fn unit(&self, unit: u32) -> &UnitState
        requires { unit < journal_of (P.shape self.now.pool) }
        ensures value { slice_get self.now.units unit ≡ Some result.now }
        ensures kept { (slots : List ℕ) × IsKept false ((P.shape self.now.pool).head unit) ((P.shape self.now.pool).blocks unit) result.now slots }
        ensures model { P.tells → (facts : Facts) (models : List UnitModel) (model : UnitModel) → facts.shape ≡ P.shape self.now.pool
            → IsSettled facts (P.disk self.now.pool).state models → slice_get models unit ≡ Some model → IsModel result.now model }
    {
        self.journal.rests();
        &self.units[unit as usize]
    }

    /// What stands of its units: each was loaded from the slots of its VTOC, and is what the pool stands for.
    pub fn stands(&self)
        ensures kept { (unit : ℕ) (state : StateOf) → slice_get self.now.units unit ≡ Some state
            → (slots : List ℕ) × IsKept false ((P.shape self.now.pool).head unit) ((P.shape self.now.pool).blocks unit) state slots }
        ensures models { P.tells → (facts : Facts) (models : List UnitModel) → facts.shape ≡ P.shape self.now.pool
            → IsSettled facts (P.disk self.now.pool).state models → AreModels self.now.units models }
    {
        self.journal.rests();
    }

    /// The volume of a unit that is online.
    pub fn volume(&self, unit: u32) -> &Volume
        requires { (volume : VolumeOf) × IsLoadedAt self.now.units unit volume }
        ensures { IsLoadedAt self.now.units unit result.now }
    {
        let Some(volume) = volume_at(&self.units, unit) else {
            unreachable!()
        };
        volume
    }

    /// Reads the slot of a track.
    pub fn read_slot(&mut self, unit: u32, track: u32, buf: &mut [u8]) -> Result<(), PoolFault>
        requires unit { unit < journal_of (P.shape self.old.pool) }
        requires track { track < (P.shape self.old.pool).blocks unit }
        requires size { length buf.old ≡ (P.shape self.old.pool).block_size unit }
        ensures bytes { P.tells → OnOk result (buf.new ≡ (P.disk self.old.pool).state.contents unit track) }
        ensures run { IsRun P.tells (shown P.Pool self.old.pool) (shown P.Pool self.new.pool) (Unit {0}) [] None }
        ensures writes { P.tells → Runs none (P.disk self.old.pool) (P.disk self.new.pool) }
        ensures cause { IsErr result → Rose (P.faults self.old.pool) (P.faults self.new.pool) }
        ensures same { IsSameSession P.Pool self.old self.new }
    {
        self.journal.read(unit, track, buf)
    }

    /// The parts of a session.
    pub fn into_parts(self) -> SessionParts<P>
        ensures parts { AreParts self result }
        ensures session { IsSession P.Pool result.journal result.names.items result.units.items result.vtocs.items None }
    {
        let Session {
            alloc,
            journal,
            names,
            units,
            vtocs,
            ..
        } = self;
        SessionParts {
            alloc,
            journal,
            names,
            units,
            vtocs,
        }
    }

    /// A session of parts that are those of one.
    pub fn from_parts(parts: SessionParts<P>) -> Session<P>
        requires { IsSession P.Pool parts.journal parts.names.items parts.units.items parts.vtocs.items None }
        ensures { AreParts result parts }
    {
        let SessionParts {
            alloc,
            journal,
            names,
            units,
            vtocs,
        } = parts;
        Session {
            alloc,
            journal,
            names,
            units,
            vtocs,
            seen: None,
        }
    }

    /// The pool alone.
    pub fn into_pool(self) -> P
        ensures { result ≡ self.pool }
    {
        let Session { journal, .. } = self;
        journal.into_pool()
    }
}
