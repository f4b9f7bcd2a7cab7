//! The journal of a pool, between two commits.

ghost use Rattle.std.specs.Prelude.{◌≡◌, ◌≢◌, ◌⊎◌, ◌≤◌, ◌<◌, ℕ, [], AllPairs, length, ◌==◌, IsTrue, IfOk, IfErr, OnOk};
ghost use Rattle.std.specs.Int.{bit_at};
ghost use Rattle.dasd_pool.specs.Calls.{size_in};
ghost use Rattle.dasd_pool.specs.Count.{Rose, HasCause};
ghost use Rattle.dasd_pool.specs.Disk.{Image, LeavesOnly, Runs, IsSynced, none, is_at};
ghost use Rattle.redo_core.specs.declared.control.Control.TheVariants.{Idle};
ghost use Rattle.redo_core.specs.Reading.{journal_of, fills_of, IsLawful};
ghost use Rattle.redo_core.specs.Steps.{IsJournal, of_making};
ghost use Rattle.redo_core.specs.Phases.{targets, of_commit, TakeWrites, AreEntries, IsAtRest, IsStatusAfter, OldOrNew, IsCommitted};
ghost use Rattle.redo_core.specs.Statuses.{AreVolumes, HasFour, control_alone, entries_at};
ghost use Rattle.redo_core.specs.Opening.{AreNames, IsFormatted, IsOpened, MakingLeaves, ReadsSame, SparesVolumes, of_opening};
ghost use Rattle.redo_core.specs.Faults.{IsFormatFault, IsOpenFault, MayFormat, MayOpen};
ghost use Rattle.redo_core.specs.Stops.{pool_after, pool_of, IsStatusOf};

use crate::commit::apply;
use crate::control::Control;
use crate::entries::{Entries, Entry, say, spare_for};
use crate::fault::JournalFault;
use crate::format::format_on;
use crate::opening::open_on;
use crate::status::{Status, status_after};
use dasd_pool::{Pool, PoolFault};
use std::alloc::{AllocError, Global};
use std::marker::Model;
use vol_label::Serial;

/// Where a call stopped: its pool is handed back.
#[derive(Drop)]
pub struct JournalStop<P> {
    pub pool: P,
    pub cause: JournalFault,
}

/// A pool whose journal is at rest. A commit changes its volumes through the journal, and `write` past it.
#[derive(Drop)]
pub struct Journal<P: Pool> {
    pool: P,
    unit: u32,
    room: u32,
    control: Control,
    fills: [bool; 64],
    buffer: Vec<u8>,
    spare: [Entry; 1], // for the control block, so that its commit takes no memory
}

impl<P: Pool> Model for Journal<P> {
    ghost use Rattle.std.specs.Prelude.{◌≡◌, ◌≤◌, length};
    ghost use Rattle.redo_core.specs.Format.{wide};
    ghost use Rattle.redo_core.specs.Phases.{IsAtRest};
    ghost use Rattle.redo_core.specs.Statuses.{IsSpare};
    ghost use Rattle.redo_core.specs.Steps.{IsJournal};
    ghost use Rattle.redo_core.specs.Opening.{AreNames, IsFormatted, IsOpened, MakingLeaves, ReadsSame, SparesVolumes};
    ghost use Rattle.redo_core.specs.Faults.{IsFormatFault, IsOpenFault, MayFormat, MayOpen};
    ghost use Rattle.redo_core.specs.Stops.{JournalView};

    ghost Value = { JournalView P };

    ghost view = { λ j. record { pool = j.pool; room = j.room; control = j.control; fills = j.fills } };

    ghost invariant = { λ j. IsJournal (P.shape j.pool) j.unit j.room × (3 ≤ j.room) × (length j.buffer.items ≡ wide) × IsSpare j.unit j.spare
        × (P.tells → IsAtRest (P.shape j.pool) (P.disk j.pool).state j.room j.control j.fills) };
}

/// A bit for each of these volumes of which a fill is open.
fn bits_of(fills: &[bool; 64], volumes: u32) -> u64
    requires { volumes ≤ 64 }
    ensures volumes { AreVolumes volumes result }
    ensures flags { (u : ℕ) → u < volumes → (bit_at result u == 1) ≡ fills_of fills.now u }
{
    let mut filling = 0;
    for unit in 0..volumes {
        if fills[unit as usize] {
            filling |= 1 << unit;
        }
    }
    filling
}

fn zeros(alloc: Global, len: usize) -> Result<Vec<u8>, AllocError>
    ensures { IfOk result (λ v. length v.items ≡ len) }
{
    vec![in alloc; 0; len]
}

impl<P: Pool> Journal<P> {
    /// Makes a journal of the last unit. The volumes are not written.
    pub fn format(
        alloc: Global,
        mut pool: P,
        names: &[Serial],
        room: u32,
    ) -> Result<P, JournalStop<P>>
        requires names { AreNames (P.shape pool) names.now }
        requires least { 3 ≤ room }
        requires most { room ≤ 8191 }
        ensures shape { P.shape (pool_of result) ≡ P.shape pool }
        ensures formatted { P.tells → IfOk result (λ new. IsFormatted (P.shape pool) (P.disk pool).state names.now room (P.disk new).state) }

        // It is made only where nothing stands against it. A refusal names the first cause, and at no moment was anything written; nor was it
        // where a block can't be read before all causes are known not to stand.
        ensures allowed { P.tells → OnOk result (MayFormat (P.shape pool) (P.disk pool).state.contents names.now room) }
        ensures refused { P.tells → IfErr result (λ stop. IsFormatFault (P.shape pool) (P.disk pool).state.contents names.now room stop.cause) }
        ensures unwritten { P.tells → IfErr result (λ stop. (stop.cause ≡ JournalFault.Pool → ⊥) → (P.disk stop.pool).state ≡ (P.disk pool).state) }
        ensures untouched { P.tells → IfErr result (λ stop. (stop.cause ≡ JournalFault.Pool → ⊥) → Runs none (P.disk pool) (P.disk stop.pool)) }
        ensures careful { P.tells → IfErr result (λ stop. MayFormat (P.shape pool) (P.disk pool).state.contents names.now room ⊎ Runs none (P.disk pool) (P.disk stop.pool)) }

        // At every moment, whatever the answer. Written are at most blocks of the journal.
        ensures runs { P.tells → Runs (of_making (journal_of (P.shape pool))) (P.disk pool) (P.disk (pool_of result)) }
        ensures any_moment { P.tells → LeavesOnly (P.disk pool) (P.disk (pool_of result)) (SparesVolumes (P.shape pool) (P.disk pool).state) }
        ensures left { P.tells → LeavesOnly (P.disk pool) (P.disk (pool_of result)) (MakingLeaves (P.shape pool) (P.disk pool).state) }
        ensures faults { P.faults pool ≤ P.faults (pool_of result) }
        ensures cause { IfErr result (λ stop. stop.cause ≡ JournalFault.Pool → Rose (P.faults pool) (P.faults stop.pool)) }
    {
        let unit = pool.units() - 1;
        let Ok(mut buffer) = zeros(alloc, 65_536) else {
            return Err(JournalStop {
                pool,
                cause: JournalFault::NoMemory,
            });
        };
        match format_on(alloc, &mut pool, unit, names, room, &mut buffer) {
            Ok(()) => Ok(pool),
            Err(cause) => Err(JournalStop { pool, cause }),
        }
    }

    /// Opens the journal of a pool that a stop may have left: puts an open body in place and closes the gate.
    pub fn open_units(
        alloc: Global,
        mut pool: P,
        names: &[Serial],
    ) -> Result<Journal<P>, JournalStop<P>>
        requires { AreNames (P.shape pool) names.now }
        ensures shape { P.shape (pool_after result) ≡ P.shape pool }

        // It reads as it did, under these names, and all is synced.
        ensures opened { P.tells → IfOk result (λ journal.
            IsOpened (P.shape pool) (P.disk pool).state names.now journal.room journal.control journal.fills (P.disk journal.pool).state) }

        // The journal is at rest then, a commit may have three entries at least, and no slide is open.
        ensures rest { P.tells → IfOk result (λ journal. IsAtRest (P.shape pool) (P.disk journal.pool).state journal.room journal.control journal.fills) }
        ensures room { IfOk result (λ journal. 3 ≤ journal.room) }
        ensures idle { IfOk result (λ journal. journal.control ≡ Idle) }

        // It opens only where nothing stands against it. A refusal names the first cause, and at no moment was anything written; nor was it
        // where a block can't be read before all causes are known not to stand.
        ensures allowed { P.tells → OnOk result (MayOpen (P.shape pool) (P.disk pool).state.contents names.now) }
        ensures refused { P.tells → IfErr result (λ stop. IsOpenFault (P.shape pool) (P.disk pool).state.contents names.now stop.cause) }
        ensures unwritten { P.tells → IfErr result (λ stop. (stop.cause ≡ JournalFault.Pool → ⊥) → Runs none (P.disk pool) (P.disk stop.pool)) }
        ensures careful { P.tells → IfErr result (λ stop. MayOpen (P.shape pool) (P.disk pool).state.contents names.now ⊎ Runs none (P.disk pool) (P.disk stop.pool)) }

        // At every moment, whatever the answer. Written are at most the gate and the targets of an open body.
        ensures runs { P.tells → Runs (of_opening (journal_of (P.shape pool)) (P.disk pool).state.contents) (P.disk pool) (P.disk (pool_after result)) }
        ensures any_moment { P.tells → LeavesOnly (P.disk pool) (P.disk (pool_after result)) (ReadsSame (P.shape pool) (P.disk pool).state) }
        ensures faults { P.faults pool ≤ P.faults (pool_after result) }
        ensures cause { IfErr result (λ stop. stop.cause ≡ JournalFault.Pool → Rose (P.faults pool) (P.faults stop.pool)) }
    {
        let unit = pool.units() - 1;
        let Ok(mut buffer) = zeros(alloc, 65_536) else {
            return Err(JournalStop {
                pool,
                cause: JournalFault::NoMemory,
            });
        };
        let Ok(spare) = spare_for(alloc, unit) else {
            return Err(JournalStop {
                pool,
                cause: JournalFault::NoMemory,
            });
        };
        match open_on(alloc, &mut pool, unit, names, &mut buffer) {
            Ok(found) => {
                let room = found.room;
                let control = found.control;
                let fills = found.fills;
                Ok(Journal {
                    pool,
                    unit,
                    room,
                    control,
                    fills,
                    buffer,
                    spare,
                })
            }
            Err(cause) => Err(JournalStop { pool, cause }),
        }
    }

    /// The blocks read as this value says, behind a closed gate.
    pub fn rests(&self)
        ensures { P.tells → IsAtRest (P.shape self.now.pool) (P.disk self.now.pool).state self.now.room self.now.control self.now.fills }
    {
        let _ = &self.pool;
    }

    /// The slide that is open, as the control block says.
    pub fn control(&self) -> Control
        ensures { result ≡ self.now.control }
    {
        self.control
    }

    /// How many entries a commit may have.
    pub fn room(&self) -> u32
        ensures value { result ≡ self.now.room }
        ensures least { 3 ≤ result }
        ensures fits { IsJournal (P.shape self.now.pool) (journal_of (P.shape self.now.pool)) self.now.room }
    {
        self.room
    }

    /// Whether a fill of a volume is open.
    pub fn filling(&self, unit: u32) -> bool
        requires { unit < journal_of (P.shape self.now.pool) }
        ensures { result ≡ fills_of self.now.fills unit }
    {
        self.fills[unit as usize]
    }

    /// A bit for each volume of which a fill is open, as `commit_control` and `Entries::push_control` take them.
    pub fn fills(&self) -> u64
        ensures volumes { AreVolumes (journal_of (P.shape self.now.pool)) result }
        ensures flags { (u : ℕ) → u < journal_of (P.shape self.now.pool) → (bit_at result u == 1) ≡ fills_of self.now.fills u }
    {
        bits_of(&self.fills, self.unit)
    }

    /// How many volumes there are.
    pub fn units(&self) -> u32
        ensures { result ≡ journal_of (P.shape self.now.pool) }
    {
        self.unit
    }

    /// The head of a volume.
    pub fn head(&self, unit: u32) -> [u8; 512]
        requires { unit < journal_of (P.shape self.now.pool) }
        ensures { result ≡ (P.shape self.now.pool).head unit }
    {
        self.pool.head(unit)
    }

    /// The bytes of each block of a volume, which its head says. What is told of a block has so many.
    pub fn block_size(&self, unit: u32) -> u32
        requires { unit < journal_of (P.shape self.now.pool) }
        ensures value { result ≡ (P.shape self.now.pool).block_size unit }
        ensures fits { result ≤ 65536 }
        ensures said { result ≡ size_in ((P.shape self.now.pool).head unit) }
        ensures whole { P.tells → (b : ℕ) → b < (P.shape self.now.pool).blocks unit → length ((P.disk self.now.pool).state.contents unit b) ≡ result }
    {
        self.pool.block_size(unit)
    }

    /// What holds of the sizes of all volumes. Nothing is done.
    pub fn sizes(&self)
        ensures said { (u : ℕ) → u < journal_of (P.shape self.now.pool) → (P.shape self.now.pool).block_size u ≡ size_in ((P.shape self.now.pool).head u) }
        ensures fits { (u : ℕ) → u < journal_of (P.shape self.now.pool) → (P.shape self.now.pool).block_size u ≤ 65536 }
        ensures whole { P.tells → (u b : ℕ) → u < journal_of (P.shape self.now.pool) → b < (P.shape self.now.pool).blocks u
            → length ((P.disk self.now.pool).state.contents u b) ≡ (P.shape self.now.pool).block_size u }
    {
        self.pool.sizes();
    }

    /// How many blocks a volume has.
    pub fn blocks(&self, unit: u32) -> u32
        requires { unit < journal_of (P.shape self.now.pool) }
        ensures { result ≡ (P.shape self.now.pool).blocks unit }
    {
        self.pool.blocks(unit)
    }

    /// Reads a block of a volume.
    pub fn read(&mut self, unit: u32, block: u32, buf: &mut [u8]) -> Result<(), PoolFault>
        requires unit { unit < journal_of (P.shape self.old.pool) }
        requires block { block < (P.shape self.old.pool).blocks unit }
        requires size { length buf.old ≡ (P.shape self.old.pool).block_size unit }
        ensures shape { P.shape self.new.pool ≡ P.shape self.old.pool }
        ensures bytes { P.tells → OnOk result (buf.new ≡ (P.disk self.old.pool).state.contents unit block) }
        ensures same { P.tells → (P.disk self.new.pool).state ≡ (P.disk self.old.pool).state }
        ensures runs { P.tells → Runs none (P.disk self.old.pool) (P.disk self.new.pool) }
        ensures status { IsStatusOf self.old self.new }
        ensures rest { P.tells → IsAtRest (P.shape self.new.pool) (P.disk self.new.pool).state self.new.room self.new.control self.new.fills }
        ensures cause { HasCause (P.faults self.old.pool) (P.faults self.new.pool) result }
    {
        self.pool.read(unit, block, buf)
    }

    /// Asks whether a volume may be written, before anything is begun that would end there. Where it may not, that is a fault.
    pub fn ask_to_write(&mut self, unit: u32) -> Result<(), PoolFault>
        requires { unit < journal_of (P.shape self.old.pool) }
        ensures shape { P.shape self.new.pool ≡ P.shape self.old.pool }
        ensures may { OnOk result (IsTrue ((P.shape self.old.pool).may_write unit)) }
        ensures same { P.tells → (P.disk self.new.pool).state ≡ (P.disk self.old.pool).state }
        ensures runs { P.tells → Runs none (P.disk self.old.pool) (P.disk self.new.pool) }
        ensures status { IsStatusOf self.old self.new }
        ensures rest { P.tells → IsAtRest (P.shape self.new.pool) (P.disk self.new.pool).state self.new.room self.new.control self.new.fills }
        ensures cause { HasCause (P.faults self.old.pool) (P.faults self.new.pool) result }
    {
        self.pool.ask_to_write(unit)
    }

    /// Writes a block of a volume, past the journal: until the next sync a stop may leave any bytes there.
    pub fn write(&mut self, unit: u32, block: u32, buf: &[u8]) -> Result<(), PoolFault>
        requires unit { unit < journal_of (P.shape self.old.pool) }
        requires block { block < (P.shape self.old.pool).blocks unit }
        requires size { length buf.now ≡ (P.shape self.old.pool).block_size unit }
        ensures shape { P.shape self.new.pool ≡ P.shape self.old.pool }
        ensures written { P.tells → OnOk result ((P.disk self.new.pool).state.contents unit block ≡ buf.now) }
        ensures runs { P.tells → Runs (is_at unit block) (P.disk self.old.pool) (P.disk self.new.pool) }
        ensures status { IsStatusOf self.old self.new }
        ensures rest { P.tells → IsAtRest (P.shape self.new.pool) (P.disk self.new.pool).state self.new.room self.new.control self.new.fills }
        ensures cause { HasCause (P.faults self.old.pool) (P.faults self.new.pool) result }
    {
        self.pool.write(unit, block, buf)
    }

    /// Makes the writes so far durable.
    pub fn sync(&mut self) -> Result<(), PoolFault>
        ensures shape { P.shape self.new.pool ≡ P.shape self.old.pool }
        ensures synced { P.tells → OnOk result (IsSynced (P.disk self.new.pool).state) }
        ensures runs { P.tells → Runs none (P.disk self.old.pool) (P.disk self.new.pool) }
        ensures status { IsStatusOf self.old self.new }
        ensures rest { P.tells → IsAtRest (P.shape self.new.pool) (P.disk self.new.pool).state self.new.room self.new.control self.new.fills }
        ensures cause { HasCause (P.faults self.old.pool) (P.faults self.new.pool) result }
    {
        self.pool.sync()
    }

    /// The pool alone.
    pub fn into_pool(self) -> P
        ensures { result ≡ self.pool }
    {
        let Journal { pool, .. } = self;
        pool
    }

    /// Puts the entries in place, all or none of them.
    pub fn commit(self, entries: Entries) -> Result<Journal<P>, JournalStop<P>>
        requires room { length (entries_at (journal_of (P.shape self.pool)) entries) ≤ self.room }
        requires each { AreEntries (P.shape self.pool) entries }
        requires apart { AllPairs (λ one other. one ≢ other) (targets entries.blocks) }
        ensures shape { P.shape (pool_after result) ≡ P.shape self.pool }

        // At every moment the blocks read as before or with all entries in place.
        ensures any_moment { P.tells → LeavesOnly (P.disk self.pool) (P.disk (pool_after result))
            (OldOrNew (P.shape self.pool) (P.disk self.pool).state (entries_at (journal_of (P.shape self.pool)) entries)) }
        ensures each_image { P.tells → (image : Image) → (P.disk (pool_after result)).left_since (P.disk self.pool).moment image
            → OldOrNew (P.shape self.pool) (P.disk self.pool).state (entries_at (journal_of (P.shape self.pool)) entries) image }
        ensures runs { P.tells → Runs (of_commit (journal_of (P.shape self.pool)) (entries_at (journal_of (P.shape self.pool)) entries)) (P.disk self.pool) (P.disk (pool_after result)) }

        // With no entries nothing is written.
        ensures still { P.tells → entries_at (journal_of (P.shape self.pool)) entries ≡ [] → Runs none (P.disk self.pool) (P.disk (pool_after result)) }

        // Where one of the units may not be written, nothing is.
        ensures may { OnOk result (TakeWrites (P.shape self.pool) (entries_at (journal_of (P.shape self.pool)) entries)) }
        ensures careful { P.tells → TakeWrites (P.shape self.pool) (entries_at (journal_of (P.shape self.pool)) entries) ⊎ Runs none (P.disk self.pool) (P.disk (pool_after result)) }
        ensures rest { P.tells → IfOk result (λ journal. IsAtRest (P.shape self.pool) (P.disk journal.pool).state journal.room journal.control journal.fills) }
        ensures committed { P.tells → IfOk result (λ journal. IsCommitted (P.shape self.pool) (P.disk self.pool).state
            (entries_at (journal_of (P.shape self.pool)) entries) (P.disk journal.pool).state) }
        ensures same { IfOk result (λ journal. journal.room ≡ self.room) }
        ensures status { IfOk result (λ journal. IsStatusAfter (P.shape self.pool) (entries_at (journal_of (P.shape self.pool)) entries) self.control self.fills journal.control journal.fills) }
        ensures faults { P.faults self.pool ≤ P.faults (pool_after result) }
        ensures cause { IfErr result (λ stop. (stop.cause ≡ JournalFault.Pool) × Rose (P.faults self.pool) (P.faults stop.pool)) }
    {
        let Journal {
            mut pool,
            unit,
            room,
            control,
            fills,
            mut buffer,
            spare,
        } = self;
        let before = Status { control, fills };
        let all = entries.into_list(unit);
        let list = all.as_slice();
        let after = status_after(&pool, unit, list, before);
        match apply(&mut pool, unit, &mut buffer, list) {
            Ok(()) => {
                let control = after.control;
                let fills = after.fills;
                Ok(Journal {
                    pool,
                    unit,
                    room,
                    control,
                    fills,
                    buffer,
                    spare,
                })
            }
            Err(_) => Err(JournalStop {
                pool,
                cause: JournalFault::Pool,
            }),
        }
    }

    /// Puts what is under way in place, and nothing else: bit u of `filling`, that a fill of volume u is open. It takes no memory.
    pub fn commit_control(
        self,
        control: Control,
        filling: u64,
    ) -> Result<Journal<P>, JournalStop<P>>
        requires lawful { IsLawful (P.shape self.pool) control }
        requires volumes { AreVolumes (journal_of (P.shape self.pool)) filling }
        ensures fits { HasFour control }
        ensures shape { P.shape (pool_after result) ≡ P.shape self.pool }

        // At every moment the blocks read as before or with the control block in place.
        ensures any_moment { P.tells → LeavesOnly (P.disk self.pool) (P.disk (pool_after result))
            (OldOrNew (P.shape self.pool) (P.disk self.pool).state (control_alone (journal_of (P.shape self.pool)) control filling)) }
        ensures each_image { P.tells → (image : Image) → (P.disk (pool_after result)).left_since (P.disk self.pool).moment image
            → OldOrNew (P.shape self.pool) (P.disk self.pool).state (control_alone (journal_of (P.shape self.pool)) control filling) image }
        ensures runs { P.tells → Runs (of_commit (journal_of (P.shape self.pool)) (control_alone (journal_of (P.shape self.pool)) control filling)) (P.disk self.pool) (P.disk (pool_after result)) }

        // Where one of the units may not be written, nothing is.
        ensures may { OnOk result (TakeWrites (P.shape self.pool) (control_alone (journal_of (P.shape self.pool)) control filling)) }
        ensures careful { P.tells → TakeWrites (P.shape self.pool) (control_alone (journal_of (P.shape self.pool)) control filling) ⊎ Runs none (P.disk self.pool) (P.disk (pool_after result)) }
        ensures rest { P.tells → IfOk result (λ journal. IsAtRest (P.shape self.pool) (P.disk journal.pool).state journal.room journal.control journal.fills) }
        ensures committed { P.tells → IfOk result (λ journal. IsCommitted (P.shape self.pool) (P.disk self.pool).state
            (control_alone (journal_of (P.shape self.pool)) control filling) (P.disk journal.pool).state) }
        ensures same { IfOk result (λ journal. journal.room ≡ self.room) }
        ensures status { IfOk result (λ journal. IsStatusAfter (P.shape self.pool) (control_alone (journal_of (P.shape self.pool)) control filling) self.control self.fills journal.control journal.fills) }
        ensures says { IfOk result (λ journal. (journal.control ≡ control) × ((u : ℕ) → u < journal_of (P.shape self.pool) → fills_of journal.fills u ≡ (bit_at filling u == 1))) }
        ensures faults { P.faults self.pool ≤ P.faults (pool_after result) }
        ensures cause { IfErr result (λ stop. (stop.cause ≡ JournalFault.Pool) × Rose (P.faults self.pool) (P.faults stop.pool)) }
    {
        let Journal {
            mut pool,
            unit,
            room,
            control: open,
            fills,
            mut buffer,
            mut spare,
        } = self;
        say(&mut spare, unit, control, filling);
        let before = Status {
            control: open,
            fills,
        };
        let list = spare.as_slice();
        let after = status_after(&pool, unit, list, before);
        match apply(&mut pool, unit, &mut buffer, list) {
            Ok(()) => {
                let control = after.control;
                let fills = after.fills;
                Ok(Journal {
                    pool,
                    unit,
                    room,
                    control,
                    fills,
                    buffer,
                    spare,
                })
            }
            Err(_) => Err(JournalStop {
                pool,
                cause: JournalFault::Pool,
            }),
        }
    }
}
