//! The steps of a commit, over a pool that is lent.

ghost use Rattle.std.specs.Prelude.{◌≡◌, ◌≢◌, ◌⊎◌, ◌<◌, ◌≤◌, ◌+◌, ℕ, List, [], Bool, All, AllPairs, length, OnOk};
ghost use Rattle.dasd_pool.specs.Count.{HasCause};
ghost use Rattle.dasd_pool.specs.Disk.{Image, IsSynced, LeavesOnly, Runs, none};
ghost use Rattle.redo_core.specs.declared.control.Control.{Control};
ghost use Rattle.redo_core.specs.Format.{wide, room_in};
ghost use Rattle.redo_core.specs.Reading.{journal_of, among, placed, body_for};
ghost use Rattle.redo_core.specs.Phases.{targets, of_body, of_commit, TakeWrites, MayGo, IsAtRest, IsStatusAfter, OldOrNew, IsCommitted};
ghost use Rattle.redo_core.specs.Looks.{OnlyLooks};
ghost use Rattle.redo_core.specs.Steps.{IsJournal, IsPlaced, IsShut, HasEntries, HoldsEither, IsDone};

use crate::blocks::{put_block, put_directory, set_gate};
use crate::entries::Entry;
use dasd_pool::{Pool, PoolFault};

/// Asks whether each unit that the entries name may be written.
fn ask<P: Pool>(pool: &mut P, journal: u32, entries: &[Entry]) -> Result<(), PoolFault>
    requires journal { IsJournal (P.shape pool.old) journal (length entries.now) }
    requires entries { All (IsPlaced (P.shape pool.old) journal) entries.now }
    ensures looks { OnlyLooks P.Pool pool.old pool.new }
    ensures may { OnOk result (TakeWrites (P.shape pool.old) entries.now) }
    ensures cause { HasCause (P.faults pool.old) (P.faults pool.new) result }
{
    for entry in entries {
        pool.ask_to_write(entry.unit)?;
    }
    Ok(())
}

/// Writes the images of the body.
fn stage<P: Pool>(
    pool: &mut P,
    journal: u32,
    buffer: &mut [u8],
    entries: &[Entry],
) -> Result<(), PoolFault>
    requires journal { IsJournal (P.shape pool.old) journal (length entries.now) }
    requires size { length buffer.old ≡ wide }
    requires entries { All (IsPlaced (P.shape pool.old) journal) entries.now }
    ensures shape { P.shape pool.new ≡ P.shape pool.old }
    ensures images { P.tells → OnOk result (body_for (P.shape pool.old).block_size journal (P.disk pool.new).state.contents (targets entries.now) ≡ entries.now) }
    ensures runs { P.tells → Runs (of_body journal (length entries.now)) (P.disk pool.old) (P.disk pool.new) }
    ensures cause { HasCause (P.faults pool.old) (P.faults pool.new) result }
{
    let mut next = 4u32;
    for entry in entries {
        let size = pool.block_size(entry.unit) as usize;
        put_block(pool, journal, next, buffer, &entry.slot.as_slice()[..size])?;
        next += 1;
    }
    Ok(())
}

/// Writes the body, and syncs it.
fn put_body<P: Pool>(
    pool: &mut P,
    journal: u32,
    buffer: &mut [u8],
    entries: &[Entry],
) -> Result<(), PoolFault>
    requires journal { IsJournal (P.shape pool.old) journal (length entries.now) }
    requires size { length buffer.old ≡ wide }
    requires entries { All (IsPlaced (P.shape pool.old) journal) entries.now }
    ensures shape { P.shape pool.new ≡ P.shape pool.old }
    ensures body { P.tells → OnOk result (HasEntries (P.shape pool.old).block_size journal (P.disk pool.new).state.contents entries.now) }
    ensures synced { P.tells → OnOk result (IsSynced (P.disk pool.new).state) }
    ensures runs { P.tells → Runs (of_body journal (length entries.now)) (P.disk pool.old) (P.disk pool.new) }
    ensures cause { HasCause (P.faults pool.old) (P.faults pool.new) result }
{
    stage(pool, journal, buffer, entries)?;
    put_directory(buffer, entries);
    pool.write(journal, 3, buffer)?;
    pool.sync()?; // before the gate opens
    Ok(())
}

/// Writes the body, and syncs it. Nothing is written where an entry names a unit that may not be written.
fn write_body<P: Pool>(
    pool: &mut P,
    journal: u32,
    buffer: &mut [u8],
    entries: &[Entry],
) -> Result<(), PoolFault>
    requires journal { IsJournal (P.shape pool.old) journal (length entries.now) }
    requires size { length buffer.old ≡ wide }
    requires entries { All (IsPlaced (P.shape pool.old) journal) entries.now }
    ensures shape { P.shape pool.new ≡ P.shape pool.old }
    ensures body { P.tells → OnOk result (HasEntries (P.shape pool.old).block_size journal (P.disk pool.new).state.contents entries.now) }
    ensures synced { P.tells → OnOk result (IsSynced (P.disk pool.new).state) }
    ensures runs { P.tells → Runs (of_body journal (length entries.now)) (P.disk pool.old) (P.disk pool.new) }
    ensures may { OnOk result (TakeWrites (P.shape pool.old) entries.now) }
    ensures careful { P.tells → TakeWrites (P.shape pool.old) entries.now ⊎ Runs none (P.disk pool.old) (P.disk pool.new) }
    ensures cause { HasCause (P.faults pool.old) (P.faults pool.new) result }
{
    ask(pool, journal, entries)?;
    put_body(pool, journal, buffer, entries)
}

/// Writes the targets, and syncs them.
fn place<P: Pool>(pool: &mut P, journal: u32, entries: &[Entry]) -> Result<(), PoolFault>
    requires journal { IsJournal (P.shape pool.old) journal (length entries.now) }
    requires entries { All (IsPlaced (P.shape pool.old) journal) entries.now }
    ensures shape { P.shape pool.new ≡ P.shape pool.old }
    ensures placed { P.tells → OnOk result ((u b : ℕ) → (P.disk pool.new).state.contents u b ≡ placed (P.disk pool.old).state.contents entries.now u b) }
    ensures synced { P.tells → OnOk result (IsSynced (P.disk pool.new).state) }
    ensures runs { P.tells → Runs (among (targets entries.now)) (P.disk pool.old) (P.disk pool.new) }
    ensures cause { HasCause (P.faults pool.old) (P.faults pool.new) result }
{
    for entry in entries {
        pool.write(entry.unit, entry.block, entry.slot.as_slice())?;
    }
    pool.sync()?; // before the gate closes
    Ok(())
}

/// Writes the body, opens the gate, writes the targets and closes the gate.
fn apply_steps<P: Pool>(
    pool: &mut P,
    journal: u32,
    buffer: &mut [u8],
    entries: &[Entry],
) -> Result<(), PoolFault>
    requires journal { IsJournal (P.shape pool.old) journal (length entries.now) }
    requires size { length buffer.old ≡ wide }
    requires entries { All (IsPlaced (P.shape pool.old) journal) entries.now }
    requires some { 1 ≤ length entries.now }
    requires shut { P.tells → IsShut journal (P.disk pool.old).state }
    ensures shape { P.shape pool.new ≡ P.shape pool.old }
    ensures any_moment { P.tells → LeavesOnly (P.disk pool.old) (P.disk pool.new)
        (HoldsEither (P.shape pool.old).block_size journal (P.disk pool.old).state entries.now) }
    ensures runs { P.tells → Runs (of_commit journal entries.now) (P.disk pool.old) (P.disk pool.new) }
    ensures done { P.tells → OnOk result (IsDone journal (P.disk pool.old).state entries.now (P.disk pool.new).state) }
    ensures may { OnOk result (TakeWrites (P.shape pool.old) entries.now) }
    ensures careful { P.tells → TakeWrites (P.shape pool.old) entries.now ⊎ Runs none (P.disk pool.old) (P.disk pool.new) }
    ensures cause { HasCause (P.faults pool.old) (P.faults pool.new) result }
{
    write_body(pool, journal, buffer, entries)?;
    set_gate(pool, journal, buffer, 1)?;
    place(pool, journal, entries)?;
    set_gate(pool, journal, buffer, 0)?;
    Ok(())
}

/// Puts the entries in place, all or none of them: what the blocks hold. With no entries it is one sync.
fn apply_all<P: Pool>(
    pool: &mut P,
    journal: u32,
    buffer: &mut [u8],
    entries: &[Entry],
) -> Result<(), PoolFault>
    requires journal { IsJournal (P.shape pool.old) journal (length entries.now) }
    requires size { length buffer.old ≡ wide }
    requires entries { All (IsPlaced (P.shape pool.old) journal) entries.now }
    requires shut { P.tells → IsShut journal (P.disk pool.old).state }
    ensures shape { P.shape pool.new ≡ P.shape pool.old }
    ensures any_moment { P.tells → LeavesOnly (P.disk pool.old) (P.disk pool.new)
        (HoldsEither (P.shape pool.old).block_size journal (P.disk pool.old).state entries.now) }
    ensures runs { P.tells → Runs (of_commit journal entries.now) (P.disk pool.old) (P.disk pool.new) }
    ensures done { P.tells → OnOk result (IsDone journal (P.disk pool.old).state entries.now (P.disk pool.new).state) }
    ensures still { P.tells → entries.now ≡ [] → Runs none (P.disk pool.old) (P.disk pool.new) }
    ensures may { OnOk result (TakeWrites (P.shape pool.old) entries.now) }
    ensures careful { P.tells → TakeWrites (P.shape pool.old) entries.now ⊎ Runs none (P.disk pool.old) (P.disk pool.new) }
    ensures cause { HasCause (P.faults pool.old) (P.faults pool.new) result }
{
    if entries.is_empty() {
        pool.sync()?;
        return Ok(());
    }
    apply_steps(pool, journal, buffer, entries)
}

/// Puts the entries in place, all or none of them.
pub fn apply<P: Pool>(
    pool: &mut P,
    journal: u32,
    buffer: &mut [u8],
    entries: &[Entry],
) -> Result<(), PoolFault>
    requires journal { IsJournal (P.shape pool.old) journal (length entries.now) }
    requires size { length buffer.old ≡ wide }
    requires each { All (MayGo (P.shape pool.old)) entries.now }
    requires apart { AllPairs (λ one other. one ≢ other) (targets entries.now) }
    requires shut { P.tells → IsShut journal (P.disk pool.old).state }
    requires few { P.tells → length entries.now ≤ room_in ((P.disk pool.old).state.contents journal 0) }
    ensures shape { P.shape pool.new ≡ P.shape pool.old }
    ensures any_moment { P.tells → LeavesOnly (P.disk pool.old) (P.disk pool.new) (OldOrNew (P.shape pool.old) (P.disk pool.old).state entries.now) }
    ensures each_image { P.tells → (image : Image) → (P.disk pool.new).left_since (P.disk pool.old).moment image
        → OldOrNew (P.shape pool.old) (P.disk pool.old).state entries.now image }
    ensures runs { P.tells → Runs (of_commit (journal_of (P.shape pool.old)) entries.now) (P.disk pool.old) (P.disk pool.new) }
    ensures still { P.tells → entries.now ≡ [] → Runs none (P.disk pool.old) (P.disk pool.new) }
    ensures at_rest { P.tells → OnOk result ((room : ℕ) (control after : Control) (fills later : List Bool) → IsAtRest (P.shape pool.old) (P.disk pool.old).state room control fills
        → IsStatusAfter (P.shape pool.old) entries.now control fills after later → IsAtRest (P.shape pool.old) (P.disk pool.new).state room after later) }
    ensures committed { P.tells → OnOk result (IsCommitted (P.shape pool.old) (P.disk pool.old).state entries.now (P.disk pool.new).state) }
    ensures may { OnOk result (TakeWrites (P.shape pool.old) entries.now) }
    ensures careful { P.tells → TakeWrites (P.shape pool.old) entries.now ⊎ Runs none (P.disk pool.old) (P.disk pool.new) }
    ensures cause { HasCause (P.faults pool.old) (P.faults pool.new) result }
{
    apply_all(pool, journal, buffer, entries)?;
    Ok(())
}
