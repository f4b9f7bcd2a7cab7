//! An open body is put in place when the journal is opened.

ghost use Rattle.std.specs.Prelude.{◌≡◌, ◌<◌, ◌≤◌, ℕ, All, length, true, OnOk};
ghost use Rattle.dasd_pool.specs.Count.{HasCause};
ghost use Rattle.dasd_pool.specs.Disk.{IsSynced, LeavesOnly, Runs};
ghost use Rattle.redo_core.specs.Format.{wide, is_open, directory_in};
ghost use Rattle.redo_core.specs.Reading.{among, placed, body_for, IsTarget};
ghost use Rattle.redo_core.specs.Opening.{of_redo, of_opening};
ghost use Rattle.redo_core.specs.Steps.{IsJournal, HasTargets, HoldsNew, HoldsSame, IsDone, IsRedone};

use crate::blocks::set_gate;
use crate::target::Target;
use dasd_pool::{Pool, PoolFault};

/// Writes each image of the body to its target, and syncs.
fn place_images<P: Pool>(
    pool: &mut P,
    journal: u32,
    buffer: &mut [u8],
    targets: &[Target],
) -> Result<(), PoolFault>
    requires journal { IsJournal (P.shape pool.old) journal (length targets.now) }
    requires size { length buffer.old ≡ wide }
    requires targets { All (IsTarget (P.shape pool.old) journal) targets.now }
    ensures shape { P.shape pool.new ≡ P.shape pool.old }
    ensures placed { P.tells → OnOk result ((u b : ℕ) → (P.disk pool.new).state.contents u b
        ≡ placed (P.disk pool.old).state.contents (body_for (P.shape pool.old).block_size journal (P.disk pool.old).state.contents targets.now) u b) }
    ensures synced { P.tells → OnOk result (IsSynced (P.disk pool.new).state) }
    ensures runs { P.tells → Runs (among targets.now) (P.disk pool.old) (P.disk pool.new) }
    ensures cause { HasCause (P.faults pool.old) (P.faults pool.new) result }
{
    let mut next = 4u32;
    for target in targets {
        pool.read(journal, next, buffer)?;
        let size = pool.block_size(target.unit) as usize;
        pool.write(target.unit, target.block, &buffer[..size])?;
        next += 1;
    }
    pool.sync()?;
    Ok(())
}

/// Puts the open body with these targets in place, and closes the gate.
pub fn redo<P: Pool>(
    pool: &mut P,
    journal: u32,
    buffer: &mut [u8],
    targets: &[Target],
) -> Result<(), PoolFault>
    requires journal { IsJournal (P.shape pool.old) journal (length targets.now) }
    requires size { length buffer.old ≡ wide }
    requires targets { All (IsTarget (P.shape pool.old) journal) targets.now }
    requires some { 1 ≤ length targets.now }
    requires synced { P.tells → IsSynced (P.disk pool.old).state }
    requires opened { P.tells → is_open ((P.disk pool.old).state.contents journal 1) ≡ true }
    requires directory { P.tells → directory_in ((P.disk pool.old).state.contents journal 3) ≡ targets.now }
    ensures shape { P.shape pool.new ≡ P.shape pool.old }

    // At every moment the blocks have the body in place.
    ensures any_moment { P.tells → LeavesOnly (P.disk pool.old) (P.disk pool.new) (HoldsNew (P.shape pool.old).block_size journal (P.disk pool.old).state
        (body_for (P.shape pool.old).block_size journal (P.disk pool.old).state.contents targets.now)) }
    ensures done { P.tells → OnOk result (IsDone journal (P.disk pool.old).state
        (body_for (P.shape pool.old).block_size journal (P.disk pool.old).state.contents targets.now) (P.disk pool.new).state) }
    ensures runs { P.tells → Runs (of_redo journal targets.now) (P.disk pool.old) (P.disk pool.new) }
    ensures cause { HasCause (P.faults pool.old) (P.faults pool.new) result }
{
    place_images(pool, journal, buffer, targets)?;
    set_gate(pool, journal, buffer, 0)?;
    Ok(())
}

/// Puts the body with these targets in place, where there is one.
pub fn finish<P: Pool>(
    pool: &mut P,
    journal: u32,
    buffer: &mut [u8],
    targets: &[Target],
) -> Result<(), PoolFault>
    requires journal { IsJournal (P.shape pool.old) journal (length targets.now) }
    requires size { length buffer.old ≡ wide }
    requires targets { All (IsTarget (P.shape pool.old) journal) targets.now }
    requires synced { P.tells → IsSynced (P.disk pool.old).state }
    requires has { P.tells → HasTargets journal (P.disk pool.old).state.contents targets.now }
    ensures shape { P.shape pool.new ≡ P.shape pool.old }
    ensures any_moment { P.tells → LeavesOnly (P.disk pool.old) (P.disk pool.new) (HoldsSame (P.shape pool.old).block_size journal (P.disk pool.old).state.contents) }
    ensures redone { P.tells → OnOk result (IsRedone (P.shape pool.old).block_size journal (P.disk pool.old).state.contents (P.disk pool.new).state) }
    ensures runs { P.tells → Runs (of_opening journal (P.disk pool.old).state.contents) (P.disk pool.old) (P.disk pool.new) }
    ensures cause { HasCause (P.faults pool.old) (P.faults pool.new) result }
{
    if targets.is_empty() {
        return Ok(());
    }
    redo(pool, journal, buffer, targets)?;
    Ok(())
}
