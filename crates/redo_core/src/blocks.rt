//! The blocks of a journal that a commit writes.

ghost use Rattle.std.specs.Prelude.{◌≡◌, ◌<◌, ◌≤◌, ◌+◌, ◌-◌, ◌*◌, ◌^◌, ◌++◌, ◌∷◌, length, replicate, OnOk};
ghost use Rattle.dasd_pool.specs.Count.{HasCause};
ghost use Rattle.dasd_pool.specs.Disk.{IsSynced, Runs, is_at};
ghost use Rattle.redo_core.specs.Format.{wide, directory_text, target_text, directory_in};
ghost use Rattle.redo_core.specs.Phases.{targets};
ghost use Rattle.redo_core.specs.Steps.{IsJournal};

use crate::entries::Entry;
use ckd_image::text::put_over;
use dasd_pool::{Pool, PoolFault};

/// The text, and zeros after it.
pub(crate) fn fill(buffer: &mut [u8], text: &[u8])
    requires { length text.now ≤ length buffer.old }
    ensures { buffer.new ≡ text.now ++ replicate (length buffer.old - length text.now) 0 }
{
    buffer[..text.len()].copy_from_slice(text);
    buffer[text.len()..].fill(0);
}

/// Writes a text and zeros to a block of the journal.
pub fn put_block<P: Pool>(
    pool: &mut P,
    journal: u32,
    block: u32,
    buffer: &mut [u8],
    text: &[u8],
) -> Result<(), PoolFault>
    requires journal { journal < (P.shape pool.old).units }
    requires block { block < (P.shape pool.old).blocks journal }
    requires size { length buffer.old ≡ (P.shape pool.old).block_size journal }
    requires text { length text.now ≤ length buffer.old }
    ensures shape { P.shape pool.new ≡ P.shape pool.old }
    ensures written { P.tells → OnOk result ((P.disk pool.new).state.contents journal block
        ≡ text.now ++ replicate (length buffer.old - length text.now) 0) }
    ensures runs { P.tells → Runs (is_at journal block) (P.disk pool.old) (P.disk pool.new) }
    ensures cause { HasCause (P.faults pool.old) (P.faults pool.new) result }
{
    fill(buffer, text);
    pool.write(journal, block, buffer)
}

/// Opens or closes the gate, and syncs it.
pub fn set_gate<P: Pool>(
    pool: &mut P,
    journal: u32,
    buffer: &mut [u8],
    gate: u8,
) -> Result<(), PoolFault>
    requires journal { IsJournal (P.shape pool.old) journal 0 }
    requires size { length buffer.old ≡ wide }
    ensures shape { P.shape pool.new ≡ P.shape pool.old }
    ensures gate { P.tells → OnOk result ((P.disk pool.new).state.contents journal 1 ≡ gate ∷ replicate (length buffer.old - 1) 0) }
    ensures synced { P.tells → OnOk result (IsSynced (P.disk pool.new).state) }
    ensures runs { P.tells → Runs (is_at journal 1) (P.disk pool.old) (P.disk pool.new) }
    ensures cause { HasCause (P.faults pool.old) (P.faults pool.new) result }
{
    put_block(pool, journal, 1, buffer, &[gate])?;
    pool.sync()?;
    Ok(())
}

/// A target as it stands in a directory.
fn target_bytes(unit: u32, block: u32) -> [u8; 8]
    ensures text { result ≡ target_text (record { unit = unit; block = block }) }
    ensures unit_fits { unit < 2 ^ 32 }
    ensures block_fits { block < 2 ^ 32 }
{
    let [a, b, c, d] = unit.to_be_bytes();
    let [e, f, g, h] = block.to_be_bytes();
    [a, b, c, d, e, f, g, h]
}

/// Writes the directory of these entries, and zeros after it.
pub fn put_directory(buffer: &mut [u8], entries: &[Entry])
    requires size { length buffer.old ≡ wide }
    requires few { length entries.now ≤ 8191 }
    ensures text { buffer.new ≡ directory_text (targets entries.now) ++ replicate (wide - (4 + 8 * length entries.now)) 0 }
    ensures reads { directory_in buffer.new ≡ targets entries.now }
{
    fill(buffer, &(entries.len() as u32).to_be_bytes());
    let mut place = 4;
    for entry in entries {
        put_over(buffer, place, &target_bytes(entry.unit, entry.block));
        place += 8;
    }
}
