//! Pools of two volumes, and sessions over them.

ghost use Rattle.std.specs.Prelude.{IsTrue};
ghost use Rattle.redo_core.specs.Opening.{AreNames};

use dasd_pool::{MemoryPool, Pool};
use redo_core::{JournalFault, are_serials, is_same};
use rows_bytes::{Change, GIVEN, Given, REGISTERED_TWO, RowsFault, journal, volume};
use std::alloc::Global;
use unit_session::Session;
use vol_label::Serial;

/// `VOL001` and `VOL002` in the code page.
pub const NAMES: [Serial; 2] = [
    Serial {
        text: [0xe5, 0xd6, 0xd3, 0xf0, 0xf0, 0xf1],
    },
    Serial {
        text: [0xe5, 0xd6, 0xd3, 0xf0, 0xf0, 0xf2],
    },
];

/// The volume VOL002 without data sets.
pub const SECOND: Given = Given {
    blocks: &[(234, 0xf2)],
    ..GIVEN
};

/// The calls of a beginning: a sync, three blocks of the journal and both labels when it is opened, and label and VTOC of each unit.
pub const BEGINNING: u64 = 1 + 3 + 2 + 2 * 2;

/// A registration of both names with room for three blocks.
fn registered() -> [Change; 22] {
    let mut changes = REGISTERED_TWO;
    changes[9] = (15, 3);
    changes
}

/// These two volumes, and seven blocks with the journal of both. These calls of the pool fail.
pub fn pool_of(
    alloc: Global,
    first: Given,
    second: Given,
    failing: &[u64],
) -> Result<MemoryPool, RowsFault> {
    let mut units = Vec::new(alloc);
    units.push(volume(alloc, first)?)?;
    units.push(volume(alloc, second)?)?;
    units.push(journal(alloc, 7, &registered())?)?;
    Ok(MemoryPool::new(alloc, units, failing.to_vec(alloc)?, 0)?)
}

/// Whether there are two volumes for these names.
fn are_names<P: Pool>(pool: &P, names: &[Serial]) -> bool
    ensures { IsTrue result → AreNames (P.shape pool.now) names.now }
{
    if pool.units() != 3 || names.len() != 2 || !are_serials(names) {
        return false;
    }
    !is_same(names[0], names[1])
}

/// A session over both volumes, or why there is none.
pub fn begun<P: Pool + Drop>(alloc: Global, pool: P) -> Result<Session<P>, JournalFault> {
    if !are_names(&pool, &NAMES) {
        return Err(JournalFault::BadJournal(0));
    }
    match Session::begin(alloc, pool, &NAMES) {
        Ok(session) => Ok(session),
        Err(stop) => Err(stop.cause),
    }
}
