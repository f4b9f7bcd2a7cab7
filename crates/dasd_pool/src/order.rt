//! Two blocks in order.

ghost use Rattle.std.specs.Prelude.{◌≡◌, ◌<◌, length, OnOk};
ghost use Rattle.dasd_pool.specs.Count.{HasCause};
ghost use Rattle.dasd_pool.specs.Disk.{Image, Runs, LeavesOnly, is_at, IsSynced};
ghost use Rattle.dasd_pool.specs.Order.{with_block, InOrder};

use crate::pool::{Pool, PoolFault};

/// Writes a block and makes it durable.
fn write_and_sync<P: Pool>(
    pool: &mut P,
    unit: u32,
    block: u32,
    bytes: &[u8],
) -> Result<(), PoolFault>
    requires unit { unit < (P.shape pool.old).units }
    requires block { block < (P.shape pool.old).blocks unit }
    requires size { length bytes.now ≡ (P.shape pool.old).block_size unit }
    ensures shape { P.shape pool.new ≡ P.shape pool.old }
    ensures written { P.tells → OnOk result ((P.disk pool.new).state.contents unit block ≡ bytes.now) }
    ensures synced { P.tells → OnOk result (IsSynced (P.disk pool.new).state) }
    ensures runs { P.tells → Runs (is_at unit block) (P.disk pool.old) (P.disk pool.new) }
    ensures cause { HasCause (P.faults pool.old) (P.faults pool.new) result }
{
    pool.write(unit, block, bytes)?;
    pool.sync()?;
    Ok(())
}

/// Writes two blocks of a unit, the second only when the first is durable. A stop at any moment leaves the second as it
/// was, or the first as it is to be.
pub fn write_in_order<P: Pool>(
    pool: &mut P,
    unit: u32,
    first: u32,
    first_bytes: &[u8],
    second: u32,
    second_bytes: &[u8],
) -> Result<(), PoolFault>
    requires unit { unit < (P.shape pool.old).units }
    requires first { first < (P.shape pool.old).blocks unit }
    requires first_size { length first_bytes.now ≡ (P.shape pool.old).block_size unit }
    requires second { second < (P.shape pool.old).blocks unit }
    requires second_size { length second_bytes.now ≡ (P.shape pool.old).block_size unit }
    ensures shape { P.shape pool.new ≡ P.shape pool.old }
    ensures any_moment { P.tells → LeavesOnly (P.disk pool.old) (P.disk pool.new)
        (InOrder (P.disk pool.old).state unit first first_bytes.now second) }
    ensures each_stop { P.tells → (image : Image) → (P.disk pool.new).left_since (P.disk pool.old).moment image
        → InOrder (P.disk pool.old).state unit first first_bytes.now second image }
    ensures contents { P.tells → OnOk result ((P.disk pool.new).state.contents
        ≡ with_block unit second second_bytes.now (with_block unit first first_bytes.now (P.disk pool.old).state.contents)) }
    ensures synced { P.tells → OnOk result (IsSynced (P.disk pool.new).state) }
    ensures cause { HasCause (P.faults pool.old) (P.faults pool.new) result }
{
    write_and_sync(pool, unit, first, first_bytes)?;
    write_and_sync(pool, unit, second, second_bytes)?;
    Ok(())
}
