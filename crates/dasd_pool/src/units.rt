//! The blocks of a unit by its head and its bytes.

ghost use Rattle.std.specs.Prelude.{◌≡◌, ◌≤◌, ◌+◌, ◌-◌, ◌/◌, ◌^◌, min, drop};
ghost use Rattle.byteorder.specs.Endian.{little_number};
ghost use Rattle.dasd_pool.specs.Count.{Rose};
ghost use Rattle.dasd_pool.specs.Calls.{size_in};
ghost use Rattle.dasd_pool.specs.Failures.{one_more as after_one_more};

use byteorder::{ByteOrder, LittleEndian};
use ckd_image::Bytes;

/// A unit: its head, and its blocks one after another. A rest shorter than a block is none.
#[derive(Debug, Drop)]
pub struct UnitText {
    pub head: [u8; 512],
    pub blocks: Bytes,
}

/// The number of four bytes of a head at a place, the lowest first.
fn u32_at(head: &[u8; 512], place: usize) -> u32
    requires { place + 4 ≤ 512 }
    ensures { result ≡ little_number 4 (drop place head.now) }
{
    LittleEndian::read_u32(&head[place..])
}

/// The size of a unit's blocks, which its head says.
pub(crate) fn said_size(head: &[u8; 512]) -> u32
    ensures { result ≡ size_in head.now }
{
    let said = u32_at(head, 12);
    if said == 56_832 || said == 47_616 || said == 19_456 || said == 65_536 {
        said
    } else {
        0
    }
}

/// How many whole blocks of a size stand in so many bytes.
pub(crate) fn block_count(len: usize, size: u32) -> u32
    ensures { result ≡ min (len / size) (2 ^ 32 - 1) }
{
    if size == 0 {
        return 0;
    }
    (len / size as usize).min(u32::MAX as usize) as u32
}

/// A count after one fault more.
pub(crate) fn risen(faults: u64) -> u64
    ensures never_falls { faults ≤ result }
    ensures rises { Rose faults result }
{
    faults.saturating_add(1)
}

/// A count after one more.
pub(crate) fn one_more(count: u64) -> u64
    ensures { result ≡ after_one_more count }
{
    count.saturating_add(1)
}
