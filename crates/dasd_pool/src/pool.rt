//! A pool of blocks: what its calls do to its contents, and what a stop may leave.

ghost use Rattle.std.specs.Prelude.{◌≡◌, ◌<◌, ◌≤◌, ℕ, length, IsTrue, OnOk, OnErr};
ghost use Rattle.dasd_pool.specs.Calls.{size_in};
ghost use Rattle.dasd_pool.specs.Count.{HasCause};
ghost use Rattle.dasd_pool.specs.Disk.{Shape, Disk, Runs, none, is_at, IsSynced};

use thiserror::Error;

/// A call of a pool failed, and its count of faults has risen.
#[derive(Clone, Copy, Debug, PartialEq, Eq, Error)]
#[error("the pool failed")]
pub struct PoolFault;

/// Units, each with a head of 512 bytes and blocks of one size. Units and blocks are numbered from 0.
pub trait Pool {
    /// The units, their heads and sizes, and which of them may be written, which never change.
    ghost shape: { Self → Shape };

    /// How often the pool has failed.
    ghost faults: { Self → ℕ };

    /// Whether pools of this type tell what they hold.
    ghost tells: { Type 0 };

    /// What the pool holds, and what a stop may leave.
    ghost disk: { Self → Disk };

    fn units(&self) -> u32
        ensures { result ≡ (shape self.now).units };

    fn head(&self, unit: u32) -> [u8; 512]
        requires { unit < (shape self.now).units }
        ensures { result ≡ (shape self.now).head unit };

    /// The bytes of each block of a unit, which its head says. What is told of a block has so many.
    fn block_size(&self, unit: u32) -> u32
        requires { unit < (shape self.now).units }
        ensures value { result ≡ (shape self.now).block_size unit }
        ensures fits { result ≤ 65536 }
        ensures said { result ≡ size_in ((shape self.now).head unit) }
        ensures whole { tells → (b : ℕ) → b < (shape self.now).blocks unit → length ((disk self.now).state.contents unit b) ≡ result };

    /// What holds of the sizes of all units. Nothing is done.
    fn sizes(&self)
        ensures said { (u : ℕ) → u < (shape self.now).units → (shape self.now).block_size u ≡ size_in ((shape self.now).head u) }
        ensures fits { (u : ℕ) → u < (shape self.now).units → (shape self.now).block_size u ≤ 65536 }
        ensures whole { tells → (u b : ℕ) → u < (shape self.now).units → b < (shape self.now).blocks u → length ((disk self.now).state.contents u b) ≡ (shape self.now).block_size u };

    fn blocks(&self, unit: u32) -> u32
        requires { unit < (shape self.now).units }
        ensures { result ≡ (shape self.now).blocks unit };

    /// Reads a block. A failed read changes nothing but the count.
    fn read(&mut self, unit: u32, block: u32, buf: &mut [u8]) -> Result<(), PoolFault>
        requires unit { unit < (shape self.old).units }
        requires block { block < (shape self.old).blocks unit }
        requires size { length buf.old ≡ (shape self.old).block_size unit }
        ensures shape { shape self.new ≡ shape self.old }
        ensures bytes { tells → OnOk result (buf.new ≡ (disk self.old).state.contents unit block) }
        ensures same { tells → (disk self.new).state ≡ (disk self.old).state }
        ensures runs { tells → Runs none (disk self.old) (disk self.new) }
        ensures cause { HasCause (faults self.old) (faults self.new) result };

    /// Asks whether a unit may be written, before anything is begun that would end there. Where it may not, that is a fault.
    fn ask_to_write(&mut self, unit: u32) -> Result<(), PoolFault>
        requires { unit < (shape self.old).units }
        ensures shape { shape self.new ≡ shape self.old }
        ensures may { OnOk result (IsTrue ((shape self.old).may_write unit)) }
        ensures same { tells → (disk self.new).state ≡ (disk self.old).state }
        ensures runs { tells → Runs none (disk self.old) (disk self.new) }
        ensures cause { HasCause (faults self.old) (faults self.new) result };

    /// Writes a block. After a failed write it holds any bytes.
    fn write(&mut self, unit: u32, block: u32, buf: &[u8]) -> Result<(), PoolFault>
        requires unit { unit < (shape self.old).units }
        requires block { block < (shape self.old).blocks unit }
        requires size { length buf.now ≡ (shape self.old).block_size unit }
        ensures shape { shape self.new ≡ shape self.old }
        ensures written { tells → OnOk result ((disk self.new).state.contents unit block ≡ buf.now) }
        ensures runs { tells → Runs (is_at unit block) (disk self.old) (disk self.new) }
        ensures cause { HasCause (faults self.old) (faults self.new) result };

    /// Makes the writes so far durable. After a failed sync nothing more is durable than before.
    fn sync(&mut self) -> Result<(), PoolFault>
        ensures shape { shape self.new ≡ shape self.old }
        ensures synced { tells → OnOk result (IsSynced (disk self.new).state) }
        ensures not_synced { tells → OnErr result ((disk self.new).state ≡ (disk self.old).state) }
        ensures runs { tells → Runs none (disk self.old) (disk self.new) }
        ensures cause { HasCause (faults self.old) (faults self.new) result };
}
