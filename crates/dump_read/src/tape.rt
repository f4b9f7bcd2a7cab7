//! The reel under a reader, as contracts see it.

ghost use Rattle.std.specs.Prelude.{◌≡◌, ◌<◌, ◌≤◌, length, take, IfOk, OnOk};
ghost use Rattle.dasd_pool.specs.Count.{HasCause};
ghost use Rattle.dasd_pool.specs.Stream.{Takes, EndsOnly};
ghost use Rattle.dump_read.specs.Tape.{TapeSeen};

use dasd_pool::{MemoryReel, Reel, ReelFault};

/// What a dump is read from.
pub trait Tape {
    ghost seen: { Self → TapeSeen };

    /// Reads some bytes to the front of the buffer, and says how many; none of a buffer that isn't empty are the end.
    fn more(&mut self, buf: &mut [u8]) -> Result<usize, ReelFault>
        ensures within { IfOk result (λ count. count ≤ length buf.new) }
        ensures bytes { IfOk result (λ count. Takes (seen self.old).left (seen self.new).left (take count buf.new)) }
        ensures end { IfOk result (λ count. count ≡ 0 → 0 < length buf.new → EndsOnly (seen self.old).left) }
        ensures same { (seen self.new).held ≡ (seen self.old).held }
        ensures cause { HasCause (seen self.old).faults (seen self.new).faults result };

    /// Goes back to the first byte.
    fn restart(&mut self) -> Result<(), ReelFault>
        ensures ok { OnOk result ((seen self.new).left ≡ (seen self.new).held) }
        ensures same { (seen self.new).held ≡ (seen self.old).held }
        ensures cause { HasCause (seen self.old).faults (seen self.new).faults result };
}

impl Tape for Box<dyn Reel> {
    ghost seen = { λ reel. record { held = (Reel-box reel).held reel.value; left = (Reel-box reel).left reel.value; faults = (Reel-box reel).faults reel.value } };

    fn more(&mut self, buf: &mut [u8]) -> Result<usize, ReelFault> {
        self.read(buf)
    }

    fn restart(&mut self) -> Result<(), ReelFault> {
        self.rewind()
    }
}

impl Tape for MemoryReel {
    ghost seen = { λ reel. record { held = ⟦<MemoryReel as Reel>⟧.held reel; left = ⟦<MemoryReel as Reel>⟧.left reel; faults = ⟦<MemoryReel as Reel>⟧.faults reel } };

    fn more(&mut self, buf: &mut [u8]) -> Result<usize, ReelFault> {
        Reel::read(self, buf)
    }

    fn restart(&mut self) -> Result<(), ReelFault> {
        Reel::rewind(self)
    }
}
