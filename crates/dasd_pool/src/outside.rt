//! Streams of bytes from and to the outside.

ghost use Rattle.std.specs.Prelude.{◌≡◌, ◌<◌, ◌≤◌, ℕ, Bool, true, false, List, Option, length, take, IfOk, OnOk, OnErr};
ghost use Rattle.dasd_pool.specs.Count.{Rose, HasCause};
ghost use Rattle.dasd_pool.specs.Failures.{one_more};
ghost use Rattle.dasd_pool.specs.Stream.{Appends, AppendsSome, Takes, EndsOnly};

use thiserror::Error;

/// A source failed, and its count of faults has risen.
#[derive(Clone, Copy, Debug, PartialEq, Eq, Error)]
#[error("the source failed")]
pub struct ReadFault;

/// A sink failed, and its count of faults has risen.
#[derive(Clone, Copy, Debug, PartialEq, Eq, Error)]
#[error("the sink failed")]
pub struct WriteFault;

/// A medium failed, and its count of faults has risen.
#[derive(Clone, Copy, Debug, PartialEq, Eq, Error)]
#[error("the medium failed")]
pub struct MediumFault;

/// A reel failed, and its count of faults has risen.
#[derive(Clone, Copy, Debug, PartialEq, Eq, Error)]
#[error("the reel failed")]
pub struct ReelFault;

/// Bytes to be read once.
pub trait Source {
    /// How often the source has failed.
    ghost faults: { Self → ℕ };

    /// What is left to be read, where the source tells.
    ghost left: { Self → Option (List ℕ) };

    /// Reads some bytes to the front of the buffer, and says how many; none of a buffer that isn't empty are the end.
    /// What is left after a failed read isn't said.
    fn read(&mut self, buf: &mut [u8]) -> Result<usize, ReadFault>
        ensures within { IfOk result (λ count. count ≤ length buf.new) }
        ensures bytes { IfOk result (λ count. Takes (left self.old) (left self.new) (take count buf.new)) }
        ensures end { IfOk result (λ count. count ≡ 0 → 0 < length buf.new → EndsOnly (left self.old)) }
        ensures cause { HasCause (faults self.old) (faults self.new) result };
}

/// Takes bytes.
pub trait Sink {
    /// How often the sink has failed.
    ghost faults: { Self → ℕ };

    /// What the sink took so far, where it tells.
    ghost taken: { Self → Option (List ℕ) };

    /// Takes a front of the piece, and says how long it is. To take nothing of a piece that isn't empty is a fault.
    fn write(&mut self, piece: &[u8]) -> Result<usize, WriteFault>
        ensures within { IfOk result (λ count. count ≤ length piece.now) }
        ensures taken { IfOk result (λ count. Appends (taken self.old) (taken self.new) (take count piece.now)) }
        ensures err { OnErr result (taken self.new ≡ taken self.old) }
        ensures none { IfOk result (λ count. count ≡ 0 → 0 < length piece.now → Rose (faults self.old) (faults self.new)) }
        ensures cause { HasCause (faults self.old) (faults self.new) result };
}

/// What a dump is written to.
pub trait Medium: Drop {
    /// How often the medium has failed.
    ghost faults: { Self → ℕ };

    /// What the medium holds, where it tells.
    ghost held: { Self → Option (List ℕ) };

    /// How often a piece was put on the medium.
    ghost puts: { Self → ℕ };

    /// Whether the medium was finished, and nothing was put on it since.
    ghost finished: { Self → Bool };

    /// Takes a piece; after a failed call a front of it.
    fn put(&mut self, piece: &[u8]) -> Result<(), MediumFault>
        ensures ok { OnOk result (Appends (held self.old) (held self.new) piece.now) }
        ensures err { OnErr result (AppendsSome (held self.old) (held self.new) piece.now) }
        ensures puts { puts self.new ≡ one_more (puts self.old) }
        ensures unfinished { finished self.new ≡ false }
        ensures cause { HasCause (faults self.old) (faults self.new) result };

    /// Ends what is written, and makes it durable.
    fn finish(&mut self) -> Result<(), MediumFault>
        ensures same { held self.new ≡ held self.old }
        ensures puts { puts self.new ≡ puts self.old }
        ensures finished { OnOk result (finished self.new ≡ true) }
        ensures cause { HasCause (faults self.old) (faults self.new) result };
}

/// What a dump is read from, more than once.
pub trait Reel: Drop {
    /// How often the reel has failed.
    ghost faults: { Self → ℕ };

    /// What the reel holds, where it tells. No call changes it.
    ghost held: { Self → Option (List ℕ) };

    /// What is left to be read, where the reel tells.
    ghost left: { Self → Option (List ℕ) };

    /// Reads some bytes to the front of the buffer, and says how many; none of a buffer that isn't empty are the end.
    fn read(&mut self, buf: &mut [u8]) -> Result<usize, ReelFault>
        ensures within { IfOk result (λ count. count ≤ length buf.new) }
        ensures bytes { IfOk result (λ count. Takes (left self.old) (left self.new) (take count buf.new)) }
        ensures end { IfOk result (λ count. count ≡ 0 → 0 < length buf.new → EndsOnly (left self.old)) }
        ensures same { held self.new ≡ held self.old }
        ensures cause { HasCause (faults self.old) (faults self.new) result };

    /// Goes back to the first byte.
    fn rewind(&mut self) -> Result<(), ReelFault>
        ensures ok { OnOk result (left self.new ≡ held self.new) }
        ensures same { held self.new ≡ held self.old }
        ensures cause { HasCause (faults self.old) (faults self.new) result };
}
