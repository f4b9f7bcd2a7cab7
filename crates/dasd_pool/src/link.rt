//! What a connection is, and sending whole texts over one.

ghost use Rattle.std.specs.Prelude.{◌≡◌, ◌<◌, ◌≤◌, ℕ, List, Option, length, take, IfOk, OnErr, OnOk};
ghost use Rattle.dasd_pool.specs.Count.{Rose, HasCause};
ghost use Rattle.dasd_pool.specs.Stream.{Appends, AppendsSome, Takes, EndsOnly};

use crate::outside::{ReadFault, WriteFault};
use ckd_image::text::tail;

/// A connection to one other side. Its calls may fail, and how often they did it counts.
pub trait Link {
    /// How often a call has failed.
    ghost faults: { Self → ℕ };

    /// What the other side has still to give, where the link tells.
    ghost left: { Self → Option (List ℕ) };

    /// What the link took so far, where it tells.
    ghost taken: { Self → Option (List ℕ) };

    /// Receives some bytes to the front of the buffer, and says how many; none of a buffer that isn't empty are the end.
    /// What is left after a failed call isn't said.
    fn receive(&mut self, buf: &mut [u8]) -> Result<usize, ReadFault>
        ensures within { IfOk result (λ count. count ≤ length buf.new) }
        ensures bytes { IfOk result (λ count. Takes (left self.old) (left self.new) (take count buf.new)) }
        ensures end { IfOk result (λ count. count ≡ 0 → 0 < length buf.new → EndsOnly (left self.old)) }
        ensures silent { taken self.new ≡ taken self.old }
        ensures cause { HasCause (faults self.old) (faults self.new) result };

    /// Sends a front of the piece, and says how long it is. To send nothing of a piece that isn't empty is a fault.
    fn send(&mut self, piece: &[u8]) -> Result<usize, WriteFault>
        ensures within { IfOk result (λ count. count ≤ length piece.now) }
        ensures taken { IfOk result (λ count. Appends (taken self.old) (taken self.new) (take count piece.now)) }
        ensures err { OnErr result (taken self.new ≡ taken self.old) }
        ensures none { IfOk result (λ count. count ≡ 0 → 0 < length piece.now → Rose (faults self.old) (faults self.new)) }
        ensures unread { left self.new ≡ left self.old }
        ensures cause { HasCause (faults self.old) (faults self.new) result };
}

/// Sends all of a text, in as many calls as the link wants; after a failed call a front of it was sent.
pub fn send_all<L: Link>(link: &mut L, text: &[u8]) -> Result<(), WriteFault>
    ensures sent { OnOk result (Appends (L.taken link.old) (L.taken link.new) text.now) }
    ensures some { AppendsSome (L.taken link.old) (L.taken link.new) text.now }
    ensures unread { L.left link.new ≡ L.left link.old }
    ensures cause { HasCause (L.faults link.old) (L.faults link.new) result }
{
    let mut rest = text;
    while !rest.is_empty() {
        let count = link.send(rest)?;
        if count == 0 {
            return Err(WriteFault);
        }
        rest = tail(rest, count);
    }
    Ok(())
}
