//! Receiving bytes behind those that came before.

ghost use Rattle.std.specs.Prelude.{◌≡◌, ◌<◌, ◌≤◌, length, true, false, Ok, IfOk, IfErr};
ghost use Rattle.dasd_pool.specs.Stream.{EndsOnly};
ghost use Rattle.desk_head.specs.Received.{Receives, TakesFew, IsCallFault, UnlessFailed};

use crate::fault::RequestFault;
use dasd_pool::Link;

/// How many bytes are asked for at once, at most.
const CHUNK: usize = 1024;

/// Receives some bytes behind those that came, up to so many in all, and says whether any came: where none did, the input is at its end.
pub fn receive_more<L: Link>(
    link: &mut L,
    input: &mut Vec<u8>,
    most: usize,
) -> Result<bool, RequestFault>
    requires room { length input.old.items < most }
    ensures more { result ≡ Ok true → Receives (L.left link.old) (L.left link.new) input.old.items input.new.items }
    ensures some { result ≡ Ok true → length input.old.items < length input.new.items }
    ensures within { length input.new.items ≤ most }
    ensures end { result ≡ Ok false → EndsOnly (L.left link.old) }
    ensures same { result ≡ Ok false → input.new.items ≡ input.old.items }
    ensures few { IfOk result (λ _. TakesFew (L.left link.old) (L.left link.new)) }
    ensures few_refused { IfErr result (λ fault. UnlessFailed fault (TakesFew (L.left link.old) (L.left link.new))) }
    ensures silent { L.taken link.new ≡ L.taken link.old }
    ensures fault { IfErr result (IsCallFault (L.faults link.old) (L.faults link.new)) }
    ensures later { L.faults link.old ≤ L.faults link.new }
{
    let mut chunk = [0; CHUNK];
    let room = CHUNK.min(most - input.len());
    let count = link.receive(&mut chunk[..room])?;
    if count == 0 {
        return Ok(false);
    }
    input.extend_from_slice(&chunk[..count])?;
    Ok(true)
}
