//! A connection in memory.

ghost use Rattle.std.specs.Prelude.{◌≡◌, ◌≤◌, [], length, drop, IfOk, Some};

use crate::link::Link;
use crate::outside::{ReadFault, WriteFault};
use crate::units::risen;
use ckd_image::text::put;
use ckd_image::{Bytes, NoMemory};
use std::alloc::Global;

/// A link in memory that gives these bytes and has room for so many, and fails at the calls that it is told.
#[derive(Debug, Drop)]
pub struct MemoryLink {
    input: Bytes,
    place: usize,
    taken: Vec<u8>,
    room: usize,
    failing: Vec<u64>,
    calls: u64,
    faults: u64,
    ghost within: { place ≤ length input },
}

impl MemoryLink {
    /// A link that gives these bytes and takes at most so many. Its calls are counted from 0, and those with these numbers fail.
    pub fn new(
        alloc: Global,
        input: Bytes,
        room: u32,
        failing: Vec<u64>,
    ) -> Result<MemoryLink, NoMemory>
        ensures left { IfOk result (λ link. ⟦<MemoryLink as Link>⟧.left link ≡ Some input) }
        ensures empty { IfOk result (λ link. ⟦<MemoryLink as Link>⟧.taken link ≡ Some []) }
        ensures faults { IfOk result (λ link. ⟦<MemoryLink as Link>⟧.faults link ≡ 0) }
    {
        let taken = Vec::with_capacity(alloc, room as usize)?;
        Ok(MemoryLink {
            input,
            place: 0,
            taken,
            room: room as usize,
            failing,
            calls: 0,
            faults: 0,
        })
    }

    /// What it took so far.
    pub fn text(&self) -> &[u8]
        ensures { ⟦<MemoryLink as Link>⟧.taken self.now ≡ Some result.now }
    {
        self.taken.as_slice()
    }
}

impl Link for MemoryLink {
    ghost faults = { λ l. l.faults };

    ghost left = { λ l. Some (drop l.place l.input) };

    ghost taken = { λ l. Some l.taken.items };

    fn receive(&mut self, buf: &mut [u8]) -> Result<usize, ReadFault> {
        let call = self.calls;
        self.calls = call.saturating_add(1);
        if self.failing.contains(&call) {
            self.faults = risen(self.faults);
            return Err(ReadFault);
        }
        let left = self.input.as_slice().len() - self.place;
        let count = left.min(buf.len());
        let end = self.place + count;
        put(buf, 0, &self.input.as_slice()[self.place..end]);
        self.place = end;
        Ok(count)
    }

    fn send(&mut self, piece: &[u8]) -> Result<usize, WriteFault> {
        let call = self.calls;
        self.calls = call.saturating_add(1);
        let count = piece.len().min(self.room.saturating_sub(self.taken.len()));
        let fails = self.failing.contains(&call) || (count == 0 && !piece.is_empty());
        if fails || self.taken.extend_from_slice(&piece[..count]).is_err() {
            self.faults = risen(self.faults);
            return Err(WriteFault);
        }
        Ok(count)
    }
}
