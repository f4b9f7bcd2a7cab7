//! The calls that a pool in memory keeps.

ghost use Rattle.std.specs.Prelude.{◌≡◌, ◌<◌, ◌≤◌, ◌++◌, ◌∷◌, [], ◌&&◌, ◌-◌, length, take, nat_lt, nat_le, vec_len, vec_capacity, IfOk, All};
ghost use Rattle.dasd_pool.specs.Kept.{IsSpare, WithWrite, with_call};

use crate::calls::Call;
use std::alloc::{AllocError, Global};
use std::marker::Model;

/// The first calls of a pool, up to a number of them. It has the memory for all.
#[derive(Debug, Drop)]
pub struct Kept {
    calls: Vec<Call>,
    spare: Vec<Vec<u8>>,
    keep: u32,
    width: u32,
}

impl Model for Kept {
    ghost use Rattle.dasd_pool.specs.Kept.{KeptView, HasRoom};

    ghost Value = { KeptView };

    ghost view = { λ k. record { calls = k.calls.items; keep = k.keep; width = k.width } };

    ghost invariant = { λ k. HasRoom k.keep k.width k.calls k.spare };
}

impl Kept {
    /// Keeps so many calls, whose writes have at most so many bytes.
    pub fn new(alloc: Global, keep: u32, width: u32) -> Result<Kept, AllocError>
        ensures { IfOk result (λ kept. kept ≡ record { calls = []; keep = keep; width = width }) }
    {
        let calls = Vec::with_capacity(alloc, keep as usize)?;
        let spare = spare_buffers(alloc, keep, width)?;
        Ok(Kept {
            calls,
            spare,
            keep,
            width,
        })
    }

    /// Whether calls are kept, and no more of them.
    pub fn is_full(&self) -> bool
        ensures { result ≡ (nat_lt 0 self.now.keep && nat_le self.now.keep (length self.now.calls)) }
    {
        self.keep > 0 && self.keep as usize <= self.calls.len()
    }

    /// Keeps a call, if there is room.
    pub fn add(&mut self, call: Call)
        ensures keep { self.new.keep ≡ self.old.keep }
        ensures width { self.new.width ≡ self.old.width }
        ensures calls { self.new.calls ≡ with_call self.old.keep self.old.calls call }
    {
        if self.calls.len() < self.keep as usize {
            record_call(&mut self.calls, call);
        }
    }

    /// Keeps a write, if there is room.
    pub fn add_write(&mut self, unit: u32, block: u32, bytes: &[u8], failed: bool)
        requires { length bytes.now ≤ self.old.width }
        ensures keep { self.new.keep ≡ self.old.keep }
        ensures width { self.new.width ≡ self.old.width }
        ensures calls { WithWrite self.old.keep self.old.calls self.new.calls unit block bytes.now failed }
    {
        if self.calls.len() < self.keep as usize {
            let bytes = filled_spare(&mut self.spare, bytes);
            record_call(
                &mut self.calls,
                Call::Write {
                    unit,
                    block,
                    bytes,
                    failed,
                },
            );
        }
    }

    /// The calls that are kept, the first of them first.
    pub fn calls(&self) -> &[Call]
        ensures { result.now ≡ self.now.calls }
    {
        self.calls.as_slice()
    }

    /// How many are kept at most.
    pub fn keep(&self) -> u32
        ensures { result ≡ self.now.keep }
    {
        self.keep
    }
}

/// Buffers for the bytes of so many writes.
fn spare_buffers(alloc: Global, count: u32, width: u32) -> Result<Vec<Vec<u8>>, AllocError>
    ensures count { IfOk result (λ spare. vec_len spare ≡ count) }
    ensures spare { IfOk result (λ spare. All (IsSpare width) spare.items) }
{
    let mut spare = Vec::new(alloc);
    for made in 0..count {
        spare.push(Vec::with_capacity(alloc, width as usize)?)?;
    }
    Ok(spare)
}

/// Takes a spare buffer and fills it.
fn filled_spare(spare: &mut Vec<Vec<u8>>, bytes: &[u8]) -> Vec<u8>
    requires some { 0 < vec_len spare.old }
    requires room { All (IsSpare (length bytes.now)) spare.old.items }
    ensures bytes { result.items ≡ bytes.now }
    ensures rest { spare.new.items ≡ take (vec_len spare.old - 1) spare.old.items }
{
    let Some(mut buffer) = spare.pop() else {
        unreachable!()
    };
    match buffer.extend_from_slice(bytes) {
        Ok(()) => buffer,
        Err(_) => unreachable!(),
    }
}

/// Keeps a call, for which there is room.
fn record_call(calls: &mut Vec<Call>, call: Call)
    requires { vec_len calls.old < vec_capacity calls.old }
    ensures items { calls.new.items ≡ calls.old.items ++ call ∷ [] }
    ensures capacity { vec_capacity calls.old ≤ vec_capacity calls.new }
{
    match calls.push(call) {
        Ok(()) => {}
        Err(_) => unreachable!(),
    }
}
