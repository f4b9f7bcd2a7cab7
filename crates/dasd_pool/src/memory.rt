//! A pool in memory: what it holds, and either the calls so far or a mark for each block.

ghost use Rattle.std.specs.Prelude.{◌≡◌, ◌*◌, ◌/◌, min, ◌^◌, ◌-◌, ◌+◌, ◌≤◌, ◌<◌, [], ℕ, length, take, drop, slice_set, slice_index_or, IsOk, IfOk, OnOk, OnErr, All, if◌then◌else◌};
ghost use Rattle.dasd_pool.specs.declared.calls.Call.TheVariants.{Read, Sync};
ghost use Rattle.dasd_pool.specs.Count.{HasCause};
ghost use Rattle.dasd_pool.specs.Disk.{Runs, none, is_at, IsSynced};
ghost use Rattle.dasd_pool.specs.Calls.{LeftSince, block_at, IsKept, written, size_in, size_of, texts_of, items_of, first_state, shape_of};
ghost use Rattle.dasd_pool.specs.Memory.{fresh, disk_of, state_of, is_full, fails, IsCall, Keeps, KeepsWrite, write_step, sync_step, IsLeftOf};
ghost use Rattle.dasd_pool.specs.Tears.{torn, trace_after, trace_first, IsSized, IsTornFrom, torn_image};

use crate::calls::{Call, Tear};
use crate::failures::Failures;
use crate::kept::Kept;
use crate::marks::Marks;
use crate::pool::{Pool, PoolFault};
use crate::tear::torn_block;
use crate::units::{UnitText, block_count, said_size};
use ckd_image::{Bytes, NoMemory};
use std::alloc::{AllocError, Global};
use std::marker::Model;

/// A pool in memory, which tells all that it holds, and fails at the calls that it is told. It keeps its first calls, or
/// if it is to keep none, one mark for each block. All its memory is taken when it is made.
#[derive(Debug, Drop)]
pub struct MemoryPool {
    first: Vec<UnitText>,
    texts: Vec<Vec<u8>>,
    kept: Kept,
    marks: Marks,
    failures: Failures,
}

impl Model for MemoryPool {
    ghost use Rattle.std.specs.Prelude.{ℕ};
    ghost use Rattle.dasd_pool.specs.declared.units.UnitText.{UnitText};
    ghost use Rattle.dasd_pool.specs.Calls.{items_of};
    ghost use Rattle.dasd_pool.specs.Memory.{MemoryView, Agree, view_of};

    ghost Value = { MemoryView };

    ghost view = { λ m. view_of m.first.items (items_of m.texts.items) m.kept m.marks m.failures };

    ghost invariant = { λ m. Agree (view_of m.first.items (items_of m.texts.items) m.kept m.marks m.failures) m.kept.width };
}

impl MemoryPool {
    /// A pool with these units, all of them synced. It keeps so many calls, and fails at some.
    pub fn new(
        alloc: Global,
        units: Vec<UnitText>,
        failing: Vec<u64>,
        keep: u32,
    ) -> Result<MemoryPool, NoMemory>
        ensures fresh { IfOk result (λ m. m ≡ fresh units.items failing.items keep) }
        ensures state { IfOk result (λ m. state_of m ≡ first_state units.items) }
    {
        if units.len() > u32::MAX as usize {
            return Err(NoMemory);
        }
        let texts = texts_in(alloc, &units)?;
        let kept = Kept::new(alloc, keep, largest_size(&units))?;
        let marks = Marks::new(alloc, &units, keep)?;
        let failures = Failures {
            told: failing,
            count: 0,
            faults: 0,
        };
        Ok(MemoryPool {
            first: units,
            texts,
            kept,
            marks,
            failures,
        })
    }

    /// The pool as a stop after so many of the kept calls leaves it, or after all where it kept fewer, each block that is
    /// not synced torn. A pool that keeps calls comes back as its disk says that a stop may leave it, and one that keeps none
    /// as it was at first.
    pub fn crash(&self, alloc: Global, calls: u64, tear: Tear) -> Result<MemoryPool, NoMemory>
        ensures torn { IfOk result (λ m. IsTornFrom tear self.now.units (take calls self.now.calls) m.units) }
        ensures fresh { IfOk result (λ m. (m.calls ≡ []) × (m.failing ≡ []) × (m.keep ≡ self.now.keep)) }
        ensures shape { IfOk result (λ m. shape_of m.units ≡ shape_of self.now.units) }
        ensures whole { IfOk result (λ m. m ≡ fresh m.units [] self.now.keep) }
        ensures state { IfOk result (λ m. state_of m ≡ first_state m.units) }
        ensures first { IfOk result (λ m. self.now.keep ≡ 0 → (u b : ℕ) → u < length self.now.units → b < (shape_of self.now.units).blocks u
            → (state_of m).contents u b ≡ (first_state self.now.units).contents u b) }
        ensures possible { (since : ℕ) → since ≤ min calls (length self.now.calls)
            → LeftSince (first_state self.now.units) self.now.calls since (torn_image tear self.now.units (take calls self.now.calls)) }
        ensures left { IfOk result (λ m. 0 < self.now.keep → (since : ℕ) → since ≤ min calls (length self.now.calls) → IsLeftOf self.now since m) }
    {
        let kept = self.kept.calls();
        let count = (calls as usize).min(kept.len());
        let units = torn_units(alloc, &self.first, &kept[..count], tear)?;
        MemoryPool::new(alloc, units, Vec::new(alloc), self.kept.keep())
    }

    /// How many calls there were, those that failed among them.
    pub fn calls(&self) -> u64
        ensures { result ≡ self.now.count }
    {
        self.failures.count
    }

    /// Reads a block.
    fn read_block(&mut self, unit: u32, block: u32, buf: &mut [u8]) -> Result<(), PoolFault>
        requires unit { unit < length self.old.units }
        requires block { block < (shape_of self.old.units).blocks unit }
        requires size { length buf.old ≡ size_of self.old.units unit }
        ensures call { IsCall self.old self.new result }
        ensures kept { Keeps self.old self.new (Read unit block (fails self.old)) }
        ensures same { state_of self.new ≡ state_of self.old }
        ensures bytes { OnOk result (buf.new ≡ (state_of self.old).contents unit block) }
    {
        let failed = self.failures.next_fails(self.kept.is_full());
        self.kept.add(Call::Read {
            unit,
            block,
            failed,
        });
        if failed {
            return Err(PoolFault);
        }
        get(&self.texts, unit as usize, block as usize * buf.len(), buf);
        Ok(())
    }

    /// Writes a block.
    fn write_block(&mut self, unit: u32, block: u32, buf: &[u8]) -> Result<(), PoolFault>
        requires unit { unit < length self.old.units }
        requires block { block < (shape_of self.old.units).blocks unit }
        requires size { length buf.now ≡ size_of self.old.units unit }
        ensures call { IsCall self.old self.new result }
        ensures kept { KeepsWrite self.old self.new unit block buf.now (fails self.old) }
        ensures state { state_of self.new ≡ (if is_full self.old then state_of self.old else write_step unit block buf.now (fails self.old) (state_of self.old)) }
    {
        let failed = self.failures.next_fails(self.kept.is_full());
        self.kept.add_write(unit, block, buf, failed);
        self.marks.set(unit as usize, block as usize);
        if failed {
            return Err(PoolFault);
        }
        put(
            &mut self.texts,
            unit as usize,
            block as usize * buf.len(),
            buf,
        );
        Ok(())
    }

    /// Makes the writes so far durable.
    fn sync_blocks(&mut self) -> Result<(), PoolFault>
        ensures call { IsCall self.old self.new result }
        ensures kept { Keeps self.old self.new (Sync (fails self.old)) }
        ensures state { state_of self.new ≡ sync_step (fails self.old) (state_of self.old) }
    {
        let failed = self.failures.next_fails(self.kept.is_full());
        self.kept.add(Call::Sync { failed });
        if failed {
            return Err(PoolFault);
        }
        self.marks.clear();
        Ok(())
    }
}

/// A copy of the bytes of each unit.
fn texts_in(alloc: Global, units: &[UnitText]) -> Result<Vec<Vec<u8>>, AllocError>
    ensures { IfOk result (λ texts. items_of texts.items ≡ texts_of units.now) }
{
    let mut texts = Vec::new(alloc);
    for unit in units {
        texts.push(unit.blocks.as_slice().to_vec(alloc)?)?;
    }
    Ok(texts)
}

/// The size of the largest blocks of any unit.
fn largest_size(units: &[UnitText]) -> u32
    ensures { (u : ℕ) → size_of units.now u ≤ result }
{
    let mut largest = 0;
    for unit in units {
        largest = said_size(&unit.head).max(largest);
    }
    largest
}

/// Writes these bytes over those at an offset.
fn put_text(text: &mut Vec<u8>, at: usize, bytes: &[u8])
    requires { at + length bytes.now ≤ length text.old.items }
    ensures { text.new.items ≡ written text.old.items at bytes.now }
{
    text[at..at + bytes.len()].copy_from_slice(bytes);
}

/// Writes these bytes over those of a unit at an offset.
fn put(texts: &mut Vec<Vec<u8>>, unit: usize, at: usize, bytes: &[u8])
    requires unit { unit < length texts.old.items }
    requires room { at + length bytes.now ≤ length (slice_index_or (items_of texts.old.items) unit []) }
    ensures { items_of texts.new.items ≡ slice_set (items_of texts.old.items) unit (written (slice_index_or (items_of texts.old.items) unit []) at bytes.now) }
{
    put_text(&mut texts[unit], at, bytes);
}

/// Reads the bytes of a unit at an offset.
fn get(texts: &Vec<Vec<u8>>, unit: usize, at: usize, buf: &mut [u8])
    requires unit { unit < length texts.now.items }
    requires room { at + length buf.old ≤ length (slice_index_or (items_of texts.now.items) unit []) }
    ensures { buf.new ≡ take (length buf.old) (drop at (slice_index_or (items_of texts.now.items) unit [])) }
{
    let text = &texts[unit];
    buf.copy_from_slice(&text[at..at + buf.len()]);
}

/// The bytes of a unit after calls, each block torn.
fn torn_unit(
    alloc: Global,
    unit: &UnitText,
    number: u32,
    calls: &[Call],
    tear: Tear,
) -> Result<Bytes, NoMemory>
    requires { All (IsSized number (size_in unit.now.head)) calls.now }
    ensures long { IfOk result (λ text. length text ≡ length unit.now.blocks) }
    ensures torn { IfOk result (λ text. (b : ℕ) → b < min (length unit.now.blocks / size_in unit.now.head) (2 ^ 32 - 1)
        → block_at (size_in unit.now.head) text b
        ≡ torn tear (trace_after number b (trace_first (block_at (size_in unit.now.head) unit.now.blocks b)) calls.now)) }
{
    let size = said_size(&unit.head);
    let count = block_count(unit.blocks.len(), size);
    let first = unit.blocks.as_slice();
    let mut text = first.to_vec(alloc)?;
    for block in 0..count {
        let at = block as usize * size as usize;
        let out = torn_block(
            alloc,
            &first[at..at + size as usize],
            number,
            block,
            calls,
            tear,
        )?;
        put_text(&mut text, at, &out);
    }
    Ok(Bytes::from_vec(text))
}

/// The units after calls, each block torn.
fn torn_units(
    alloc: Global,
    first: &[UnitText],
    calls: &[Call],
    tear: Tear,
) -> Result<Vec<UnitText>, NoMemory>
    requires few { length first.now < 2 ^ 32 }
    requires kept { All (IsKept first.now) calls.now }
    ensures torn { IfOk result (λ units. IsTornFrom tear first.now calls.now units.items) }
    ensures count { IfOk result (λ units. length units.items ≡ length first.now) }
    ensures shape { IfOk result (λ units. shape_of units.items ≡ shape_of first.now) }
{
    let mut units = Vec::new(alloc);
    let mut number = 0u32;
    for unit in first {
        let blocks = torn_unit(alloc, unit, number, calls, tear)?;
        units.push(UnitText {
            head: unit.head,
            blocks,
        })?;
        number += 1;
    }
    Ok(units)
}

impl Pool for MemoryPool {
    ghost shape = { λ m. shape_of m.units };

    ghost faults = { λ m. m.faults };

    ghost tells = { Unit {0} };

    ghost disk = { λ m. disk_of m };

    fn units(&self) -> u32 {
        self.first.len() as u32
    }

    fn head(&self, unit: u32) -> [u8; 512] {
        self.first[unit as usize].head
    }

    fn block_size(&self, unit: u32) -> u32 {
        said_size(&self.first[unit as usize].head)
    }

    fn sizes(&self) {
        let _ = &self.texts;
    }

    fn blocks(&self, unit: u32) -> u32 {
        let unit = &self.first[unit as usize];
        block_count(unit.blocks.len(), said_size(&unit.head))
    }

    fn read(&mut self, unit: u32, block: u32, buf: &mut [u8]) -> Result<(), PoolFault>
        requires unit { unit < length self.old.units }
        requires block { block < (shape_of self.old.units).blocks unit }
        requires size { length buf.old ≡ size_of self.old.units unit }
        ensures shape { shape_of self.new.units ≡ shape_of self.old.units }
        ensures bytes { OnOk result (buf.new ≡ (state_of self.old).contents unit block) }
        ensures same { state_of self.new ≡ state_of self.old }
        ensures runs { Runs none (disk_of self.old) (disk_of self.new) }
        ensures cause { HasCause self.old.faults self.new.faults result }
        ensures call { IsCall self.old self.new result }
        ensures kept { Keeps self.old self.new (Read unit block (fails self.old)) }
    {
        self.read_block(unit, block, buf)
    }

    /// Each unit may be written, and to ask is no call that could fail.
    fn ask_to_write(&mut self, unit: u32) -> Result<(), PoolFault>
        requires { unit < length self.old.units }
        ensures ok { IsOk result }
        ensures same { self.new ≡ self.old }
    {
        let _ = unit;
        Ok(())
    }

    /// A failed write keeps the old bytes, and makes the block unsynced. Past the calls that are kept it changes nothing.
    fn write(&mut self, unit: u32, block: u32, buf: &[u8]) -> Result<(), PoolFault>
        requires unit { unit < length self.old.units }
        requires block { block < (shape_of self.old.units).blocks unit }
        requires size { length buf.now ≡ size_of self.old.units unit }
        ensures shape { shape_of self.new.units ≡ shape_of self.old.units }
        ensures written { OnOk result ((state_of self.new).contents unit block ≡ buf.now) }
        ensures runs { Runs (is_at unit block) (disk_of self.old) (disk_of self.new) }
        ensures cause { HasCause self.old.faults self.new.faults result }
        ensures call { IsCall self.old self.new result }
        ensures kept { KeepsWrite self.old self.new unit block buf.now (fails self.old) }
        ensures state { state_of self.new ≡ (if is_full self.old then state_of self.old else write_step unit block buf.now (fails self.old) (state_of self.old)) }
    {
        self.write_block(unit, block, buf)
    }

    /// A failed sync changes nothing.
    fn sync(&mut self) -> Result<(), PoolFault>
        ensures shape { shape_of self.new.units ≡ shape_of self.old.units }
        ensures synced { OnOk result (IsSynced (state_of self.new)) }
        ensures not_synced { OnErr result (state_of self.new ≡ state_of self.old) }
        ensures runs { Runs none (disk_of self.old) (disk_of self.new) }
        ensures cause { HasCause self.old.faults self.new.faults result }
        ensures call { IsCall self.old self.new result }
        ensures kept { Keeps self.old self.new (Sync (fails self.old)) }
        ensures state { state_of self.new ≡ sync_step (fails self.old) (state_of self.old) }
    {
        self.sync_blocks()
    }
}
