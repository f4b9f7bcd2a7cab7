//! What the blocks of a journal say.

ghost use Rattle.std.specs.Prelude.{◌≡◌, ◌≢◌, ◌<◌, ◌≤◌, ◌+◌, ◌*◌, ◌↔◌, ℕ, List, All, AllPairs, Contains, length, take, drop, slice_index, slice_index_or, true, false, IsTrue, IfSome, IfNone, IfOk, IfErr, OnOk};
ghost use Rattle.dasd_pool.specs.Count.{HasCause};
ghost use Rattle.redo_core.specs.declared.target.Target.{Target};
ghost use Rattle.vol_label.specs.declared.serial.Serial.{Serial};
ghost use Rattle.vol_label.specs.Serial.{IsSerial};
ghost use Rattle.redo_core.specs.declared.fault.JournalRule.{JournalRule};
ghost use Rattle.redo_core.specs.Format.{wide, number_at, control_in, is_filling, targets_in, directory_in, serials_in};
ghost use Rattle.redo_core.specs.Reading.{journal_of, IsTarget, IsDirectory, IsControl, IsRegistration};
ghost use Rattle.redo_core.specs.Looks.{OnlyLooks};
ghost use Rattle.redo_core.specs.Faults.{zeroed, Breaks};

use crate::control::Control;
use crate::fault::{JournalFault, JournalRule, broken};
use crate::target::Target;
use byteorder::{BigEndian, ByteOrder};
use ckd_image::NoMemory;
use ckd_image::text::{begins, tail};
use dasd_pool::{Pool, PoolFault};
use std::alloc::Global;
use vol_label::{Serial, is_serial};

/// What a registration begins with.
pub(crate) const MAGIC: &[u8] = b"ADRREG01";

/// Reads a block of the journal, or zeros past its end.
pub fn read_or_zeros<P: Pool>(
    pool: &mut P,
    journal: u32,
    block: u32,
    buffer: &mut [u8],
) -> Result<(), PoolFault>
    requires last { journal + 1 ≡ (P.shape pool.old).units }
    requires size { length buffer.old ≡ (P.shape pool.old).block_size journal }
    ensures looks { OnlyLooks P.Pool pool.old pool.new }
    ensures bytes { P.tells → OnOk result (buffer.new ≡ zeroed (P.shape pool.old) (P.disk pool.old).state.contents (journal_of (P.shape pool.old)) block) }
    ensures cause { HasCause (P.faults pool.old) (P.faults pool.new) result }
{
    if block >= pool.blocks(journal) {
        buffer.fill(0);
        return Ok(());
    }
    pool.read(journal, block, buffer)?;
    Ok(())
}

/// The number of four bytes at a place, the highest first.
fn u32_at(block: &[u8], place: usize) -> u32
    requires { place + 4 ≤ length block.now }
    ensures { result ≡ number_at place block.now }
{
    BigEndian::read_u32(tail(block, place))
}

/// So many targets of a directory.
fn targets_of(alloc: Global, block: &[u8], count: u32) -> Result<Vec<Target>, NoMemory>
    requires { 4 + 8 * count ≤ length block.now }
    ensures { IfOk result (λ found. found.items ≡ targets_in count (drop 4 block.now)) }
{
    let mut found = Vec::with_capacity(alloc, count as usize)?;
    for k in 0..count as usize {
        let unit = u32_at(block, 4 + 8 * k);
        let block = u32_at(block, 8 + 8 * k);
        found.push(Target { unit, block })?;
    }
    Ok(found)
}

/// Whether a target is there.
fn is_there<P: Pool>(pool: &P, journal: u32, target: Target) -> bool
    requires { journal < (P.shape pool.now).units }
    ensures { IsTrue result ↔ IsTarget (P.shape pool.now) journal target }
{
    if target.unit > journal || target.unit == journal && target.block != 2 {
        return false;
    }
    target.block < pool.blocks(target.unit)
}

/// Whether all targets are there.
fn are_there<P: Pool>(pool: &P, journal: u32, targets: &[Target]) -> bool
    requires { journal < (P.shape pool.now).units }
    ensures { IsTrue result ↔ All (IsTarget (P.shape pool.now) journal) targets.now }
{
    for target in targets {
        if !is_there(pool, journal, *target) {
            return false;
        }
    }
    true
}

/// Whether a target is one of these.
fn is_among(target: Target, targets: &[Target]) -> bool
    ensures { IsTrue result ↔ Contains targets.now target }
{
    targets.contains(&target)
}

/// Whether no target stands twice.
pub fn are_apart(targets: &[Target]) -> bool
    ensures { IsTrue result ↔ AllPairs (λ one other. one ≢ other) targets.now }
{
    for place in 0..targets.len() {
        if is_among(targets[place], &targets[place + 1..]) {
            return false;
        }
    }
    true
}

/// What the control block says, where it says what it may.
pub fn control_of<P: Pool>(pool: &P, journal: u32, block: &[u8]) -> Option<Control>
    requires last { journal + 1 ≡ (P.shape pool.now).units }
    requires size { 24 ≤ length block.now }
    ensures found { IfSome result (λ control. IsControl (P.shape pool.now) block.now × (control ≡ control_in block.now)) }
    ensures none { IfNone result (¬ IsControl (P.shape pool.now) block.now) }
{
    match block[0] {
        0 => Some(Control::Idle),
        1 => slide_of(pool, journal, block),
        _ => None,
    }
}

/// The slide that a control block says, where it is lawful.
fn slide_of<P: Pool>(pool: &P, journal: u32, block: &[u8]) -> Option<Control>
    requires last { journal + 1 ≡ (P.shape pool.now).units }
    requires size { 24 ≤ length block.now }
    requires open { slice_index block.now 0 ≡ 1 }
    ensures found { IfSome result (λ control. IsControl (P.shape pool.now) block.now × (control ≡ control_in block.now)) }
    ensures none { IfNone result (¬ IsControl (P.shape pool.now) block.now) }
{
    let unit = u32_at(block, 4);
    let from = u32_at(block, 8);
    let to = u32_at(block, 12);
    let len = u32_at(block, 16);
    let done = u32_at(block, 20);
    if unit >= journal || to >= from || len == 0 || done > len {
        return None;
    }
    if u64::from(from) + u64::from(len) > u64::from(pool.blocks(unit)) {
        return None;
    }
    Some(Control::Slide {
        unit,
        from,
        to,
        len,
        done,
    })
}

/// For each unit number whether a fill is open.
pub fn fills_in(block: &[u8]) -> [bool; 64]
    requires { 128 ≤ length block.now }
    ensures { (u : ℕ) → u < 64 → slice_index_or result u false ≡ is_filling block.now u }
{
    let mut fills = [false; 64];
    for unit in 0..64usize {
        fills[unit] = block[64 + unit] == 1;
    }
    fills
}

/// The targets of an open body.
pub fn body_of<P: Pool>(
    alloc: Global,
    pool: &P,
    journal: u32,
    block: &[u8],
    room: u32,
) -> Result<Vec<Target>, JournalFault>
    requires journal { journal < (P.shape pool.now).units }
    requires size { length block.now ≡ wide }
    requires room { room ≤ 8191 }
    ensures found { IfOk result (λ targets. (targets.items ≡ directory_in block.now) × IsDirectory (P.shape pool.now) journal room targets.items) }
    ensures refused { IfErr result (Breaks JournalRule.Body (¬ IsDirectory (P.shape pool.now) journal room (directory_in block.now))) }
{
    let count = u32_at(block, 0);
    if count == 0 || count > room {
        return Err(broken(JournalRule::Body));
    }
    let targets = targets_of(alloc, block, count)?;
    if !are_there(pool, journal, &targets) || !are_apart(&targets) {
        return Err(broken(JournalRule::Body));
    }
    Ok(targets)
}

/// What a registration says.
#[derive(Drop)]
pub(crate) struct Registration {
    pub names: Vec<Serial>,
    pub room: u32,
}

/// The six bytes at a place.
fn six_at(block: &[u8], place: usize) -> [u8; 6]
    requires { place + 6 ≤ length block.now }
    ensures { result ≡ take 6 (drop place block.now) }
{
    let mut text = [0; 6];
    text.copy_from_slice(&block[place..place + 6]);
    text
}

/// So many serials of a registration.
fn serials_of(alloc: Global, block: &[u8], count: u32) -> Result<Vec<Serial>, NoMemory>
    requires { 16 + 6 * count ≤ length block.now }
    ensures { IfOk result (λ found. found.items ≡ serials_in count (drop 16 block.now)) }
{
    let mut found = Vec::with_capacity(alloc, count as usize)?;
    for k in 0..count as usize {
        let text = six_at(block, 16 + 6 * k);
        found.push(Serial { text })?;
    }
    Ok(found)
}

/// Whether all of them are serials.
pub fn are_serials(names: &[Serial]) -> bool
    ensures { IsTrue result ↔ All (λ name. IsSerial name.text) names.now }
{
    for name in names {
        if !is_serial(&name.text) {
            return false;
        }
    }
    true
}

/// The registration of so many volumes.
pub fn registration_of(
    alloc: Global,
    block: &[u8],
    volumes: u32,
) -> Result<Registration, JournalFault>
    requires size { length block.now ≡ wide }
    requires some { 1 ≤ volumes }
    requires few { volumes ≤ 64 }
    ensures count { IfOk result (λ r. length r.names.items ≡ volumes) }
    ensures found { IfOk result (λ r. IsRegistration volumes block.now r.names.items r.room) }
    ensures refused { IfErr result (Breaks JournalRule.Registration ((names : List Serial) (room : ℕ) → ¬ IsRegistration volumes block.now names room)) }
{
    if !begins(block, MAGIC) || u32_at(block, 8) != volumes {
        return Err(broken(JournalRule::Registration));
    }
    let room = u32_at(block, 12);
    if room < 3 || room > 8191 {
        return Err(broken(JournalRule::Registration));
    }
    let names = serials_of(alloc, block, volumes)?;
    if !are_serials(&names) {
        return Err(broken(JournalRule::Registration));
    }
    Ok(Registration { names, room })
}
