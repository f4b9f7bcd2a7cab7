//! Making a journal.

ghost use Rattle.std.specs.Prelude.{◌≡◌, ◌⊎◌, ◌<◌, ◌≤◌, ◌+◌, ◌-◌, ◌*◌, ◌↔◌, ◌==◌, ◌++◌, ℕ, length, replicate, true, IsTrue, IfOk, IfErr, OnOk};
ghost use Rattle.dasd_pool.specs.Count.{Rose, HasCause};
ghost use Rattle.dasd_pool.specs.Disk.{IsSynced, LeavesOnly, Runs, none, is_at};
ghost use Rattle.vol_label.specs.declared.serial.Serial.{Serial};
ghost use Rattle.redo_core.specs.Opening.{AreNames, IsFormatted, MakingLeaves, SparesVolumes};
ghost use Rattle.redo_core.specs.Looks.{OnlyLooks};
ghost use Rattle.redo_core.specs.Faults.{zeroed, IsInUse, IsShort, IsFormatFault, MayFormat};
ghost use Rattle.redo_core.specs.Reading.{HasHead};
ghost use Rattle.redo_core.specs.Steps.{IsJournal, of_making, of_status};
ghost use Rattle.byteorder.specs.Endian.{big_bytes};
ghost use Rattle.redo_core.specs.Format.{wide, registration_magic, registration_text, is_open, is_filling};

use crate::blocks::fill;
use crate::fault::{JournalFault, JournalRule, broken};
use crate::head::has_head;
use crate::labels::check_labels;
use crate::survey::{MAGIC, read_or_zeros};
use ckd_image::text::{begins, put_over};
use dasd_pool::{Pool, PoolFault};
use std::alloc::Global;
use vol_label::Serial;

/// The six bytes of a serial.
fn serial_bytes(serial: &Serial) -> &[u8]
    ensures bytes { result.now ≡ serial.now.text }
    ensures six { length result.now ≡ 6 }
{
    &serial.text
}

/// The front of a registration: magic, number of volumes, and room.
fn front(count: u32, room: u32) -> [u8; 16]
    ensures { result ≡ registration_magic ++ (big_bytes 4 count ++ big_bytes 4 room) }
{
    let [a, b, c, d] = count.to_be_bytes();
    let [e, f, g, h] = room.to_be_bytes();
    [
        b'A', b'D', b'R', b'R', b'E', b'G', b'0', b'1', a, b, c, d, e, f, g, h,
    ]
}

/// Writes a registration, and zeros after it.
fn put_registration(buffer: &mut [u8], names: &[Serial], room: u32)
    requires size { length buffer.old ≡ wide }
    requires few { length names.now ≤ 64 }
    ensures { buffer.new ≡ registration_text names.now room ++ replicate (wide - (16 + 6 * length names.now)) 0 }
{
    fill(buffer, &front(names.len() as u32, room));
    let mut place = 16;
    for name in names {
        put_over(buffer, place, serial_bytes(name));
        place += 6;
    }
}

/// Writes an empty journal: first no registration, then gate and control, then the registration.
fn write_journal<P: Pool>(
    pool: &mut P,
    journal: u32,
    names: &[Serial],
    room: u32,
    buffer: &mut [u8],
) -> Result<(), PoolFault>
    requires journal { IsJournal (P.shape pool.old) journal room }
    requires size { length buffer.old ≡ wide }
    requires few { length names.now ≤ 64 }
    ensures shape { P.shape pool.new ≡ P.shape pool.old }
    ensures registration { P.tells → OnOk result ((P.disk pool.new).state.contents journal 0
        ≡ registration_text names.now room ++ replicate (wide - (16 + 6 * length names.now)) 0) }
    ensures gate { P.tells → OnOk result ((P.disk pool.new).state.contents journal 1 ≡ replicate wide 0) }
    ensures control { P.tells → OnOk result ((P.disk pool.new).state.contents journal 2 ≡ replicate wide 0) }
    ensures synced { P.tells → OnOk result (IsSynced (P.disk pool.new).state) }
    ensures runs { P.tells → Runs (of_making journal) (P.disk pool.old) (P.disk pool.new) }
    ensures left { P.tells → LeavesOnly (P.disk pool.old) (P.disk pool.new) (MakingLeaves (P.shape pool.old) (P.disk pool.old).state) }
    ensures cause { HasCause (P.faults pool.old) (P.faults pool.new) result }
{
    clear_registration(pool, journal, buffer)?;
    clear_status(pool, journal, buffer)?;
    write_registration(pool, journal, names, room, buffer)?;
    Ok(())
}

/// Writes zeros to the registration, and syncs them.
fn clear_registration<P: Pool>(
    pool: &mut P,
    journal: u32,
    buffer: &mut [u8],
) -> Result<(), PoolFault>
    requires journal { IsJournal (P.shape pool.old) journal 0 }
    requires size { length buffer.old ≡ wide }
    ensures shape { P.shape pool.new ≡ P.shape pool.old }
    ensures cleared { P.tells → OnOk result ((P.disk pool.new).state.contents journal 0 ≡ replicate wide 0) }
    ensures synced { P.tells → OnOk result (IsSynced (P.disk pool.new).state) }
    ensures runs { P.tells → Runs (is_at journal 0) (P.disk pool.old) (P.disk pool.new) }
    ensures cause { HasCause (P.faults pool.old) (P.faults pool.new) result }
{
    fill(buffer, &[]);
    pool.write(journal, 0, buffer)?;
    pool.sync()?; // before gate and control are cleared
    Ok(())
}

/// Writes zeros to gate and control, and syncs them.
fn clear_status<P: Pool>(pool: &mut P, journal: u32, buffer: &mut [u8]) -> Result<(), PoolFault>
    requires journal { IsJournal (P.shape pool.old) journal 0 }
    requires size { length buffer.old ≡ wide }
    ensures shape { P.shape pool.new ≡ P.shape pool.old }
    ensures gate { P.tells → OnOk result ((P.disk pool.new).state.contents journal 1 ≡ replicate wide 0) }
    ensures control { P.tells → OnOk result ((P.disk pool.new).state.contents journal 2 ≡ replicate wide 0) }
    ensures synced { P.tells → OnOk result (IsSynced (P.disk pool.new).state) }
    ensures runs { P.tells → Runs (of_status journal) (P.disk pool.old) (P.disk pool.new) }
    ensures cause { HasCause (P.faults pool.old) (P.faults pool.new) result }
{
    fill(buffer, &[]);
    pool.write(journal, 1, buffer)?;
    pool.write(journal, 2, buffer)?;
    pool.sync()?; // before the registration stands
    Ok(())
}

/// Writes the registration, and syncs it.
fn write_registration<P: Pool>(
    pool: &mut P,
    journal: u32,
    names: &[Serial],
    room: u32,
    buffer: &mut [u8],
) -> Result<(), PoolFault>
    requires journal { IsJournal (P.shape pool.old) journal 0 }
    requires size { length buffer.old ≡ wide }
    requires few { length names.now ≤ 64 }
    ensures shape { P.shape pool.new ≡ P.shape pool.old }
    ensures registration { P.tells → OnOk result ((P.disk pool.new).state.contents journal 0
        ≡ registration_text names.now room ++ replicate (wide - (16 + 6 * length names.now)) 0) }
    ensures synced { P.tells → OnOk result (IsSynced (P.disk pool.new).state) }
    ensures runs { P.tells → Runs (is_at journal 0) (P.disk pool.old) (P.disk pool.new) }
    ensures cause { HasCause (P.faults pool.old) (P.faults pool.new) result }
{
    put_registration(buffer, names, room);
    pool.write(journal, 0, buffer)?;
    pool.sync()?;
    Ok(())
}

/// Whether a registration stands, and a body, a slide or a fill is open.
fn is_in_use<P: Pool>(pool: &mut P, journal: u32, buffer: &mut [u8]) -> Result<bool, PoolFault>
    requires last { journal + 1 ≡ (P.shape pool.old).units }
    requires width { (P.shape pool.old).block_size journal ≡ wide }
    requires size { length buffer.old ≡ wide }
    ensures looks { OnlyLooks P.Pool pool.old pool.new }
    ensures used { P.tells → IfOk result (λ used. IsTrue used ↔ IsInUse (P.shape pool.old) (zeroed (P.shape pool.old) (P.disk pool.old).state.contents)) }
    ensures cause { HasCause (P.faults pool.old) (P.faults pool.new) result }
{
    read_or_zeros(pool, journal, 0, buffer)?;
    if !begins(buffer, MAGIC) {
        return Ok(false);
    }
    read_or_zeros(pool, journal, 1, buffer)?;
    if buffer[0] == 1 {
        return Ok(true);
    }
    read_or_zeros(pool, journal, 2, buffer)?;
    Ok(is_under_way(buffer))
}

/// Whether a control block says that a slide or a fill is open.
fn is_under_way(block: &[u8]) -> bool
    requires { 128 ≤ length block.now }
    ensures { IsTrue result ↔ ((is_open block.now ≡ true) ⊎ ((u : ℕ) × (u < 64) × (is_filling block.now u ≡ true))) }
{
    if block[0] == 1 {
        return true;
    }
    for unit in 0..64usize {
        if block[64 + unit] == 1 {
            return true;
        }
    }
    false
}

/// Whether a journal may be made: head, use, labels and length.
fn may_format<P: Pool>(
    alloc: Global,
    pool: &mut P,
    journal: u32,
    names: &[Serial],
    room: u32,
    buffer: &mut [u8],
) -> Result<(), JournalFault>
    requires last { journal + 1 ≡ (P.shape pool.old).units }
    requires few { journal ≤ 64 }
    requires size { length buffer.old ≡ wide }
    requires names { length names.now ≡ journal }
    requires most { room ≤ 8191 }
    ensures looks { OnlyLooks P.Pool pool.old pool.new }
    ensures head { OnOk result (HasHead (P.shape pool.old)) }
    ensures long { OnOk result (4 + room ≤ (P.shape pool.old).blocks journal) }
    ensures allowed { P.tells → OnOk result (MayFormat (P.shape pool.old) (P.disk pool.old).state.contents names.now room) }
    ensures refused { P.tells → IfErr result (IsFormatFault (P.shape pool.old) (P.disk pool.old).state.contents names.now room) }
    ensures cause { IfErr result (λ fault. fault ≡ JournalFault.Pool → Rose (P.faults pool.old) (P.faults pool.new)) }
{
    if !has_head(pool, journal) {
        return Err(broken(JournalRule::Head));
    }
    if is_in_use(pool, journal, buffer)? {
        return Err(broken(JournalRule::InUse));
    }
    match check_labels(alloc, pool, journal, &[], names, buffer) {
        Ok(()) => check_length(pool, journal, room),
        Err(fault) => Err(fault),
    }
}

/// Whether the journal has blocks for so many images.
fn check_length<P: Pool>(pool: &P, journal: u32, room: u32) -> Result<(), JournalFault>
    requires journal { journal < (P.shape pool.now).units }
    requires most { room ≤ 8191 }
    ensures long { OnOk result (4 + room ≤ (P.shape pool.now).blocks journal) }
    ensures short { IfErr result (IsShort (4 + room) ((P.shape pool.now).blocks journal)) }
{
    let need = 4 + room;
    let have = pool.blocks(journal);
    if have < need {
        return Err(JournalFault::JournalSmall(need, have));
    }
    Ok(())
}

/// Makes a journal of the last unit, where one may be made.
pub fn format_on<P: Pool>(
    alloc: Global,
    pool: &mut P,
    journal: u32,
    names: &[Serial],
    room: u32,
    buffer: &mut [u8],
) -> Result<(), JournalFault>
    requires last { journal + 1 ≡ (P.shape pool.old).units }
    requires size { length buffer.old ≡ wide }
    requires names { AreNames (P.shape pool.old) names.now }
    requires least { 3 ≤ room }
    requires most { room ≤ 8191 }
    ensures shape { P.shape pool.new ≡ P.shape pool.old }
    ensures formatted { P.tells → OnOk result (IsFormatted (P.shape pool.old) (P.disk pool.old).state names.now room (P.disk pool.new).state) }
    ensures allowed { P.tells → OnOk result (MayFormat (P.shape pool.old) (P.disk pool.old).state.contents names.now room) }
    ensures refused { P.tells → IfErr result (IsFormatFault (P.shape pool.old) (P.disk pool.old).state.contents names.now room) }
    ensures unwritten { P.tells → IfErr result (λ fault. (fault ≡ JournalFault.Pool → ⊥) → (P.disk pool.new).state ≡ (P.disk pool.old).state) }
    ensures untouched { P.tells → IfErr result (λ fault. (fault ≡ JournalFault.Pool → ⊥) → Runs none (P.disk pool.old) (P.disk pool.new)) }
    ensures careful { P.tells → IfErr result (λ fault. MayFormat (P.shape pool.old) (P.disk pool.old).state.contents names.now room ⊎ Runs none (P.disk pool.old) (P.disk pool.new)) }
    ensures any_moment { P.tells → LeavesOnly (P.disk pool.old) (P.disk pool.new) (SparesVolumes (P.shape pool.old) (P.disk pool.old).state) }
    ensures left { P.tells → LeavesOnly (P.disk pool.old) (P.disk pool.new) (MakingLeaves (P.shape pool.old) (P.disk pool.old).state) }
    ensures runs { P.tells → Runs (of_making journal) (P.disk pool.old) (P.disk pool.new) }
    ensures faults { P.faults pool.old ≤ P.faults pool.new }
    ensures cause { IfErr result (λ fault. fault ≡ JournalFault.Pool → Rose (P.faults pool.old) (P.faults pool.new)) }
{
    match may_format(alloc, pool, journal, names, room, buffer) {
        Ok(()) => match write_journal(pool, journal, names, room, buffer) {
            Ok(()) => Ok(()),
            Err(_) => Err(JournalFault::Pool),
        },
        Err(fault) => Err(fault),
    }
}
