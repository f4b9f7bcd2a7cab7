//! The labels of the volumes, with an open body in place.

ghost use Rattle.std.specs.Prelude.{◌≡◌, ◌≢◌, ◌⊎◌, IfNone, ◌<◌, ◌≤◌, ◌+◌, Some, length, take, IfSome, IfOk, IfErr, OnOk};
ghost use Rattle.dasd_pool.specs.Count.{Rose, HasCause};
ghost use Rattle.vol_label.specs.declared.serial.Serial.{Serial};
ghost use Rattle.redo_core.specs.Format.{wide};
ghost use Rattle.redo_core.specs.Reading.{placed, body_for};
ghost use Rattle.redo_core.specs.Looks.{OnlyLooks};
ghost use Rattle.redo_core.specs.Faults.{HasSerial, HasLabel, LabelsAre, IsLabelsFault};

use crate::fault::JournalFault;
use crate::opening::{image_of, is_same};
use crate::target::Target;
use ckd_image::{CkdFault, Head, NoMemory, TrackAt, parse_track, track_laws};
use dasd_pool::{Pool, PoolFault};
use std::alloc::Global;
use vol_label::{Label, Serial};

/// The serial on track 0 of an image with this head.
fn serial_on(alloc: Global, head: Head, slot: &[u8]) -> Result<Option<Serial>, NoMemory>
    requires { length slot.now ≤ 65536 }
    ensures found { IfOk result (λ found. IfSome found (HasSerial head slot.now)) }
    ensures only { IfOk result (λ found. (serial : Serial) → HasSerial head slot.now serial → found ≡ Some serial) }
{
    let at = TrackAt {
        cylinder: 0,
        head: 0,
    };
    track_laws();
    match parse_track(alloc, head.device, at, slot) {
        Ok(track) => match Label::read(&track, head) {
            Ok(label) => Ok(Some(label.serial)),
            Err(_) => Ok(None),
        },
        Err(CkdFault::NoMemory) => Err(NoMemory),
        Err(_) => Ok(None),
    }
}

/// Reads the first block of a volume into the front of the buffer.
fn read_first<P: Pool>(pool: &mut P, unit: u32, buffer: &mut [u8]) -> Result<(), PoolFault>
    requires unit { unit < (P.shape pool.old).units }
    requires some { 0 < (P.shape pool.old).blocks unit }
    requires size { length buffer.old ≡ wide }
    ensures looks { OnlyLooks P.Pool pool.old pool.new }
    ensures bytes { P.tells → OnOk result (take ((P.shape pool.old).block_size unit) buffer.new ≡ (P.disk pool.old).state.contents unit 0) }
    ensures cause { HasCause (P.faults pool.old) (P.faults pool.new) result }
{
    let size = pool.block_size(unit) as usize;
    pool.read(unit, 0, &mut buffer[..size])?;
    Ok(())
}

/// Reads the first block of a volume, or its image in a body with these targets.
fn read_shown<P: Pool>(
    pool: &mut P,
    journal: u32,
    targets: &[Target],
    unit: u32,
    buffer: &mut [u8],
) -> Result<(), PoolFault>
    requires last { journal + 1 ≡ (P.shape pool.old).units }
    requires width { (P.shape pool.old).block_size journal ≡ wide }
    requires size { length buffer.old ≡ wide }
    requires few { length targets.now ≤ 8191 }
    requires long { 0 < length targets.now → 4 + length targets.now ≤ (P.shape pool.old).blocks journal }
    requires unit { unit < journal }
    requires some { 0 < (P.shape pool.old).blocks unit }
    ensures looks { OnlyLooks P.Pool pool.old pool.new }
    ensures bytes { P.tells → OnOk result (take ((P.shape pool.old).block_size unit) buffer.new
        ≡ placed (P.disk pool.old).state.contents (body_for (P.shape pool.old).block_size journal (P.disk pool.old).state.contents targets.now) unit 0) }
    ensures cause { HasCause (P.faults pool.old) (P.faults pool.new) result }
{
    match image_of(targets, unit, 0) {
        Some(place) => {
            pool.read(journal, place, buffer)?;
            Ok(())
        }
        None => {
            read_first(pool, unit, buffer)?;
            Ok(())
        }
    }
}

/// The serial on a volume, where its label reads.
fn unit_label<P: Pool>(
    alloc: Global,
    pool: &mut P,
    journal: u32,
    targets: &[Target],
    unit: u32,
    buffer: &mut [u8],
) -> Result<Option<Serial>, JournalFault>
    requires last { journal + 1 ≡ (P.shape pool.old).units }
    requires width { (P.shape pool.old).block_size journal ≡ wide }
    requires size { length buffer.old ≡ wide }
    requires few { length targets.now ≤ 8191 }
    requires long { 0 < length targets.now → 4 + length targets.now ≤ (P.shape pool.old).blocks journal }
    requires unit { unit < journal }
    ensures looks { OnlyLooks P.Pool pool.old pool.new }
    ensures found { P.tells → IfOk result (λ found. IfSome found
        (HasLabel (P.shape pool.old) (placed (P.disk pool.old).state.contents (body_for (P.shape pool.old).block_size journal (P.disk pool.old).state.contents targets.now)) unit)) }
    ensures only { P.tells → IfOk result (λ found. (serial : Serial)
        → HasLabel (P.shape pool.old) (placed (P.disk pool.old).state.contents (body_for (P.shape pool.old).block_size journal (P.disk pool.old).state.contents targets.now)) unit serial
        → found ≡ Some serial) }
    ensures kind { IfErr result (λ fault. (fault ≡ JournalFault.Pool) ⊎ (fault ≡ JournalFault.NoMemory)) }
    ensures cause { IfErr result (λ fault. fault ≡ JournalFault.Pool → Rose (P.faults pool.old) (P.faults pool.new)) }
{
    let Ok(head) = Head::read(&pool.head(unit), pool.blocks(unit)) else {
        return Ok(None);
    };
    read_shown(pool, journal, targets, unit, buffer)?;
    let size = pool.block_size(unit) as usize;
    let found = serial_on(alloc, head, &buffer[..size])?;
    Ok(found)
}

/// A serial that was found, where it isn't the name.
fn other_serial(found: Option<Serial>, name: Serial) -> Option<Serial>
    ensures found { IfSome result (λ serial. (found ≡ Some serial) × (serial ≢ name)) }
    ensures none { IfNone result (IfSome found (λ serial. serial ≡ name)) }
{
    let serial = found?;
    if is_same(serial, name) {
        return None;
    }
    Some(serial)
}

/// Whether each label that reads has its unit's name.
pub fn check_labels<P: Pool>(
    alloc: Global,
    pool: &mut P,
    journal: u32,
    targets: &[Target],
    names: &[Serial],
    buffer: &mut [u8],
) -> Result<(), JournalFault>
    requires last { journal + 1 ≡ (P.shape pool.old).units }
    requires width { (P.shape pool.old).block_size journal ≡ wide }
    requires size { length buffer.old ≡ wide }
    requires few { length targets.now ≤ 8191 }
    requires long { 0 < length targets.now → 4 + length targets.now ≤ (P.shape pool.old).blocks journal }
    requires names { length names.now ≡ journal }
    ensures looks { OnlyLooks P.Pool pool.old pool.new }
    ensures labels { P.tells → OnOk result
        (LabelsAre (P.shape pool.old) (placed (P.disk pool.old).state.contents (body_for (P.shape pool.old).block_size journal (P.disk pool.old).state.contents targets.now)) names.now journal) }
    ensures refused { P.tells → IfErr result
        (IsLabelsFault (P.shape pool.old) (placed (P.disk pool.old).state.contents (body_for (P.shape pool.old).block_size journal (P.disk pool.old).state.contents targets.now)) names.now) }
    ensures cause { IfErr result (λ fault. fault ≡ JournalFault.Pool → Rose (P.faults pool.old) (P.faults pool.new)) }
{
    for unit in 0..journal {
        let found = match unit_label(alloc, pool, journal, targets, unit, buffer) {
            Ok(found) => found,
            Err(fault) => return Err(fault),
        };
        let name = names[unit as usize];
        if let Some(serial) = other_serial(found, name) {
            return Err(JournalFault::WrongUnit(unit, name, serial));
        }
    }
    Ok(())
}
