//! Opening a journal: its rules in their order, its length, its names, and the labels.

ghost use Rattle.std.specs.Prelude.{◌≡◌, ◌≢◌, ◌⊎◌, ◌↔◌, true, IsTrue, ◌<◌, ◌≤◌, ◌+◌, ◌==◌, ◌&&◌, ℕ, List, Some, All, length, false, IfSome, IfOk, IfErr, OnOk, if◌then◌else◌};
ghost use Rattle.dasd_pool.specs.Count.{Rose};
ghost use Rattle.dasd_pool.specs.Disk.{Image, IsSynced, LeavesOnly, Runs, none, is_at};
ghost use Rattle.vol_label.specs.declared.serial.Serial.{Serial};
ghost use Rattle.redo_core.specs.declared.control.Control.TheVariants.{Idle};
ghost use Rattle.redo_core.specs.declared.fault.JournalRule.{JournalRule};
ghost use Rattle.redo_core.specs.Format.{wide, control_in, is_filling};
ghost use Rattle.redo_core.specs.Reading.{journal_of, placed, body_for, fills_of, control_block, HasHead, IsRegistration, HasBody, IsControl, IsTarget, Obeys, Reads, overlay};
ghost use Rattle.redo_core.specs.Phases.{IsAtRest};
ghost use Rattle.redo_core.specs.Opening.{IsOpened, ReadsSame, of_opening};
ghost use Rattle.redo_core.specs.Steps.{IsJournal, HasTargets, shown};
ghost use Rattle.redo_core.specs.Looks.{OnlyLooks};
ghost use Rattle.redo_core.specs.Faults.{zeroed, Fails, IsRuleFault, IsNameFault, IsIdle, IsWhoFault, IsOpenFault, LabelsAre, MayOpen};

use crate::control::Control;
use crate::fault::{JournalFault, JournalRule, broken};
use crate::head::has_head;
use crate::labels::check_labels;
use crate::redo::finish;
use crate::status::Status;
use crate::survey::{Registration, body_of, control_of, fills_in, read_or_zeros, registration_of};
use crate::target::Target;
use ckd_image::text::same;
use dasd_pool::{Pool, PoolFault};
use std::alloc::Global;
use vol_label::Serial;

/// Rules 1 and 2.
fn find_registration<P: Pool>(
    alloc: Global,
    pool: &mut P,
    journal: u32,
    buffer: &mut [u8],
) -> Result<Registration, JournalFault>
    requires last { journal + 1 ≡ (P.shape pool.old).units }
    requires some { 1 ≤ journal }
    requires few { journal ≤ 64 }
    requires size { length buffer.old ≡ wide }
    ensures looks { OnlyLooks P.Pool pool.old pool.new }
    ensures head { OnOk result (HasHead (P.shape pool.old)) }
    ensures count { IfOk result (λ r. length r.names.items ≡ journal) }
    ensures least { IfOk result (λ r. 3 ≤ r.room) }
    ensures most { IfOk result (λ r. r.room ≤ 8191) }
    ensures found { P.tells → IfOk result (λ r. IsRegistration (journal_of (P.shape pool.old)) (zeroed (P.shape pool.old) (P.disk pool.old).state.contents (journal_of (P.shape pool.old)) 0) r.names.items r.room) }
    ensures refused { P.tells → IfErr result (IsRuleFault (P.shape pool.old) (zeroed (P.shape pool.old) (P.disk pool.old).state.contents)) }
    ensures cause { IfErr result (λ fault. fault ≡ JournalFault.Pool → Rose (P.faults pool.old) (P.faults pool.new)) }
{
    if !has_head(pool, journal) {
        return Err(broken(JournalRule::Head));
    }
    read_or_zeros(pool, journal, 0, buffer)?;
    registration_of(alloc, buffer, journal)
}

/// The choice of the later of two places for a block.
fn later(found: Option<u32>, target: Target, unit: u32, block: u32, place: u32) -> Option<u32>
    ensures { result ≡ (if is_at target.unit target.block unit block then Some place else found) }
{
    if unit == target.unit && block == target.block {
        return Some(place);
    }
    found
}

/// The block of the journal that has a block's bytes while a body with these targets is open.
pub(crate) fn image_of(targets: &[Target], unit: u32, block: u32) -> Option<u32>
    requires { length targets.now ≤ 8191 }
    ensures image { (size : ℕ → ℕ) (journal : ℕ) (image : Image) → placed image (body_for size journal image targets.now) unit block ≡ shown size journal image unit block result }
    ensures within { IfSome result (λ place. (4 ≤ place) × (place < 4 + length targets.now)) }
{
    let mut found = None;
    let mut place = 4u32;
    for target in targets {
        found = later(found, *target, unit, block, place);
        place += 1;
    }
    found
}

/// Rule 3: the targets of an open body, or none behind a closed gate.
fn find_body<P: Pool>(
    alloc: Global,
    pool: &mut P,
    journal: u32,
    room: u32,
    buffer: &mut [u8],
) -> Result<Vec<Target>, JournalFault>
    requires last { journal + 1 ≡ (P.shape pool.old).units }
    requires width { (P.shape pool.old).block_size journal ≡ wide }
    requires size { length buffer.old ≡ wide }
    requires room { room ≤ 8191 }
    ensures looks { OnlyLooks P.Pool pool.old pool.new }
    ensures few { IfOk result (λ targets. length targets.items ≤ room) }
    ensures there { IfOk result (λ targets. All (IsTarget (P.shape pool.old) journal) targets.items) }
    ensures found { P.tells → IfOk result (λ targets. HasTargets (journal_of (P.shape pool.old)) (zeroed (P.shape pool.old) (P.disk pool.old).state.contents) targets.items) }
    ensures lawful { P.tells → OnOk result (HasBody (P.shape pool.old) (zeroed (P.shape pool.old) (P.disk pool.old).state.contents) room) }
    ensures refused { P.tells → IfErr result (Fails JournalRule.Body (¬ HasBody (P.shape pool.old) (zeroed (P.shape pool.old) (P.disk pool.old).state.contents) room)) }
    ensures cause { IfErr result (λ fault. fault ≡ JournalFault.Pool → Rose (P.faults pool.old) (P.faults pool.new)) }
{
    read_or_zeros(pool, journal, 1, buffer)?;
    if buffer[0] != 1 {
        return Ok(Vec::new(alloc));
    }
    read_or_zeros(pool, journal, 3, buffer)?;
    body_of(alloc, pool, journal, buffer, room)
}

/// Rule 4, with an open body in place.
fn find_control<P: Pool>(
    pool: &mut P,
    journal: u32,
    targets: &[Target],
    buffer: &mut [u8],
) -> Result<Status, JournalFault>
    requires last { journal + 1 ≡ (P.shape pool.old).units }
    requires width { (P.shape pool.old).block_size journal ≡ wide }
    requires size { length buffer.old ≡ wide }
    requires few { length targets.now ≤ 8191 }
    requires targets { P.tells → HasTargets (journal_of (P.shape pool.old)) (zeroed (P.shape pool.old) (P.disk pool.old).state.contents) targets.now }
    ensures looks { OnlyLooks P.Pool pool.old pool.new }
    ensures lawful { P.tells → OnOk result (IsControl (P.shape pool.old) (control_block (P.shape pool.old) (zeroed (P.shape pool.old) (P.disk pool.old).state.contents))) }
    ensures control { P.tells → IfOk result (λ status. status.control ≡ control_in (control_block (P.shape pool.old) (zeroed (P.shape pool.old) (P.disk pool.old).state.contents))) }
    ensures fills { P.tells → IfOk result (λ status. (u : ℕ) → u < 64
        → fills_of status.fills u ≡ is_filling (control_block (P.shape pool.old) (zeroed (P.shape pool.old) (P.disk pool.old).state.contents)) u) }
    ensures refused { P.tells → IfErr result (Fails JournalRule.Control (¬ IsControl (P.shape pool.old) (control_block (P.shape pool.old) (zeroed (P.shape pool.old) (P.disk pool.old).state.contents)))) }
    ensures cause { IfErr result (λ fault. fault ≡ JournalFault.Pool → Rose (P.faults pool.old) (P.faults pool.new)) }
{
    let place = image_of(targets, journal, 2).unwrap_or(2);
    read_or_zeros(pool, journal, place, buffer)?;
    let Some(control) = control_of(pool, journal, buffer) else {
        return Err(broken(JournalRule::Control));
    };
    let fills = fills_in(buffer);
    Ok(Status { control, fills })
}

/// What the four rules find.
#[derive(Drop)]
pub struct Findings {
    pub names: Vec<Serial>,
    pub room: u32,
    pub targets: Vec<Target>,
    pub control: Control,
    pub fills: [bool; 64],
}

/// The four rules in their order.
fn find_all<P: Pool>(
    alloc: Global,
    pool: &mut P,
    journal: u32,
    buffer: &mut [u8],
) -> Result<Findings, JournalFault>
    requires last { journal + 1 ≡ (P.shape pool.old).units }
    requires some { 1 ≤ journal }
    requires few { journal ≤ 64 }
    requires size { length buffer.old ≡ wide }
    ensures looks { OnlyLooks P.Pool pool.old pool.new }
    ensures head { OnOk result (HasHead (P.shape pool.old)) }
    ensures count { IfOk result (λ s. length s.names.items ≡ journal) }
    ensures least { IfOk result (λ s. 3 ≤ s.room) }
    ensures most { IfOk result (λ s. s.room ≤ 8191) }
    ensures few { IfOk result (λ s. length s.targets.items ≤ s.room) }
    ensures there { IfOk result (λ s. All (IsTarget (P.shape pool.old) journal) s.targets.items) }
    ensures targets { P.tells → IfOk result (λ s. HasTargets (journal_of (P.shape pool.old)) (zeroed (P.shape pool.old) (P.disk pool.old).state.contents) s.targets.items) }
    ensures found { P.tells → IfOk result (λ s. Obeys (P.shape pool.old) (zeroed (P.shape pool.old) (P.disk pool.old).state.contents)
        (record { volumes = (P.disk pool.old).state.contents; names = s.names.items; room = s.room; control = s.control; fills = fills_of s.fills })) }
    ensures refused { P.tells → IfErr result (IsRuleFault (P.shape pool.old) (zeroed (P.shape pool.old) (P.disk pool.old).state.contents)) }
    ensures cause { IfErr result (λ fault. fault ≡ JournalFault.Pool → Rose (P.faults pool.old) (P.faults pool.new)) }
{
    let Registration { names, room } = match find_registration(alloc, pool, journal, buffer) {
        Ok(registration) => registration,
        Err(fault) => return Err(fault),
    };
    let targets = match find_body(alloc, pool, journal, room, buffer) {
        Ok(targets) => targets,
        Err(fault) => return Err(fault),
    };
    match find_control(pool, journal, &targets, buffer) {
        Ok(status) => {
            let control = status.control;
            let fills = status.fills;
            Ok(Findings {
                names,
                room,
                targets,
                control,
                fills,
            })
        }
        Err(fault) => Err(fault),
    }
}

/// Whether a slide is open.
fn is_busy(control: Control) -> bool
    ensures { IsTrue result ↔ (control ≢ Idle) }
{
    control != Control::Idle
}

/// Whether two serials are the same.
pub fn is_same(left: Serial, right: Serial) -> bool
    ensures { IsTrue result ↔ (left ≡ right) }
{
    same(&left.text, &right.text)
}

/// Whether the names are the registered ones.
fn check_names(registered: &[Serial], names: &[Serial]) -> Result<(), JournalFault>
    requires same { length registered.now ≡ length names.now }
    requires few { length names.now ≤ 64 }
    ensures same { OnOk result (registered.now ≡ names.now) }
    ensures refused { IfErr result (IsNameFault registered.now names.now) }
{
    for unit in 0..names.len() {
        if !is_same(names[unit], registered[unit]) {
            return Err(JournalFault::WrongUnit(unit as u32, registered[unit], names[unit]));
        }
    }
    Ok(())
}

/// The findings, where no slide is open and the journal is long enough.
fn find_idle<P: Pool>(
    alloc: Global,
    pool: &mut P,
    journal: u32,
    buffer: &mut [u8],
) -> Result<Findings, JournalFault>
    requires last { journal + 1 ≡ (P.shape pool.old).units }
    requires some { 1 ≤ journal }
    requires few { journal ≤ 64 }
    requires size { length buffer.old ≡ wide }
    ensures looks { OnlyLooks P.Pool pool.old pool.new }
    ensures head { OnOk result (HasHead (P.shape pool.old)) }
    ensures count { IfOk result (λ f. length f.names.items ≡ journal) }
    ensures least { IfOk result (λ f. 3 ≤ f.room) }
    ensures long { IfOk result (λ f. 4 + f.room ≤ (P.shape pool.old).blocks journal) }
    ensures most { IfOk result (λ f. f.room ≤ 8191) }
    ensures few { IfOk result (λ f. length f.targets.items ≤ f.room) }
    ensures there { IfOk result (λ f. All (IsTarget (P.shape pool.old) journal) f.targets.items) }
    ensures targets { P.tells → IfOk result (λ f. HasTargets (journal_of (P.shape pool.old)) (zeroed (P.shape pool.old) (P.disk pool.old).state.contents) f.targets.items) }
    ensures idle { P.tells → IfOk result (λ f. IsIdle (P.shape pool.old) (P.disk pool.old).state.contents
        (record { volumes = (P.disk pool.old).state.contents; names = f.names.items; room = f.room; control = f.control; fills = fills_of f.fills })) }
    ensures quiet { IfOk result (λ f. f.control ≡ Idle) }
    ensures refused { P.tells → IfErr result (λ fault. (names : List Serial) → IsOpenFault (P.shape pool.old) (P.disk pool.old).state.contents names fault) }
    ensures cause { IfErr result (λ fault. fault ≡ JournalFault.Pool → Rose (P.faults pool.old) (P.faults pool.new)) }
{
    let found = match find_all(alloc, pool, journal, buffer) {
        Ok(found) => found,
        Err(fault) => return Err(fault),
    };
    if is_busy(found.control) {
        return Err(broken(JournalRule::Busy));
    }
    let need = 4 + found.room;
    let have = pool.blocks(journal);
    if have < need {
        return Err(JournalFault::JournalSmall(need, have));
    }
    Ok(found)
}

/// Whether the names are the registered ones, and each label that reads has its name.
fn check_who<P: Pool>(
    alloc: Global,
    pool: &mut P,
    journal: u32,
    found: &Findings,
    names: &[Serial],
    buffer: &mut [u8],
) -> Result<(), JournalFault>
    requires last { journal + 1 ≡ (P.shape pool.old).units }
    requires width { (P.shape pool.old).block_size journal ≡ wide }
    requires size { length buffer.old ≡ wide }
    requires most { length found.now.targets.items ≤ 8191 }
    requires long { 4 + length found.now.targets.items ≤ (P.shape pool.old).blocks journal }
    requires registered { length found.now.names.items ≡ length names.now }
    requires names { length names.now ≡ journal }
    requires few { journal ≤ 64 }
    ensures looks { OnlyLooks P.Pool pool.old pool.new }
    ensures names { OnOk result (found.now.names.items ≡ names.now) }
    ensures labels { P.tells → OnOk result
        (LabelsAre (P.shape pool.old) (placed (P.disk pool.old).state.contents (body_for (P.shape pool.old).block_size journal (P.disk pool.old).state.contents found.now.targets.items)) names.now journal) }
    ensures refused { P.tells → IfErr result
        (IsWhoFault (P.shape pool.old) (placed (P.disk pool.old).state.contents (body_for (P.shape pool.old).block_size journal (P.disk pool.old).state.contents found.now.targets.items)) found.now.names.items names.now) }
    ensures cause { IfErr result (λ fault. fault ≡ JournalFault.Pool → Rose (P.faults pool.old) (P.faults pool.new)) }
{
    match check_names(&found.names, names) {
        Ok(()) => match check_labels(alloc, pool, journal, &found.targets, names, buffer) {
            Ok(()) => Ok(()),
            Err(fault) => Err(fault),
        },
        Err(fault) => Err(fault),
    }
}

/// Makes the blocks durable, and looks at them: what they say, where nothing is wrong.
fn look<P: Pool>(
    alloc: Global,
    pool: &mut P,
    journal: u32,
    names: &[Serial],
    buffer: &mut [u8],
) -> Result<Findings, JournalFault>
    requires last { journal + 1 ≡ (P.shape pool.old).units }
    requires some { 1 ≤ journal }
    requires few { journal ≤ 64 }
    requires size { length buffer.old ≡ wide }
    requires names { length names.now ≡ journal }
    ensures shape { P.shape pool.new ≡ P.shape pool.old }
    ensures journal { IfOk result (λ f. IsJournal (P.shape pool.old) journal f.room) }
    ensures least { IfOk result (λ f. 3 ≤ f.room) }
    ensures few { IfOk result (λ f. length f.targets.items ≤ f.room) }
    ensures there { IfOk result (λ f. All (IsTarget (P.shape pool.old) journal) f.targets.items) }
    ensures synced { P.tells → OnOk result (IsSynced (P.disk pool.new).state) }
    ensures targets { P.tells → IfOk result (λ f. HasTargets (journal_of (P.shape pool.old)) (P.disk pool.old).state.contents f.targets.items) }
    ensures reads { P.tells → IfOk result (λ f. Reads (P.shape pool.old) (P.disk pool.old).state.contents
        (record { volumes = overlay (P.shape pool.old).block_size (journal_of (P.shape pool.old)) (P.disk pool.old).state.contents; names = names.now; room = f.room; control = f.control; fills = fills_of f.fills })) }
    ensures allowed { P.tells → OnOk result (MayOpen (P.shape pool.old) (P.disk pool.old).state.contents names.now) }
    ensures quiet { IfOk result (λ f. f.control ≡ Idle) }
    ensures refused { P.tells → IfErr result (IsOpenFault (P.shape pool.old) (P.disk pool.old).state.contents names.now) }
    ensures runs { P.tells → Runs none (P.disk pool.old) (P.disk pool.new) }
    ensures faults { P.faults pool.old ≤ P.faults pool.new }
    ensures cause { IfErr result (λ fault. fault ≡ JournalFault.Pool → Rose (P.faults pool.old) (P.faults pool.new)) }
{
    pool.sync()?;
    match find_idle(alloc, pool, journal, buffer) {
        Ok(found) => match check_who(alloc, pool, journal, &found, names, buffer) {
            Ok(()) => Ok(found),
            Err(fault) => Err(fault),
        },
        Err(fault) => Err(fault),
    }
}

/// Looks at the blocks, and puts an open body in place.
pub fn open_on<P: Pool>(
    alloc: Global,
    pool: &mut P,
    journal: u32,
    names: &[Serial],
    buffer: &mut [u8],
) -> Result<Findings, JournalFault>
    requires last { journal + 1 ≡ (P.shape pool.old).units }
    requires some { 1 ≤ journal }
    requires few { journal ≤ 64 }
    requires size { length buffer.old ≡ wide }
    requires names { length names.now ≡ journal }
    ensures shape { P.shape pool.new ≡ P.shape pool.old }
    ensures journal { IfOk result (λ f. IsJournal (P.shape pool.old) journal f.room) }
    ensures least { IfOk result (λ f. 3 ≤ f.room) }
    ensures rest { P.tells → IfOk result (λ f. IsAtRest (P.shape pool.old) (P.disk pool.new).state f.room f.control f.fills) }
    ensures opened { P.tells → IfOk result (λ f. IsOpened (P.shape pool.old) (P.disk pool.old).state names.now f.room f.control f.fills (P.disk pool.new).state) }
    ensures allowed { P.tells → OnOk result (MayOpen (P.shape pool.old) (P.disk pool.old).state.contents names.now) }
    ensures quiet { IfOk result (λ f. f.control ≡ Idle) }
    ensures refused { P.tells → IfErr result (IsOpenFault (P.shape pool.old) (P.disk pool.old).state.contents names.now) }
    ensures unwritten { P.tells → IfErr result (λ fault. (fault ≡ JournalFault.Pool → ⊥) → Runs none (P.disk pool.old) (P.disk pool.new)) }
    ensures careful { P.tells → IfErr result (λ fault. MayOpen (P.shape pool.old) (P.disk pool.old).state.contents names.now ⊎ Runs none (P.disk pool.old) (P.disk pool.new)) }
    ensures runs { P.tells → Runs (of_opening journal (P.disk pool.old).state.contents) (P.disk pool.old) (P.disk pool.new) }
    ensures any_moment { P.tells → LeavesOnly (P.disk pool.old) (P.disk pool.new) (ReadsSame (P.shape pool.old) (P.disk pool.old).state) }
    ensures faults { P.faults pool.old ≤ P.faults pool.new }
    ensures cause { IfErr result (λ fault. fault ≡ JournalFault.Pool → Rose (P.faults pool.old) (P.faults pool.new)) }
{
    match look(alloc, pool, journal, names, buffer) {
        Ok(found) => match finish(pool, journal, buffer, &found.targets) {
            Ok(()) => Ok(found),
            Err(_) => Err(JournalFault::Pool),
        },
        Err(fault) => Err(fault),
    }
}
