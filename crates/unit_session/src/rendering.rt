//! The rendered changes of a plan, and their entries.

ghost use Rattle.std.specs.Prelude.{◌≡◌, ◌<◌, ◌-◌, ◌/◌, true, ◌∷◌, [], ◌++◌, map, IsTrue, ◌↔◌, IfOk, IfErr, IfSome, IfNone, None, OnOk};
ghost use Rattle.vtoc_core.specs.declared.volume.Volume.{Volume as VolumeOf};
ghost use Rattle.unit_steps.specs.Plans.{IsLoadedAt};
ghost use Rattle.unit_steps.specs.Rendering.{WasRendered, WereRendered, entry_for, entries_of};
ghost use Rattle.unit_session.specs.Planned.{IsIndexed, IsLong, MayBegin, IsBar, HaveVolumes, IsRenderFault, AreRenderFault};

use crate::copies::volume_at;
use crate::fault::PlanFault;
use ckd_image::{Bytes, NoMemory};
use redo_core::Entries;
use std::alloc::Global;
use unit_load::UnitState;
use unit_steps::vtoc_render::{Rendered, render};
use volume_change::Change;
use vtoc_check::VtocFault;
use vtoc_write::Block;

/// Whether the volume of a unit has an index.
fn is_indexed(units: &[UnitState], unit: u32) -> bool
    ensures { IsTrue result ↔ ((volume : VolumeOf) × IsLoadedAt units.now unit volume × (volume.indexed ≡ true)) }
{
    match volume_at(units, unit) {
        Some(volume) => volume.indexed,
        None => false,
    }
}

/// Whether a volume that is changed has one.
fn has_index(units: &[UnitState], changes: &[(u32, Change)]) -> bool
    ensures { IsTrue result ↔ IsIndexed units.now changes.now }
{
    for (unit, _) in changes {
        if is_indexed(units, *unit) {
            return true;
        }
    }
    false
}

/// Whether the VTOC of a unit has more tracks than half of what a commit may have.
fn is_long(room: u32, units: &[UnitState], unit: u32) -> bool
    ensures { IsTrue result ↔ ((volume : VolumeOf) × IsLoadedAt units.now unit volume × ((room - 1) / 2 < volume.vtoc.len)) }
{
    match volume_at(units, unit) {
        Some(volume) => volume.vtoc.len > room.saturating_sub(1) / 2,
        None => false,
    }
}

/// Whether one of a volume that is changed has.
fn has_long(room: u32, units: &[UnitState], changes: &[(u32, Change)]) -> bool
    ensures { IsTrue result ↔ IsLong room units.now changes.now }
{
    for (unit, _) in changes {
        if is_long(room, units, *unit) {
            return true;
        }
    }
    false
}

/// What stands against changes before anything is read.
pub(crate) fn bar_of(room: u32, units: &[UnitState], changes: &[(u32, Change)]) -> Option<PlanFault>
    ensures barred { IfSome result (IsBar room units.now changes.now) }
    ensures free { IfNone result (MayBegin room units.now changes.now) }
{
    if has_index(units, changes) {
        return Some(PlanFault::Indexed);
    }
    if has_long(room, units, changes) {
        return Some(PlanFault::Long);
    }
    None
}

/// Renders the change of a unit.
fn render_one(
    alloc: Global,
    units: &[UnitState],
    vtocs: &[Bytes],
    unit: u32,
    change: &Change,
) -> Result<Rendered, PlanFault>
    requires volume { HaveVolumes units.now vtocs.now ((unit, change.now) ∷ []) }
    ensures rendered { IfOk result (WasRendered units.now vtocs.now unit change.now) }
    ensures fault { IfErr result (IsRenderFault units.now unit change.now) }
{
    let Some(volume) = volume_at(units, unit) else {
        unreachable!()
    };
    let slots = vtocs[unit as usize].as_slice();
    match render(alloc, volume, slots, change) {
        Ok(rendered) => Ok(rendered),
        Err(VtocFault::VtocFull(need, free)) => Err(PlanFault::Full(need, free)),
        Err(VtocFault::Indexed) => Err(PlanFault::Indexed),
        Err(_) => Err(PlanFault::NoMemory),
    }
}

/// Renders changes, the first of them first.
pub(crate) fn render_all(
    alloc: Global,
    units: &[UnitState],
    vtocs: &[Bytes],
    changes: &[(u32, Change)],
) -> Result<Vec<Rendered>, PlanFault>
    requires volumes { HaveVolumes units.now vtocs.now changes.now }
    ensures rendered { IfOk result (λ rendered. WereRendered units.now vtocs.now changes.now rendered.items) }
    ensures fault { IfErr result (AreRenderFault units.now changes.now) }
{
    let mut rendered = Vec::new(alloc);
    for (unit, change) in changes {
        let one = render_one(alloc, units, vtocs, *unit, change)?;
        let Ok(()) = rendered.push(one) else {
            return Err(PlanFault::NoMemory);
        };
    }
    Ok(rendered)
}

/// Adds the entries of a unit's blocks.
fn add_entries(
    alloc: Global,
    unit: u32,
    blocks: &[Block],
    entries: &mut Entries,
) -> Result<(), NoMemory>
    ensures { OnOk result (entries.new ≡ record { blocks = entries.old.blocks ++ map (entry_for unit) blocks.now; control = entries.old.control }) }
{
    for block in blocks {
        entries.push(alloc, unit, block.track, block.slot.as_slice())?;
    }
    Ok(())
}

/// The entries of a commit that writes the rendered tracks.
pub(crate) fn entries_for(
    alloc: Global,
    changes: &[(u32, Change)],
    rendered: &[Rendered],
) -> Result<Entries, NoMemory>
    ensures { IfOk result (λ entries. entries ≡ record { blocks = entries_of changes.now rendered.now; control = None }) }
{
    let mut entries = Entries::new(alloc, 0)?;
    for place in 0..changes.len().min(rendered.len()) {
        let change = &changes[place];
        let one = &rendered[place];
        add_entries(alloc, change.0, one.blocks.as_slice(), &mut entries)?;
    }
    Ok(entries)
}
