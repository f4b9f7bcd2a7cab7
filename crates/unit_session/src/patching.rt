//! What a session keeps of its volumes, once changes are made.

ghost use Rattle.std.specs.Prelude.{◌≡◌, ◌*◌, ◌<◌, length, All};
ghost use Rattle.unit_steps.specs.Rendering.{AreOfUnits, units_after, ArePatched, VtocsAfter};
ghost use Rattle.unit_session.specs.Planned.{BlocksAreOf, MayPatch};

use crate::copies::volume_at;
use ckd_image::Bytes;
use free_map::Run;
use unit_load::UnitState;
use unit_steps::vtoc_render::Rendered;
use volume_change::Change;
use vtoc_write::Block;

/// Puts blocks in place among the slots of a run, of so many bytes each.
fn patch(run: Run, size: u32, blocks: &[Block], slots: &mut Bytes)
    requires whole { length slots.old ≡ run.len * size }
    requires blocks { BlocksAreOf run size blocks.now }
    ensures { ArePatched run size blocks.now slots.old slots.new }
{
    for block in blocks {
        let place = (block.track - run.first) as usize * size as usize;
        slots.put_over(place, block.slot.as_slice());
    }
}

/// The kept slots with the rendered tracks in place.
pub(crate) fn patched(
    units: &[UnitState],
    changes: &[(u32, Change)],
    rendered: &[Rendered],
    vtocs: Vec<Bytes>,
) -> Vec<Bytes>
    requires may { MayPatch units.now vtocs.items changes.now rendered.now }
    requires apart { AreOfUnits changes.now }
    ensures { VtocsAfter units.now vtocs.items changes.now rendered.now result.items }
{
    let mut vtocs = vtocs;
    for place in 0..changes.len().min(rendered.len()) {
        let change = &changes[place];
        let one = &rendered[place];
        let Some(volume) = volume_at(units, change.0) else {
            unreachable!()
        };
        let size = volume.device.slot();
        let blocks = one.blocks.as_slice();
        patch(volume.vtoc, size, blocks, &mut vtocs[change.0 as usize]);
    }
    vtocs
}

/// The units with the rendered volumes.
pub(crate) fn renewed(
    changes: &[(u32, Change)],
    rendered: Vec<Rendered>,
    units: Vec<UnitState>,
) -> Vec<UnitState>
    requires { All (λ change. change.0 < length units.items) changes.now }
    ensures { result.items ≡ units_after units.items changes.now rendered.items }
{
    let mut units = units;
    let mut left = rendered.into_iter();
    for (unit, _) in changes {
        let Some(one) = left.next() else {
            return units;
        };
        units[*unit as usize] = UnitState::Online(one.next);
    }
    units
}
