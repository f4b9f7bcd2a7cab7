//! The tracks of a VTOC that change.

ghost use Rattle.std.specs.Prelude.{◌≡◌, ◌+◌, ◌*◌, ◌≤◌, ◌<◌, ℕ, IfOk, OnOk, length};
ghost use Rattle.ckd_image.specs.Address.{address_of};
ghost use Rattle.ckd_image.specs.Device.{heads_of, slot_of};
ghost use Rattle.volume_model.specs.Space.{end_of};
ghost use Rattle.vtoc_write.specs.Written.{slot_at as slot_in, IsDscbText, AddsBlock, AreRewritten};

use crate::track::rewritten;
use ckd_image::text::slot_at;
use ckd_image::{Bytes, Device, Listed, NoMemory};
use free_map::Run;
use std::alloc::Global;
use volume_model::Placed;

/// A track of a volume by its number, and what its slot is to be.
#[derive(Debug, Drop)]
pub struct Block {
    pub track: u32,
    pub slot: Bytes,
}

pub type Blocks = Listed<Block>;

/// Adds a track as it is to be written, where the edits change a record of it.
fn add_track(
    alloc: Global,
    device: Device,
    track: u32,
    slot: &[u8],
    edits: &[Placed],
    blocks: &mut Blocks,
) -> Result<(), NoMemory>
    requires number { track ≤ 65535 }
    requires whole { length slot.now ≡ slot_of device }
    requires dscbs { IsDscbText (address_of (heads_of device) track) slot.now }
    ensures { OnOk result (AddsBlock edits.now (heads_of device) track slot.now blocks.old blocks.new) }
{
    match rewritten(alloc, device, track, slot, edits)? {
        None => Ok(()),
        Some(slot) => blocks.push(Block { track, slot }),
    }
}

/// The tracks of a VTOC's run of which the edits change a record, in ascending order, as they are to be written. Of two edits of one
/// place the first counts.
pub fn changed_tracks(
    alloc: Global,
    device: Device,
    run: Run,
    slots: &[u8],
    edits: &[Placed],
) -> Result<Blocks, NoMemory>
    requires within { end_of run ≤ 65535 }
    requires whole { length slots.now ≡ run.len * slot_of device }
    requires dscbs { (k : ℕ) → k < run.len → IsDscbText (address_of (heads_of device) (run.first + k)) (slot_in (slot_of device) slots.now k) }
    ensures { IfOk result (AreRewritten edits.now device run slots.now) }
{
    let size = device.slot() as usize;
    let mut blocks = Listed::new(alloc);
    for place in 0..run.len {
        let slot = slot_at(slots, place as usize, size);
        add_track(alloc, device, run.first + place, slot, edits, &mut blocks)?;
    }
    Ok(blocks)
}
