//! A VTOC that is loaded from its slots, so that a change of it may be rendered.
#![tactic(auto)]

ghost use Rattle.std.specs.Prelude.{◌≡◌, ◌≤◌, length, take, IfOk, IfSome};
ghost use Rattle.volume_model.specs.Space.{track_at};
ghost use Rattle.vtoc_render.specs.Loads.{LoadsFrom};

use ckd_image::{Head, TrackAt};
use std::alloc::Global;
use vol_label::Label;
use vtoc_check::{VtocFault, vtoc_run};
use vtoc_core::Volume;
use vtoc_load::load_vtoc;
use vtoc_render::loading_laws;

/// The number of the track at an address.
fn track_number(at: TrackAt, heads: u32) -> u64
    ensures { result ≡ track_at heads at }
{
    u64::from(at.cylinder) * u64::from(heads) + u64::from(at.head)
}

/// The first of slots of so many bytes.
fn first_slot(slots: &[u8], size: usize) -> &[u8]
    requires { size ≤ length slots.now }
    ensures { result.now ≡ take size slots.now }
{
    &slots[..size]
}

/// The volume of the VTOC in these slots, the first of which is that of the label's pointer. `None` where the slots are no whole VTOC.
pub fn loaded(
    alloc: Global,
    head: Head,
    label: &Label,
    slots: &[u8],
    sliding: bool,
) -> Result<Option<Volume>, VtocFault>
    ensures { IfOk result (λ found. IfSome found (λ volume. LoadsFrom volume slots.now)) }
{
    let size = head.device.slot() as usize;
    if head.tracks > 65_535 || slots.len() < size {
        return Ok(None);
    }
    let run = vtoc_run(alloc, head, label, first_slot(slots, size))?;
    if u64::from(run.first) != track_number(label.vtoc.at, head.device.heads())
        || slots.len() as u64 != u64::from(run.len) * size as u64
    {
        return Ok(None);
    }
    let volume = load_vtoc(alloc, head, label, run, slots, sliding)?;
    if volume.vtoc != run {
        return Ok(None);
    }
    loading_laws();
    Ok(Some(volume))
}
