//! What the rules from the fourth on look at, as it is read from the slots of the VTOC's tracks.

ghost use Rattle.std.specs.Prelude.{◌≡◌, ◌≤◌, ◌<◌, ◌*◌, ◌-◌, length, IfOk, IfErr, true};
ghost use Rattle.ckd_image.specs.Device.{heads_of, slot_of};
ghost use Rattle.volume_model.specs.Space.{track_at, has_track};
ghost use Rattle.volume_model.specs.Sound.{is_valid as is_valid_in};
ghost use Rattle.vtoc_check.specs.Faults.{IsToldFault};
ghost use Rattle.vtoc_check.specs.Front.{IsFront, IsFrontBreach, IsVtocRun};
ghost use Rattle.vtoc_check.specs.Sized.{IsSized, IsVtocWith};
ghost use Rattle.vtoc_check.specs.Slots.{slot_in};

use crate::directory::place_at;
use crate::dscb::{number_at, track_number};
use crate::fault::VtocFault;
use crate::front::{front, limit};
use crate::read::read_tracks;
use ckd_image::text::slot_at;
use ckd_image::{Cchhr, Head};
use free_map::Run;
use std::alloc::Global;
use volume_model::Vtoc;

/// A VTOC that was found: what the rules from the fourth on look at, and the bytes of its format 4.
#[derive(Debug, Drop)]
pub struct Found {
    pub vtoc: Vtoc,
    pub four: [u8; 140],
}

/// Whether format 5 is valid: neither its indicator nor, unless a slide is open, that of an interrupted change is on.
fn is_valid(bytes: &[u8; 140], sliding: bool) -> bool
    ensures { result ≡ is_valid_in sliding bytes.now }
{
    let indicators = bytes[58];
    indicators & 0x80 == 0 && (sliding || indicators & 0x04 == 0)
}

/// The slot of a track among those of a run.
fn slot_of_track(head: Head, run: Run, slots: &[u8], track: u64) -> &[u8]
    requires whole { length slots.now ≡ run.len * slot_of head.device }
    requires holds { has_track track run ≡ true }
    ensures slot { result.now ≡ slot_in run (slot_of head.device) slots.now track }
    ensures short { length result.now ≤ 65536 }
{
    let place = track as usize - run.first as usize;
    slot_at(slots, place, head.device.slot() as usize)
}

/// The format 4 from the slots of the VTOC's tracks.
fn front_in(
    alloc: Global,
    head: Head,
    pointer: Cchhr,
    run: Run,
    slots: &[u8],
) -> Result<[u8; 140], VtocFault>
    requires whole { length slots.now ≡ run.len * slot_of head.device }
    requires holds { has_track (track_at (heads_of head.device) pointer.at) run ≡ true }
    ensures front { IfOk result (IsFront head (slot_in run (slot_of head.device) slots.now) pointer) }
    ensures fault { IfErr result (IsToldFault (IsFrontBreach head (slot_in run (slot_of head.device) slots.now) pointer)) }
{
    let track = track_number(pointer.at, head.device.heads());
    front(alloc, head, pointer, slot_of_track(head, run, slots, track))
}

/// What the rules from the fourth on look at, where the first three are kept.
pub(crate) fn read_vtoc(
    alloc: Global,
    head: Head,
    pointer: Cchhr,
    run: Run,
    slots: &[u8],
    sliding: bool,
) -> Result<Found, VtocFault>
    requires tracks { head.tracks ≤ 65535 }
    requires whole { length slots.now ≡ run.len * slot_of head.device }
    requires run { IsVtocRun head (slot_in run (slot_of head.device) slots.now) pointer run }
    ensures vtoc { IfOk result (λ found. IsVtocWith head (slot_in run (slot_of head.device) slots.now) pointer sliding found.vtoc found.four × (found.vtoc.run ≡ run) × IsSized found.vtoc) }
    ensures fault { IfErr result (IsToldFault (IsFrontBreach head (slot_in run (slot_of head.device) slots.now) pointer)) }
{
    let bytes = front_in(alloc, head, pointer, run, slots)?;
    let tracks = read_tracks(alloc, head.device, run, slots)?;
    let heads = head.device.heads();
    let vtoc = Vtoc {
        heads,
        limit: limit(&bytes, head),
        format_4: place_at(heads, pointer),
        valid: is_valid(&bytes, sliding),
        alternates: u32::from(number_at(&bytes, 56)),
        run,
        tracks,
    };
    Ok(Found { vtoc, four: bytes })
}
