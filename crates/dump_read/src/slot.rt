//! Reading a slot of a full dump.

ghost use Rattle.std.specs.Prelude.{◌≡◌, ◌≤◌, ◌++◌, ◌↔◌, length, IsTrue, IfOk, IfErr};
ghost use Rattle.byteorder.specs.Endian.{big_bytes};
ghost use Rattle.ckd_image.specs.Bytes.{Begins};
ghost use Rattle.ckd_image.specs.Device.{slot_of};
ghost use Rattle.dump_read.specs.Header.{BeginsFixed};
ghost use Rattle.dump_read.specs.SlotText.{place_of, why_of, IsSlotRead, IsSlotStop, Stops, BeginsLength, EndsInZero, StopsBytes};
ghost use Rattle.dump_read.specs.declared.slot.SlotStop.TheVariants as stops;

use crate::number::{number_in, number_text, padded};
use ckd_image::text::{after, begins, split};
use ckd_image::{Bytes, Device, NoMemory};
use std::alloc::Global;

/// The fields of a slot that may be wrong: the number of the track, how many bytes there are, and these.
#[derive(Clone, Copy, Debug, PartialEq, Eq)]
pub enum SlotField {
    Track,
    Length,
    Bytes,
}

impl SlotField {
    /// Where the field is behind the mark.
    pub fn place(self) -> u64
        ensures { result ≡ place_of self }
    {
        match self {
            SlotField::Track => 0,
            SlotField::Length => 4,
            SlotField::Bytes => 8,
        }
    }

    /// The number of the refusal: 8 the order of tracks, 7 the rest of the slot.
    pub fn why(self) -> u8
        ensures { result ≡ why_of self }
    {
        match self {
            SlotField::Track => 8,
            _ => 7,
        }
    }
}

/// Why no slot is read: a field is wrong; or the text ends before the slot does; or memory ran out.
#[derive(Clone, Copy, Debug, PartialEq, Eq)]
pub enum SlotStop {
    Wrong(SlotField),
    Cut,
    NoMemory,
}

impl From<NoMemory> for SlotStop {
    ghost from_gives = { λ _ e. e ≡ stops.NoMemory };

    fn from(_: NoMemory) -> SlotStop {
        SlotStop::NoMemory
    }
}

/// The bytes behind the number of the track, where it is this one.
fn track_in(number: u32, text: &[u8]) -> Result<&[u8], SlotStop>
    ensures found { IfOk result (λ rest. text.now ≡ big_bytes 4 number ++ rest.now) }
    ensures stops { IfErr result (Stops SlotField.Track (BeginsFixed (big_bytes 4 number)) text.now) }
{
    let right = number_text(number);
    if let Some(rest) = after(text, &right) {
        return Ok(rest);
    }
    if begins(&right, text) {
        return Err(SlotStop::Cut);
    }
    Err(SlotStop::Wrong(SlotField::Track))
}

/// How many bytes there are of the slot, and what stands behind that.
fn length_in(device: Device, text: &[u8]) -> Result<(u32, &[u8]), SlotStop>
    ensures found { IfOk result (λ x. (x.0 ≤ slot_of device) × (text.now ≡ big_bytes 4 x.0 ++ x.1.now)) }
    ensures stops { IfErr result (Stops SlotField.Length (BeginsLength device) text.now) }
{
    let Some((count, rest)) = number_in(text) else {
        if padded(text) <= device.slot() {
            return Err(SlotStop::Cut);
        }
        return Err(SlotStop::Wrong(SlotField::Length));
    };
    if count > device.slot() {
        return Err(SlotStop::Wrong(SlotField::Length));
    }
    Ok((count, rest))
}

/// Whether the last byte is zero.
fn ends_in_zero(bytes: &[u8]) -> bool
    ensures { IsTrue result ↔ EndsInZero bytes.now }
{
    match bytes.split_last() {
        Some((last, _)) => *last == 0,
        None => false,
    }
}

/// So many bytes of the slot, of which the last isn't zero.
fn bytes_in(count: u32, text: &[u8]) -> Result<&[u8], SlotStop>
    ensures found { IfOk result (λ found. (length found.now ≡ count) × (¬ EndsInZero found.now) × Begins found.now text.now) }
    ensures stops { IfErr result (StopsBytes count text.now) }
{
    let Some((bytes, _behind)) = split(text, count as usize) else {
        return Err(SlotStop::Cut);
    };
    if ends_in_zero(bytes) {
        return Err(SlotStop::Wrong(SlotField::Bytes));
    }
    Ok(bytes)
}

/// Reads the slot of a track with which text behind its mark begins.
pub fn read_slot(alloc: Global, device: Device, number: u32, text: &[u8]) -> Result<Bytes, SlotStop>
    ensures read { IfOk result (IsSlotRead device number text.now) }
    ensures stops { IfErr result (IsSlotStop device number text.now) }
{
    let rest = track_in(number, text)?;
    let (count, rest) = length_in(device, rest)?;
    let bytes = bytes_in(count, rest)?;
    let copy = Bytes::from_slice(alloc, bytes)?;
    Ok(copy)
}
