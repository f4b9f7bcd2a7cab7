//! A full dump as bytes: a 3390 of one cylinder, VOL001, with a VTOC of one track.

use crate::texts::EMPTY;
use ckd_image::Bytes;
use rows_bytes::{BASE, GIVEN, RowsFault, label_slot, vtoc_slot};
use std::alloc::Global;

/// The digest of the dump.
static DIGEST: [u8; 32] = [
    0x69, 0xc1, 0x7e, 0x87, 0xd5, 0x1c, 0xbb, 0xa6, 0xe9, 0x56, 0xf5, 0xd7, 0xa2, 0x43, 0xf4, 0x2e,
    0x16, 0x29, 0x3d, 0x10, 0x3a, 0x81, 0x3c, 0xea, 0xd7, 0x92, 0x70, 0x2d, 0x63, 0x2c, 0xb7, 0xf6,
];

/// How many bytes of the slots of track 0, of track 1 and of a track with record 0 alone aren't zeros at the end.
const LABEL_LENGTH: usize = 313;

const VTOC_LENGTH: usize = 7_429;

const BARE_LENGTH: usize = 29;

/// Adds the piece of a slot, of which so many bytes stand there.
fn push_slot(text: &mut Vec<u8>, track: u8, slot: &[u8], length: usize) -> Result<(), RowsFault> {
    let length = length.min(slot.len()).min(65_535);
    text.extend_from_slice(&[0x54, 0, 0, 0, track, 0, 0])?;
    text.extend_from_slice(&(length as u16).to_be_bytes())?;
    text.extend_from_slice(&slot[..length])?;
    Ok(())
}

/// A track with record 0 alone.
fn bare_track(head: u8) -> [u8; BARE_LENGTH] {
    let mut track = [0; BARE_LENGTH];
    track[4] = head;
    track[8] = head;
    track[12] = 8;
    track[21..].fill(0xff);
    track
}

/// The dump, 8,327 bytes: slots at bytes 32, 354 and 7,792, and from there on one every 38 bytes up to the trailer at 8,286.
pub fn full_text(alloc: Global) -> Result<Bytes, RowsFault> {
    let mut text = Vec::new(alloc);
    text.extend_from_slice(&EMPTY[..32])?;
    text[8] = 0x46;
    text[27] = 1;
    push_slot(
        &mut text,
        0,
        label_slot(alloc, BASE)?.as_slice(),
        LABEL_LENGTH,
    )?;
    push_slot(
        &mut text,
        1,
        vtoc_slot(alloc, GIVEN)?.as_slice(),
        VTOC_LENGTH,
    )?;
    for track in 2..15 {
        push_slot(&mut text, track, &bare_track(track), BARE_LENGTH)?;
    }
    text.extend_from_slice(&[0x5a, 0, 0, 0, 15, 0, 0, 0, 15])?;
    text.extend_from_slice(&DIGEST)?;
    Ok(Bytes::from_vec(text))
}
