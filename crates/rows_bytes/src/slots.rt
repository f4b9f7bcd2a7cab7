//! The slots of a volume of one cylinder of a 3390, byte by byte.

use crate::fault::RowsFault;
use crate::volumes::{Given, Vtoc};
use std::alloc::Global;

/// The bytes of a slot of a 3390.
pub const SLOT: usize = 56_832;

/// The serial VOL001 in the code page.
pub const VOL001: [u8; 6] = [0xe5, 0xd6, 0xd3, 0xf0, 0xf0, 0xf1];

/// What the label begins with: VOL1, VOL001, a blank, and the address of record 1 of track 1. Blanks follow.
pub const LABEL: [u8; 16] = [
    0xe5, 0xd6, 0xd3, 0xf1, 0xe5, 0xd6, 0xd3, 0xf0, 0xf0, 0xf1, 0x40, 0, 0, 0, 1, 1,
];

/// Adds a record to a track of cylinder 0. Its lengths are below 256.
fn push_record(
    track: &mut Vec<u8>,
    head: u8,
    r: u8,
    key: &[u8],
    body: &[u8],
) -> Result<(), RowsFault> {
    let key_length = key.len().min(255) as u8;
    let data_length = body.len().min(255) as u8;
    let count = [0, 0, 0, head, r, key_length, 0, data_length];
    track.extend_from_slice(&count)?;
    track.extend_from_slice(key)?;
    track.extend_from_slice(body)?;
    Ok(())
}

/// A track of cylinder 0 with its home address and record 0.
fn new_track(alloc: Global, head: u8) -> Result<Vec<u8>, RowsFault> {
    let mut track = Vec::new(alloc);
    track.extend_from_slice(&[0, 0, 0, 0, head])?;
    push_record(&mut track, head, 0, b"", &[0; 8])?;
    Ok(track)
}

/// The slot of a track: its end mark, and zeros behind it.
fn slot_of(mut track: Vec<u8>) -> Result<Vec<u8>, RowsFault> {
    track.extend_from_slice(&[0xff; 8])?;
    track.resize(SLOT, 0)?;
    Ok(track)
}

/// Track 0: the two records of the loader, and the label, whose pointer is the format 4.
pub fn label_slot(alloc: Global, vtoc: Vtoc) -> Result<Vec<u8>, RowsFault> {
    let mut track = new_track(alloc, 0)?;
    push_record(&mut track, 0, 1, &[0xc9, 0xd7, 0xd3, 0xf1], &[0; 24])?;
    push_record(&mut track, 0, 2, &[0xc9, 0xd7, 0xd3, 0xf2], &[0; 144])?;
    let mut label = [0x40; 80];
    label[..16].copy_from_slice(&LABEL);
    label[14] = vtoc.head;
    label[15] = vtoc.four;
    push_record(&mut track, 0, 3, &[0xe5, 0xd6, 0xd3, 0xf1], &label)?;
    slot_of(track)
}

/// The data of the format 4: one cylinder of 15 tracks, an index bit off, 50 DSCBs a track, and the extent of the VTOC.
fn format_4(given: Given) -> [u8; 96] {
    let vtoc = given.vtoc;
    let mut body = [0; 96];
    body[0] = 0xf4;
    body[7] = vtoc.records.saturating_sub(2); // free DSCBs
    if given.last.is_some() {
        body[4] = vtoc.head; // the place of the last format 1
        body[5] = 3;
        body[7] = vtoc.records.saturating_sub(3);
    }
    body[15] = 1;
    body[19] = 1; // cylinders
    body[21] = 15; // heads
    body[30] = 50; // DSCBs of a track
    body[61] = 1; // kind of the extent
    body[66] = vtoc.head; // its first head
    body[70] = vtoc.head; // its last head
    body
}

/// The key of the format 5, which has its first eight entries.
fn format_5_key(vtoc: Vtoc) -> [u8; 44] {
    let mut key = [0; 44];
    key[..4].copy_from_slice(&[5; 4]);
    for (place, (first, tracks)) in vtoc.entries.iter().enumerate() {
        if place < 8 {
            key[5 + 5 * place] = *first;
            key[8 + 5 * place] = *tracks;
        }
    }
    key
}

/// The name A.B.
fn set_name() -> [u8; 44] {
    let mut key = [0x40; 44];
    key[..3].copy_from_slice(&[0xc1, 0x4b, 0xc2]);
    key
}

/// The data of the format 1 of A.B, whose last block this is: PS, blocked records of 80 bytes, with one extent of tracks.
fn format_1(last: [u8; 3]) -> [u8; 96] {
    let mut body = [0; 96];
    body[0] = 0xf1;
    body[1..7].copy_from_slice(&VOL001);
    body[8] = 1; // the volume's number among those of the data set
    body[15] = 1; // extents
    body[38] = 0x40; // organization
    body[40] = 0x90; // format of the records
    body[43] = 80; // length of a block
    body[45] = 80; // and of a record
    body[49] = 0x80; // the last volume
    body[54..57].copy_from_slice(&last);
    body[61] = 1; // kind of the extent
    body[66] = 2; // its first head
    body[70] = 11; // its last head
    body
}

/// Adds a record of the VTOC.
fn push_dscb(track: &mut Vec<u8>, given: Given, r: u8) -> Result<(), RowsFault> {
    let vtoc = given.vtoc;
    if r == vtoc.four {
        return push_record(track, vtoc.head, r, &[4; 44], &format_4(given));
    }
    if r == vtoc.five {
        let mut body = [0; 96];
        body[0] = 0xf5;
        return push_record(track, vtoc.head, r, &format_5_key(vtoc), &body);
    }
    match given.last {
        Some(last) if r == 3 => push_record(track, vtoc.head, r, &set_name(), &format_1(last)),
        _ => push_record(track, vtoc.head, r, &[0; 44], &[0; 96]),
    }
}

/// The track of the VTOC.
pub fn vtoc_slot(alloc: Global, given: Given) -> Result<Vec<u8>, RowsFault> {
    let mut track = new_track(alloc, given.vtoc.head)?;
    for r in 1..=given.vtoc.records {
        push_dscb(&mut track, given, r)?;
    }
    slot_of(track)
}

/// A track of A.B: one record of 80 bytes, each of them the number of the track.
fn set_slot(alloc: Global, head: u8) -> Result<Vec<u8>, RowsFault> {
    let mut track = new_track(alloc, head)?;
    push_record(&mut track, head, 1, b"", &[head; 80])?;
    slot_of(track)
}

/// The slot of a track of the volume.
pub(crate) fn slot_at(alloc: Global, given: Given, head: u8) -> Result<Vec<u8>, RowsFault> {
    if head == 0 {
        return label_slot(alloc, given.vtoc);
    }
    if head == given.vtoc.head {
        return vtoc_slot(alloc, given);
    }
    if given.last.is_some() && (2..12).contains(&head) {
        return set_slot(alloc, head);
    }
    slot_of(new_track(alloc, head)?)
}
