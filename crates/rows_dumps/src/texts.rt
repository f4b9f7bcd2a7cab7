//! Dumps as bytes: a 3390 of one cylinder, VOL001, dumped on the first day of 2024.

ghost use Rattle.std.specs.Prelude.{◌≡◌, false, IfSome};
ghost use Rattle.dump_fmt.specs.Head.{IsDumpHead};

use by_rules::Day;
use ckd_image::{Device, NoMemory};
use dump_fmt::DumpHead;
use std::alloc::Global;
use vol_label::{Serial, is_serial};

/// What the header of the logical dumps says, if its serial is one.
pub fn head() -> Option<DumpHead>
    ensures { IfSome result (λ head. IsDumpHead head × (head.full ≡ false)) }
{
    let serial = Serial {
        text: [0xe5, 0xd6, 0xd3, 0xf0, 0xf0, 0xf1],
    };
    if !is_serial(&serial.text) {
        return None;
    }
    Some(DumpHead {
        full: false,
        device: Device::D3390,
        serial,
        tracks: 15,
        day: Day { year: 2024, day: 1 },
        vtoc: 0,
    })
}

/// A logical dump without parts: the header, and the trailer from byte 32 on.
pub static EMPTY: [u8; 73] = [
    0x41, 0x44, 0x52, 0x44, 0x55, 0x4d, 0x50, 0x31, 0x4c, 0x90, 0xe5, 0xd6, 0xd3, 0xf0, 0xf0, 0xf1,
    0x00, 0x00, 0x00, 0x0f, 0x07, 0xe8, 0x00, 0x01, 0x00, 0x00, 0x00, 0x00, 0x00, 0x00, 0x00, 0x00,
    0x5a, 0x00, 0x00, 0x00, 0x00, 0x00, 0x00, 0x00, 0x00, 0x8d, 0x75, 0xa0, 0x20, 0x4c, 0x28, 0x6f,
    0xe7, 0xdb, 0x5d, 0x7a, 0x91, 0x17, 0xaa, 0xed, 0x7a, 0x30, 0x27, 0x8d, 0xb0, 0xed, 0xbb, 0x42,
    0x82, 0x8b, 0x79, 0x69, 0x67, 0xa3, 0x79, 0xcc, 0xea,
];

/// The digest of the dump of one part.
static ONE_PART: [u8; 32] = [
    0xb8, 0x17, 0xe9, 0x03, 0xa6, 0x84, 0x10, 0x3c, 0x5d, 0x34, 0xf8, 0xd9, 0xd6, 0xd5, 0x07, 0xbf,
    0x4b, 0xc5, 0xa0, 0x61, 0xf8, 0x1c, 0xd6, 0xe0, 0xc9, 0x53, 0xf2, 0x24, 0x7c, 0xe4, 0x4c, 0x52,
];

/// The digest of the dump of a part without its track.
static DROPPED: [u8; 32] = [
    0xa9, 0x56, 0x83, 0x07, 0xcd, 0x9a, 0xb3, 0x8e, 0x1d, 0x29, 0x7e, 0x69, 0x8c, 0x57, 0x7b, 0x72,
    0xcc, 0x80, 0xa8, 0x73, 0xd5, 0x32, 0x92, 0x88, 0x33, 0x56, 0xc7, 0x0b, 0x6f, 0x2e, 0x87, 0x62,
];

/// The digest of the dump of A.B, whole, and A.C, dropped.
static TWO_PARTS: [u8; 32] = [
    0x46, 0xb3, 0xb6, 0x38, 0xdd, 0xa0, 0x25, 0x80, 0x59, 0x4c, 0x30, 0xba, 0x60, 0x51, 0x85, 0x6c,
    0xa2, 0x93, 0xc2, 0x89, 0xd9, 0xf4, 0x85, 0x32, 0xa1, 0xf5, 0xa8, 0x86, 0x41, 0x9c, 0xe5, 0xee,
];

/// A part of one track with a name of three characters.
fn named_part(name: [u8; 3]) -> [u8; 146] {
    let mut part = [0x40; 146];
    part[0] = 0x50;
    part[1..4].copy_from_slice(&name);
    part[45] = 0xf1;
    part[46..].fill(0);
    part[144] = 1;
    part[145] = 0x01;
    part
}

/// A track with one record of 80 bytes.
static TRACK: [u8; 16] = [0x01, 0, 0, 0, 0, 0, 0, 0, 0, 0, 0, 1, 1, 0, 0, 80];

/// A dump of A.B, whole, and of A.C, dropped before its track; 463 bytes.
pub fn two_parts_text(alloc: Global) -> Result<Vec<u8>, NoMemory> {
    let mut text = Vec::new(alloc);
    text.extend_from_slice(&EMPTY[..32])?;
    text.extend_from_slice(&named_part([0xc1, 0x4b, 0xc2]))?;
    text.extend_from_slice(&TRACK)?;
    text.extend_from_slice(&[0xd6; 80])?;
    text.push(0x00)?;
    text.extend_from_slice(&named_part([0xc1, 0x4b, 0xc3]))?;
    text.extend_from_slice(&[0xff, 0x5a, 0, 0, 0, 1, 0, 0, 0, 1])?;
    text.extend_from_slice(&TWO_PARTS)?;
    Ok(text)
}

/// Header and part: a format 1 without a name, and one track.
fn begun(alloc: Global) -> Result<Vec<u8>, NoMemory> {
    let mut text = Vec::new(alloc);
    let mut part = [0; 146];
    part[0] = 0x50;
    part[45] = 0xf1;
    part[144] = 1;
    part[145] = 0x01;
    text.extend_from_slice(&EMPTY[..32])?;
    text.extend_from_slice(&part)?;
    Ok(text)
}

/// A dump of one part of one track with one record of 80 bytes, 316 bytes: the part from byte 32 on, the track from 178 on, its end at 274, and the trailer.
pub fn one_part_text(alloc: Global) -> Result<Vec<u8>, NoMemory> {
    let mut text = begun(alloc)?;
    text.extend_from_slice(&TRACK)?;
    text.extend_from_slice(&[0xd6; 80])?;
    text.extend_from_slice(&[0x00, 0x5a, 0, 0, 0, 1, 0, 0, 0, 1])?;
    text.extend_from_slice(&ONE_PART)?;
    Ok(text)
}

/// A dump whose one part was dropped before its track, 220 bytes: the end of the part at byte 178, and the trailer.
pub fn dropped_text(alloc: Global) -> Result<Vec<u8>, NoMemory> {
    let mut text = begun(alloc)?;
    text.extend_from_slice(&[0xff, 0x5a, 0, 0, 0, 0, 0, 0, 0, 0])?;
    text.extend_from_slice(&DROPPED)?;
    Ok(text)
}
