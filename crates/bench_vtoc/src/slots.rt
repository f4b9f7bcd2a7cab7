//! A VTOC byte by byte: 50 records on each of its tracks from track 1 on, data sets of one track each behind it, and one format 5.

ghost use Rattle.std.specs.Prelude.{◌≤◌};

use ckd_image::{Cchhr, Device, Head, TrackAt};
use std::alloc::{AllocError, Global};
use vol_label::{Label, Serial};

type Dscb = [u8; 140];

/// Records of a track.
const RECORDS: u32 = 50;

pub fn label() -> Label {
    Label {
        serial: Serial {
            text: [0xe5, 0xd6, 0xd3, 0xf0, 0xf0, 0xf1],
        },
        vtoc: Cchhr {
            at: TrackAt {
                cylinder: 0,
                head: 1,
            },
            r: 1,
        },
    }
}

/// How many cylinders hold track 0, the VTOC, its data sets, and some free tracks.
fn cylinders_of(tracks: u32) -> u32
    ensures { result ≤ 4082 }
{
    tracks.min(1200) * 51 / 15 + 2
}

pub fn head_of(tracks: u32) -> Head {
    Head {
        device: Device::D3390,
        tracks: 15 * cylinders_of(tracks),
    }
}

fn put(bytes: &mut Dscb, offset: usize, text: &[u8]) {
    for place in offset..140 {
        if let Some(byte) = text.get(place - offset) {
            bytes[place] = *byte;
        }
    }
}

/// A number of two bytes.
fn two(number: u32) -> [u8; 2] {
    [(number / 256 % 256) as u8, (number % 256) as u8]
}

/// Cylinder and head of a track.
fn address(track: u32) -> [u8; 4] {
    let [high, low] = two(track / 15);
    [high, low, 0, (track % 15) as u8]
}

/// An extent from one track to another.
fn extent(bytes: &mut Dscb, first: u32, last: u32) {
    put(bytes, 105, &[1, 0]);
    put(bytes, 107, &address(first));
    put(bytes, 111, &address(last));
}

fn format_4(tracks: u32) -> Dscb {
    let mut bytes = [4; 140];
    put(&mut bytes, 44, &[0; 96]);
    bytes[44] = 0xf4;
    put(&mut bytes, 62, &two(cylinders_of(tracks)));
    bytes[65] = 15;
    bytes[74] = 50;
    extent(&mut bytes, 1, tracks);
    bytes
}

/// The tracks behind the data sets are free.
fn format_5(tracks: u32) -> Dscb {
    let first = (tracks.min(1200) * 51).saturating_sub(1);
    let count = head_of(tracks).tracks.saturating_sub(first);
    let mut bytes = [0; 140];
    put(&mut bytes, 0, &[5; 4]);
    bytes[44] = 0xf5;
    put(&mut bytes, 4, &two(first));
    put(&mut bytes, 6, &two(count / 15));
    bytes[8] = (count % 15) as u8;
    bytes
}

/// A data set by its number, on one track.
fn format_1(number: u32, track: u32) -> Dscb {
    let mut bytes = [0; 140];
    put(&mut bytes, 0, &[0x40; 44]);
    bytes[0] = 0xc1;
    let mut rest = number;
    for place in [6, 5, 4, 3, 2, 1] {
        bytes[place] = 0xf0 + (rest % 10) as u8;
        rest /= 10;
    }
    bytes[44] = 0xf1;
    bytes[59] = 1;
    bytes[82] = 0x40;
    extent(&mut bytes, track, track);
    bytes
}

/// A record of a VTOC of so many tracks by its place.
fn record_at(tracks: u32, place: u32) -> Dscb {
    match place {
        0 => format_4(tracks),
        1 => format_5(tracks),
        _ => {
            let number = (place - 2).min(60_000);
            format_1(number, tracks.min(1200) + 1 + number)
        }
    }
}

fn push_record(slots: &mut Vec<u8>, at: [u8; 4], r: u8, bytes: &Dscb) -> Result<(), AllocError> {
    slots.extend_from_slice(&at)?;
    slots.extend_from_slice(&[r, 44, 0, 96])?;
    slots.extend_from_slice(bytes)?;
    Ok(())
}

fn push_track(slots: &mut Vec<u8>, tracks: u32, track: u32) -> Result<(), AllocError> {
    let at = address(track);
    let end = slots.len().saturating_add(Device::D3390.slot() as usize);
    slots.extend_from_slice(&[0])?;
    slots.extend_from_slice(&at)?;
    slots.extend_from_slice(&at)?;
    slots.extend_from_slice(&[0, 0, 0, 8, 0, 0, 0, 0, 0, 0, 0, 0])?;
    for r in 0..RECORDS {
        let place = track.saturating_sub(1).min(1200) * RECORDS + r;
        push_record(slots, at, (r + 1) as u8, &record_at(tracks, place))?;
    }
    slots.extend_from_slice(&[0xff; 8])?;
    slots.resize(end, 0)?;
    Ok(())
}

/// The slots of the VTOC's tracks.
pub fn slots_of(alloc: Global, tracks: u32) -> Result<Vec<u8>, AllocError> {
    let mut slots = Vec::new(alloc);
    for track in 1..tracks.saturating_add(1) {
        push_track(&mut slots, tracks, track)?;
    }
    Ok(slots)
}
