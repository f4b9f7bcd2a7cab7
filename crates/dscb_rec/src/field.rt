//! The fields of a DSCB that name tracks.

ghost use Rattle.std.specs.Prelude.{◌≡◌, ◌<◌, ◌≤◌, ◌+◌, ◌↔◌, ◌++◌, length, take, drop, replicate, IsNone, IfSome, IfNone};
ghost use Rattle.ckd_image.specs.Bytes.{Begins};
ghost use Rattle.ckd_image.specs.Address.{cchhr_text, IsCchhr};
ghost use Rattle.dscb_rec.specs.Field.{extent_text, IsExtent, entry_text, IsEntry5, entry_offset as offset_of_entry};

use byteorder::{BigEndian, ByteOrder};
use ckd_image::text::{put_over, same, tail};
use ckd_image::{Cchhr, TrackAt};

/// An extent: its type, its number, and its first and last track.
#[derive(Clone, Copy, Debug, PartialEq, Eq)]
pub struct Extent {
    pub kind: u8,
    pub number: u8,
    pub first: TrackAt,
    pub last: TrackAt,
}

/// An entry of a format 5: a relative track, full cylinders, and more tracks.
#[derive(Clone, Copy, Debug, PartialEq, Eq)]
pub struct Entry5 {
    pub first: u16,
    pub cylinders: u16,
    pub tracks: u8,
}

/// The extent at the front of bytes.
fn extent_at(bytes: &[u8]) -> Option<Extent>
    ensures found { IfSome result (λ extent. IsExtent extent × Begins (extent_text extent) bytes.now) }
    ensures short { IfNone result (length bytes.now < 10) }
{
    let (kind, rest) = bytes.split_first()?;
    let (number, rest) = rest.split_first()?;
    let (first, rest) = TrackAt::read(rest)?;
    let (last, _) = TrackAt::read(rest)?;
    Some(Extent {
        kind: *kind,
        number: *number,
        first,
        last,
    })
}

/// The extent at an offset: 105, 115 or 125 of a format 1, 105 of a format 4, or one of the 13 of a format 3.
pub fn extent_of(dscb: &[u8; 140], offset: usize) -> Extent
    requires { offset + 10 ≤ 140 }
    ensures fits { IsExtent result }
    ensures spelled { Begins (extent_text result) (drop offset dscb.now) }
{
    match extent_at(tail(dscb, offset)) {
        Some(extent) => extent,
        None => unreachable!(),
    }
}

fn extent_bytes(extent: Extent) -> [u8; 10]
    ensures { result ≡ extent_text extent }
{
    let [c0, c1, h0, h1] = extent.first.bytes();
    let [c2, c3, h2, h3] = extent.last.bytes();
    [extent.kind, extent.number, c0, c1, h0, h1, c2, c3, h2, h3]
}

/// Writes an extent at an offset, and changes no other byte.
pub fn put_extent(dscb: &mut [u8; 140], offset: usize, extent: Extent)
    requires { offset + 10 ≤ 140 }
    ensures { dscb.new ≡ take offset dscb.old ++ (extent_text extent ++ drop (offset + 10) dscb.old) }
{
    put_over(dscb, offset, &extent_bytes(extent));
}

/// The offset of an entry of a format 5.
pub fn entry_offset(place: u32) -> usize
    requires { place < 26 }
    ensures value { result ≡ offset_of_entry place }
    ensures within { result + 5 ≤ 135 }
{
    let place = place as usize;
    if place < 8 {
        4 + 5 * place
    } else {
        45 + 5 * (place - 8)
    }
}

/// The entry at the front of bytes, and the bytes behind it.
fn entry_at(bytes: &[u8]) -> Option<(Entry5, &[u8])>
    ensures found { IfSome result (λ x. IsEntry5 x.0 × (bytes.now ≡ entry_text x.0 ++ x.1.now)) }
    ensures short { IfNone result (length bytes.now < 5) }
{
    if bytes.len() < 5 {
        return None;
    }
    let (entry, rest) = bytes.split_at(5);
    let entry = Entry5 {
        first: BigEndian::read_u16(entry),
        cylinders: BigEndian::read_u16(&entry[2..]),
        tracks: entry[4],
    };
    Some((entry, rest))
}

/// The entry at a place of a format 5.
pub fn entry_of(dscb: &[u8; 140], place: u32) -> Entry5
    requires { place < 26 }
    ensures fits { IsEntry5 result }
    ensures spelled { Begins (entry_text result) (drop (offset_of_entry place) dscb.now) }
{
    match entry_at(tail(dscb, entry_offset(place))) {
        Some((entry, _)) => entry,
        None => unreachable!(),
    }
}

fn entry_bytes(entry: Entry5) -> [u8; 5]
    ensures { result ≡ entry_text entry }
{
    let [f0, f1] = entry.first.to_be_bytes();
    let [c0, c1] = entry.cylinders.to_be_bytes();
    [f0, f1, c0, c1, entry.tracks]
}

/// Writes an entry at a place of a format 5, and changes no other byte.
pub fn put_entry(dscb: &mut [u8; 140], place: u32, entry: Entry5)
    requires { place < 26 }
    ensures { dscb.new ≡ take (offset_of_entry place) dscb.old ++ (entry_text entry ++ drop (offset_of_entry place + 5) dscb.old) }
{
    put_over(dscb, entry_offset(place), &entry_bytes(entry));
}

/// The pointer of a DSCB to a further one, at its last five bytes; zeros are none.
pub fn pointer_of(dscb: &[u8; 140]) -> Option<Cchhr>
    ensures none { IsNone result ↔ (drop 135 dscb.now ≡ replicate 5 0) }
    ensures found { IfSome result (λ place. IsCchhr place × Begins (cchhr_text place) (drop 135 dscb.now)) }
{
    if same(tail(dscb, 135), &[0; 5]) {
        return None;
    }
    match Cchhr::read(tail(dscb, 135)) {
        Some((place, _)) => Some(place),
        None => unreachable!(),
    }
}
