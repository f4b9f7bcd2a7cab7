//! A track and its records.

ghost use Rattle.std.specs.Prelude.{◌≡◌, ◌<◌, ◌≤◌, ◌/◌, ◌+◌, ◌++◌, ◌==◌, length, [], map, find, slice_index_or, IfSome, IfNone};
ghost use Rattle.std.specs.Option.{option_copied};
ghost use Rattle.ckd_image.specs.Body.{IsBodyPut};
ghost use Rattle.ckd_image.specs.Address.{address, address_of, cchhr_text, IsAddress, IsCchhr};

use crate::bytes::Bytes;
use crate::listed::Listed;
use byteorder::{BigEndian, ByteOrder};

/// The address of a track.
#[derive(Clone, Copy, Debug, PartialEq, Eq)]
pub struct TrackAt {
    pub cylinder: u16,
    pub head: u16,
}

impl TrackAt {
    /// The address of a track by its number, on a device with so many heads.
    pub fn of(track: u32, heads: u32) -> TrackAt
        requires heads { 0 < heads }
        requires few { heads < 65536 }
        requires track { track / heads < 65536 }
        ensures { result ≡ address_of heads track }
    {
        TrackAt {
            cylinder: (track / heads) as u16,
            head: (track % heads) as u16,
        }
    }

    /// The address at the front of bytes, and the bytes behind it.
    pub fn read(bytes: &[u8]) -> Option<(TrackAt, &[u8])>
        ensures found { IfSome result (λ x. IsAddress x.0 × (bytes.now ≡ address x.0 ++ x.1.now)) }
        ensures short { IfNone result (length bytes.now < 4) }
    {
        if bytes.len() < 4 {
            return None;
        }
        let (at, rest) = bytes.split_at(4);
        let at = TrackAt {
            cylinder: BigEndian::read_u16(at),
            head: BigEndian::read_u16(&at[2..]),
        };
        Some((at, rest))
    }

    /// The address as it stands in a slot: cylinder and head.
    pub fn bytes(self) -> [u8; 4]
        ensures { result ≡ address self }
    {
        let [c0, c1] = self.cylinder.to_be_bytes();
        let [h0, h1] = self.head.to_be_bytes();
        [c0, c1, h0, h1]
    }
}

/// The address of a record: its track, and its number there.
#[derive(Clone, Copy, Debug, PartialEq, Eq)]
pub struct Cchhr {
    pub at: TrackAt,
    pub r: u8,
}

impl Cchhr {
    /// The address at the front of bytes, and the bytes behind it.
    pub fn read(bytes: &[u8]) -> Option<(Cchhr, &[u8])>
        ensures found { IfSome result (λ x. IsCchhr x.0 × (bytes.now ≡ cchhr_text x.0 ++ x.1.now)) }
        ensures short { IfNone result (length bytes.now < 5) }
    {
        if bytes.len() < 5 {
            return None;
        }
        let (place, rest) = bytes.split_at(5);
        let at = TrackAt {
            cylinder: BigEndian::read_u16(place),
            head: BigEndian::read_u16(&place[2..]),
        };
        let place = Cchhr { at, r: place[4] };
        Some((place, rest))
    }

    /// The address as it stands in a label or a DSCB: cylinder, head and number.
    pub fn bytes(self) -> [u8; 5]
        ensures { result ≡ cchhr_text self }
    {
        let [c0, c1, h0, h1] = self.at.bytes();
        [c0, c1, h0, h1, self.r]
    }
}

/// A count field: a record's address and number, and the lengths of its key and its body.
#[derive(Clone, Copy, Debug, PartialEq, Eq)]
pub struct Count {
    pub at: TrackAt,
    pub r: u8,
    pub key: u8,
    pub body: u16,
}

/// A record, by its number. One without key and body is an end of file.
#[derive(Debug, Drop)]
pub struct Rec {
    pub r: u8,
    pub key: Bytes,
    pub body: Bytes,
}

/// The records of a track in their order.
pub type Recs = Listed<Rec>;

/// What a slot holds: the flag byte, the eight bytes of record 0, and the records behind it.
#[derive(Debug, Drop)]
pub struct Track {
    pub flag: u8,
    pub r0: [u8; 8],
    pub recs: Recs,
}

impl Track {
    /// Writes bytes over those of a record's body from a place on.
    pub fn put_body(&mut self, place: usize, start: usize, piece: &[u8])
        requires place { place < length self.old.recs }
        requires room { start + length piece.now ≤ length (slice_index_or (map (λ rec. rec.body) self.old.recs) place []) }
        ensures { IsBodyPut place start piece.now self.old self.new }
    {
        self.recs.items[place].body.put_over(start, piece);
    }
}

/// The first record of a track with a number.
pub fn first_numbered(track: &Track, r: u8) -> Option<&Rec>
    ensures { option_copied result ≡ find (λ rec. rec.r == r) track.now.recs }
{
    track.recs.as_slice().iter().find(|rec| rec.r == r)
}

/// A field of a slot that may be wrong.
#[derive(Clone, Copy, Debug, PartialEq, Eq)]
pub enum TrackField {
    Home,
    Zero,
    Address,
    Length,
    End,
}
