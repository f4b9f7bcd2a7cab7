//! The place of a record in a data set.

ghost use Rattle.std.specs.Prelude.{◌≡◌, ◌<◌, ◌++◌, length, IfSome, IfNone};
ghost use Rattle.org_reloc.specs.Place.{place_text, IsPlace};
ghost use Rattle.org_reloc.specs.Member.{number_of_place, place_of_number};

use byteorder::{BigEndian, ByteOrder};

/// A track, counted from the data set's first, and a record on it.
#[derive(Clone, Copy, Debug, PartialEq, Eq, PartialOrd, Ord)]
pub struct Place {
    pub track: u16,
    pub number: u8,
}

impl Place {
    /// The place at the front of bytes, and the bytes behind it.
    pub fn read(bytes: &[u8]) -> Option<(Place, &[u8])>
        ensures found { IfSome result (λ x. IsPlace x.0 × (bytes.now ≡ place_text x.0.track x.0.number ++ x.1.now)) }
        ensures short { IfNone result (length bytes.now < 3) }
    {
        if bytes.len() < 3 {
            return None;
        }
        let (place, rest) = bytes.split_at(3);
        let place = Place {
            track: BigEndian::read_u16(place),
            number: place[2],
        };
        Some((place, rest))
    }

    /// The place as one number, by which places have an order.
    pub fn ordinal(self) -> u32
        ensures { result ≡ number_of_place self }
    {
        256 * self.track as u32 + self.number as u32
    }

    /// The place that such a number stands for.
    pub fn of(ordinal: u32) -> Place
        ensures { result ≡ place_of_number ordinal }
    {
        Place {
            track: (ordinal / 256 % 65_536) as u16,
            number: (ordinal % 256) as u8,
        }
    }

    /// The place as a directory and a format 1 have it.
    pub fn bytes(self) -> [u8; 3]
        ensures { result ≡ place_text self.track self.number }
    {
        let [t0, t1] = self.track.to_be_bytes();
        [t0, t1, self.number]
    }
}
