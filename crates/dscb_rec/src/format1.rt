//! The fields of a format 1, which describes a data set.

ghost use Rattle.std.specs.Prelude.{◌≡◌, ◌<◌, ◌≤◌, ◌+◌, ◌↔◌, drop, replicate, slice_index, IsNone, IfSome};
ghost use Rattle.ckd_image.specs.Bytes.{Begins};
ghost use Rattle.ckd_image.specs.Address.{cchhr_text, IsCchhr};
ghost use Rattle.dscb_rec.specs.Field.{extent_text, IsExtent};
ghost use Rattle.dscb_rec.specs.Format1.{number_in, date_in, is_no_block, extent_places};
ghost use Rattle.dscb_rec.specs.Format1.{name_in, serial_in, volume_sequence_in, creation_in, expiry_in, reference_in};
ghost use Rattle.dscb_rec.specs.Format1.{flags_in, sms_flags_in, organization_in, record_format_in, block_length_in, record_length_in, key_length_in};
ghost use Rattle.dscb_rec.specs.Format1.{indicators_in, is_last_volume_in, is_changed_in};
ghost use Rattle.dscb_rec.specs.Format1.{extent_count_in, allocation_kind_in, secondary_amount_in, last_block_in};

use crate::field::{Extent, extent_of, pointer_of};
use ckd_image::Cchhr;

/// A date as a format 1 says it: a year from 1900 to 2155, and the day of the year from 1 on. Day 0 of 1900 is no date, and a day may be one that
/// no year has, as 999.
#[derive(Clone, Copy, Debug, PartialEq, Eq)]
pub struct Date {
    pub year: u16,
    pub day: u16,
}

/// The unit in which a data set asks for more space (DFSMSdfp Advanced Services, DS1SCAL1).
#[derive(Clone, Copy, Debug, PartialEq, Eq)]
pub enum AllocationKind {
    /// Tracks at given addresses.
    Absolute,
    Blocks,
    Tracks,
    Cylinders,
}

/// The place of the last block of a data set on a volume: its track, counted from 0 within the data set, and its record, from 1 on.
#[derive(Clone, Copy, Debug, PartialEq, Eq)]
pub struct LastBlock {
    pub track: u16,
    pub record: u8,
}

impl LastBlock {
    /// Whether the place is zeros, which say that there is no last block.
    pub fn is_none(self) -> bool
        ensures { result ≡ is_no_block self }
    {
        self.track == 0 && self.record == 0
    }
}

/// The 140 bytes of a format 1, with a reader for each field (DFSMSdfp Advanced Services, DSCB formats). Numbers have their high byte first.
#[derive(Clone, Copy, Debug, PartialEq, Eq)]
pub struct Format1<'a> {
    bytes: &'a [u8; 140],
}

impl<'a> Format1<'a> {
    /// Any 140 bytes are read by the places of the fields, whatever their format.
    pub fn new(bytes: &'a [u8; 140]) -> Format1<'a>
        ensures { result.bytes.now ≡ bytes.now }
    {
        Format1 { bytes }
    }

    fn byte_at(self, place: usize) -> u8
        requires { place < 140 }
        ensures { result ≡ slice_index self.entry.bytes.now place }
    {
        self.bytes[place]
    }

    fn number_at(self, place: usize) -> u16
        requires { place + 2 ≤ 140 }
        ensures { result ≡ number_in self.entry.bytes.now place }
    {
        u16::from_be_bytes([self.bytes[place], self.bytes[place + 1]])
    }

    fn date_at(self, place: usize) -> Date
        requires { place + 3 ≤ 140 }
        ensures { result ≡ date_in self.entry.bytes.now place }
    {
        Date {
            year: 1900 + u16::from(self.byte_at(place)),
            day: self.number_at(place + 1),
        }
    }

    /// The name (DS1DSNAM), in EBCDIC and filled up with blanks.
    pub fn name(self) -> [u8; 44]
        ensures { result ≡ name_in self.entry.bytes.now }
    {
        let bytes = self.bytes;
        let mut name = [0; 44];
        name.copy_from_slice(&bytes[..44]);
        name
    }

    /// The serial of the data set's first volume (DS1DSSN).
    pub fn serial(self) -> [u8; 6]
        ensures { result ≡ serial_in self.entry.bytes.now }
    {
        let bytes = self.bytes;
        let mut serial = [0; 6];
        serial.copy_from_slice(&bytes[45..51]);
        serial
    }

    /// Which of the data set's volumes this is, from 1 on (DS1VOLSQ).
    pub fn volume_sequence(self) -> u16
        ensures { result ≡ volume_sequence_in self.entry.bytes.now }
    {
        self.number_at(51)
    }

    /// The day on which it was made (DS1CREDT).
    pub fn creation(self) -> Date
        ensures { result ≡ creation_in self.entry.bytes.now }
    {
        self.date_at(53)
    }

    /// The day on which it expires (DS1EXPDT).
    pub fn expiry(self) -> Date
        ensures { result ≡ expiry_in self.entry.bytes.now }
    {
        self.date_at(56)
    }

    /// How many extents it has on this volume, here and in its format 3 (DS1NOEPV).
    pub fn extent_count(self) -> u8
        ensures { result ≡ extent_count_in self.entry.bytes.now }
    {
        self.byte_at(59)
    }

    /// The first flag byte (DS1FLAG1).
    pub fn flags(self) -> u8
        ensures { result ≡ flags_in self.entry.bytes.now }
    {
        self.byte_at(61)
    }

    /// The day on which it was last opened (DS1REFD).
    pub fn reference(self) -> Date
        ensures { result ≡ reference_in self.entry.bytes.now }
    {
        self.date_at(75)
    }

    /// The indicators of the storage management subsystem (DS1SMSFG).
    pub fn sms_flags(self) -> u8
        ensures { result ≡ sms_flags_in self.entry.bytes.now }
    {
        self.byte_at(78)
    }

    /// The organization (DS1DSORG): X'4000' is sequential, X'2000' direct, X'0200' partitioned, and X'0100' says that it can't be moved.
    pub fn organization(self) -> u16
        ensures { result ≡ organization_in self.entry.bytes.now }
    {
        self.number_at(82)
    }

    /// The record format (DS1RECFM).
    pub fn record_format(self) -> u8
        ensures { result ≡ record_format_in self.entry.bytes.now }
    {
        self.byte_at(84)
    }

    /// The length of a block, in bytes (DS1BLKL).
    pub fn block_length(self) -> u16
        ensures { result ≡ block_length_in self.entry.bytes.now }
    {
        self.number_at(86)
    }

    /// The length of a logical record, in bytes (DS1LRECL).
    pub fn record_length(self) -> u16
        ensures { result ≡ record_length_in self.entry.bytes.now }
    {
        self.number_at(88)
    }

    /// The length of a key, in bytes (DS1KEYL).
    pub fn key_length(self) -> u8
        ensures { result ≡ key_length_in self.entry.bytes.now }
    {
        self.byte_at(90)
    }

    /// The indicators of the data set (DS1DSIND).
    pub fn indicators(self) -> u8
        ensures { result ≡ indicators_in self.entry.bytes.now }
    {
        self.byte_at(93)
    }

    /// Whether this is the last of the data set's volumes (DS1IND80).
    pub fn is_last_volume(self) -> bool
        ensures { result ≡ is_last_volume_in self.entry.bytes.now }
    {
        self.indicators() & 0x80 != 0
    }

    /// Whether it was changed since the last dump (DS1IND02).
    pub fn is_changed(self) -> bool
        ensures { result ≡ is_changed_in self.entry.bytes.now }
    {
        self.indicators() & 0x02 != 0
    }

    /// The unit in which it asks for more space (DS1SCAL1).
    pub fn allocation_kind(self) -> AllocationKind
        ensures { result ≡ allocation_kind_in self.entry.bytes.now }
    {
        match self.byte_at(94) / 64 {
            0 => AllocationKind::Absolute,
            1 => AllocationKind::Blocks,
            2 => AllocationKind::Tracks,
            _ => AllocationKind::Cylinders,
        }
    }

    /// How many of these units it asks for, less than 2^24 (DS1SCAL3).
    pub fn secondary_amount(self) -> u32
        ensures { result ≡ secondary_amount_in self.entry.bytes.now }
    {
        65_536 * u32::from(self.byte_at(95)) + u32::from(self.number_at(96))
    }

    /// The place of the last block (DS1LSTAR).
    pub fn last_block(self) -> LastBlock
        ensures { result ≡ last_block_in self.entry.bytes.now }
    {
        LastBlock {
            track: self.number_at(98),
            record: self.byte_at(100),
        }
    }

    /// One of the three extents that stand in a format 1 (DS1EXT1 to DS1EXT3), by its number from 0 on. One of kind 0 is none.
    pub fn extent(self, number: u32) -> Extent
        requires { number < 3 }
        ensures fits { IsExtent result }
        ensures spelled { Begins (extent_text result) (drop (slice_index extent_places number) self.entry.bytes.now) }
    {
        extent_of(self.bytes, extent_place(number))
    }

    /// The pointer to a format 3 with more extents (DS1PTRDS); zeros are none.
    pub fn pointer(self) -> Option<Cchhr>
        ensures none { IsNone result ↔ (drop 135 self.entry.bytes.now ≡ replicate 5 0) }
        ensures found { IfSome result (λ place. IsCchhr place × Begins (cchhr_text place) (drop 135 self.entry.bytes.now)) }
    {
        pointer_of(self.bytes)
    }
}

/// Where an extent stands in a format 1, by its number from 0 on.
pub fn extent_place(number: u32) -> usize
    requires { number < 3 }
    ensures value { result ≡ slice_index extent_places number }
    ensures within { result + 10 ≤ 135 }
{
    match number {
        0 => 105,
        1 => 115,
        _ => 125,
    }
}
