//! The pieces of a dump.

use by_rules::Day;
use ckd_image::{Bytes, Device, Track};
use vol_label::Serial;

/// What the header of a dump says: full or logical; the device, serial and number of tracks of the volume that was dumped; the day of the dump; and, of a
/// full dump, the track of the format-4 DSCB.
#[derive(Clone, Copy, Debug, PartialEq, Eq)]
pub struct DumpHead {
    pub full: bool,
    pub device: Device,
    pub serial: Serial,
    pub tracks: u32,
    pub day: Day,
    pub vtoc: u32,
}

/// A piece of a dump, in the order in which pieces stand in it.
#[derive(Debug, Drop)]
pub enum Piece {
    /// A data set begins: its format-1 DSCB, how many tracks it has, and the type of its extents, X'81' for whole cylinders and else X'01'.
    Part {
        f1: [u8; 140],
        tracks: u32,
        kind: u8,
    },
    /// The next track of the data set.
    Track(Track),
    /// The data set ends, with all of its tracks.
    PartEnd,
    /// The data set ends before that, and counts as absent.
    Dropped,
    /// A track of a full dump: its slot without the zeros at its end.
    Slot {
        track: u32,
        bytes: Bytes,
    },
}
