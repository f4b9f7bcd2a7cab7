//! Jobs of the desk, and lines of its units.

use ckd_image::Bytes;

/// A job: its key, its number from 1, the text that it is to run; and it is queued, or it ended with a code and what it printed.
#[derive(Debug, Drop)]
pub struct Job {
    pub key: Bytes,
    pub number: u32,
    pub text: Bytes,
    pub ended: Option<(u8, Bytes)>,
}

/// What is said of a volume that is online: usable tracks, free ones among them, the runs in which these stand, and the fragmentation index in thousandths.
#[derive(Clone, Copy, Debug, PartialEq, Eq)]
pub struct VolumeNumbers {
    pub usable: u32,
    pub free: u32,
    pub runs: u32,
    pub index: u32,
}

/// What is said of a unit: its serial, and the numbers of its volume where that is online.
#[derive(Debug, Drop)]
pub struct UnitLine {
    pub serial: Bytes,
    pub online: Option<VolumeNumbers>,
}
