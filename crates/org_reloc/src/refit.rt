//! A data set on another device.

use ckd_image::{Listed, Track};

/// The tracks of a data set, and the place of its last block: the track, counted from the first, in two bytes, and the record.
#[derive(Debug, Drop)]
pub struct Refit {
    pub tracks: Listed<Track>,
    pub last: [u8; 3],
}
