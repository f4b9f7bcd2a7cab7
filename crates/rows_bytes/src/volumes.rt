//! Volumes: a 3390 of one cylinder with a label, a VTOC of one track, and at most one data set. Its other tracks have record 0 alone.

use crate::fault::RowsFault;
use crate::journals::{Change, put_changes};
use crate::slots::slot_at;
use ckd_image::Bytes;
use dasd_pool::UnitText;
use std::alloc::Global;

/// Where a VTOC of one track stands, and what it states.
#[derive(Clone, Copy, Debug)]
pub struct Vtoc {
    /// The head of cylinder 0 on which it is.
    pub head: u8,
    /// How many records it has.
    pub records: u8,
    /// The numbers of the format 4 and of the format 5.
    pub four: u8,
    pub five: u8,
    /// The entries of the format 5: a track, and how many from it on.
    pub entries: &'static [(u8, u8)],
}

/// The VTOC of a volume without data sets.
pub const BASE: Vtoc = Vtoc {
    head: 1,
    records: 50,
    four: 1,
    five: 2,
    entries: &[(2, 13)],
};

/// A volume, of whose head and blocks some bytes are changed.
#[derive(Clone, Copy, Debug)]
pub struct Given {
    pub vtoc: Vtoc,
    /// Track and record of the last block of the data set A.B on tracks 2 to 11, in three bytes, where there is one. Each of its tracks
    /// has one record of 80 bytes.
    pub last: Option<[u8; 3]>,
    pub head: &'static [Change],
    pub blocks: &'static [Change],
}

/// The volume without data sets.
pub const GIVEN: Given = Given {
    vtoc: BASE,
    last: None,
    head: &[],
    blocks: &[],
};

/// The volume with A.B, whose last block is record 1 of its third track.
pub const WITH_SET: Given = Given {
    vtoc: Vtoc {
        entries: &[(12, 3)],
        ..BASE
    },
    last: Some([0, 2, 1]),
    ..GIVEN
};

/// The bytes of the unit of a volume.
pub fn volume(alloc: Global, given: Given) -> Result<UnitText, RowsFault> {
    let mut head = [0; 512];
    head[..8].copy_from_slice(b"CKD_P370");
    head[8] = 15;
    head[13] = 0xde; // a slot of 56,832 bytes
    head[16] = 0x90;
    put_changes(&mut head, given.head);
    let mut blocks = Vec::with_capacity(alloc, 852_480)?;
    for track in 0..15 {
        blocks.extend_from_slice(&slot_at(alloc, given, track)?)?;
    }
    put_changes(&mut blocks, given.blocks);
    Ok(UnitText {
        head,
        blocks: Bytes::from_vec(blocks),
    })
}
