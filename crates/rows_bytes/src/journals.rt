//! What stands where the journal of volumes is.

use crate::fault::RowsFault;
use ckd_image::Bytes;
use dasd_pool::UnitText;
use redo_core::journal_head;
use std::alloc::Global;

/// The place of a byte, and what it is in place of what it was.
pub type Change = (usize, u8);

/// The bytes of a block of a journal.
pub const JOURNAL_BLOCK: usize = 65_536;

/// A registration of VOL001 with room 64.
pub const REGISTERED: [Change; 16] = [
    (0, b'A'),
    (1, b'D'),
    (2, b'R'),
    (3, b'R'),
    (4, b'E'),
    (5, b'G'),
    (6, b'0'),
    (7, b'1'),
    (11, 1),
    (15, 64),
    (16, 0xe5),
    (17, 0xd6),
    (18, 0xd3),
    (19, 0xf0),
    (20, 0xf0),
    (21, 0xf1),
];

/// A registration of VOL001 and VOL002 with room 64.
pub const REGISTERED_TWO: [Change; 22] = [
    (0, b'A'),
    (1, b'D'),
    (2, b'R'),
    (3, b'R'),
    (4, b'E'),
    (5, b'G'),
    (6, b'0'),
    (7, b'1'),
    (11, 2),
    (15, 64),
    (16, 0xe5),
    (17, 0xd6),
    (18, 0xd3),
    (19, 0xf0),
    (20, 0xf0),
    (21, 0xf1),
    (22, 0xe5),
    (23, 0xd6),
    (24, 0xd3),
    (25, 0xf0),
    (26, 0xf0),
    (27, 0xf2),
];

/// Changes bytes, where they are there.
pub(crate) fn put_changes(bytes: &mut [u8], changes: &[Change]) {
    for (place, byte) in changes {
        if let Some(found) = bytes.get_mut(*place) {
            *found = *byte;
        }
    }
}

/// A journal of so many blocks, at most 100, of which these bytes aren't zero.
pub fn journal(alloc: Global, blocks: usize, changes: &[Change]) -> Result<UnitText, RowsFault> {
    let mut bytes = Vec::new(alloc);
    bytes.resize(blocks.min(100) * JOURNAL_BLOCK, 0)?;
    put_changes(&mut bytes, changes);
    Ok(UnitText {
        head: journal_head(),
        blocks: Bytes::from_vec(bytes),
    })
}
