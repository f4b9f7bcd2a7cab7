//! The calls that a pool in memory keeps.

/// A call, and whether it failed.
#[derive(Debug, Drop)]
pub enum Call {
    Read {
        unit: u32,
        block: u32,
        failed: bool,
    },
    Write {
        unit: u32,
        block: u32,
        bytes: Vec<u8>,
        failed: bool,
    },
    Sync {
        failed: bool,
    },
}

/// How a stop tears a block that isn't synced: as the last sync left it, as it was last written, zeros, or the first
/// half of what was written and the second half of what the last sync left.
#[derive(Clone, Copy, Debug, PartialEq, Eq)]
pub enum Tear {
    Old,
    New,
    Zero,
    Half,
}
