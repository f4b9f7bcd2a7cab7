//! What is known of a data set.

use crate::day::Day;

/// How a data set asked for its space.
#[derive(Clone, Copy, Debug, PartialEq, Eq)]
pub enum AllocKind {
    Absolute,
    Blocks,
    Tracks,
    Cylinders,
}

/// The facts of a row that criteria speak of.
#[derive(Clone, Copy, Debug, PartialEq, Eq)]
pub struct RowFacts {
    /// The two bytes of DSORG.
    pub dsorg: u16,
    pub created: Day,
    pub expires: Day,
    pub referred: Day,
    pub extents: u32,
    pub tracks: u32,
    pub changed: bool,
    pub alloc_kind: AllocKind,
    /// The volume sequence number.
    pub sequence: u32,
}
