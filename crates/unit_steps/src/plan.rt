//! A step, and what makes it.

use ckd_image::Listed;
use move_core::{Dsn, Step};
use volume_change::Change;

/// Where the texts of new tracks come from.
#[derive(Clone, Copy, Debug, PartialEq, Eq)]
pub enum Tracks {
    /// There are no new tracks.
    None,
    /// The data set of a name on a unit: its texts in order, and empty tracks behind them.
    Rows { unit: u32, name: Dsn },
    /// The caller gives each.
    Given,
}

/// Changes of VTOCs, each with its unit.
pub type Changes = Listed<(u32, Change)>;

/// A step, where the texts of its new tracks come from, and what it changes in VTOCs.
#[derive(Debug, Drop)]
pub struct Plan {
    pub step: Step,
    pub tracks: Tracks,
    pub changes: Changes,
}
