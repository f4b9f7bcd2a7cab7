//! What holds of a VTOC by what its records are used for.

ghost use Rattle.volume_model.specs.FiveChain.{WalkIsChain, OneFiveChain};
ghost use Rattle.vtoc_layout.specs.Laws.{LayoutsBreakNoRule, RowsAreOfLayout, ExtentsAreOfLayout, EntriesAreOfLayout};

/// The walk along the format 5s is the one chain that they have.
pub fn five_laws()
    ensures chain { WalkIsChain }
    ensures one { OneFiveChain }
{}

/// A VTOC with a layout breaks no rule where its extents are apart and its free tracks are stated, and the layout says its rows, extents
/// and entries of free space.
pub fn layout_laws()
    ensures sound { LayoutsBreakNoRule }
    ensures rows { RowsAreOfLayout }
    ensures extents { ExtentsAreOfLayout }
    ensures entries { EntriesAreOfLayout }
{}
