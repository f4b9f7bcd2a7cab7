//! What holds of a VTOC after one change of its data sets.

ghost use Rattle.layout_edit.specs.Change.{ChangesHaveLayouts};
ghost use Rattle.layout_edit.specs.Space.{ExtentsStayApart, UsableTracksStay, EntriesAreRight};

/// The records after a change have the layout that it says.
pub fn change_laws()
    ensures layout { ChangesHaveLayouts }
{}

/// Extents that are apart from those that stay leave them apart, the usable tracks stay, and entries that are the runs of the free tracks
/// state them.
pub fn space_laws()
    ensures extents { ExtentsStayApart }
    ensures usable { UsableTracksStay }
    ensures entries { EntriesAreRight }
{}
