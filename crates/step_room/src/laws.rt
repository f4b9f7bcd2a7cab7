//! What holds of the room in a VTOC, whatever judges it.

ghost use Rattle.step_room.specs.Room.{LackingChangesAreFull, FittingChangesAreNotFull, RepairsKeepRoom, RepairsKeepRoomForExtents, AlikeChangesHaveRoom, StatedVolumesHaveRoom, ChangesStateSpace};

/// A change of a loaded volume lacks room exactly where its volume does for what the change leaves; stating the free space leaves the room
/// for every other change as it is; a change has room where one like it has; and a data set may be taken away, or put in its own place again,
/// where the free space can be stated, as it can behind each change.
pub fn room_laws()
    ensures full { LackingChangesAreFull }
    ensures fits { FittingChangesAreNotFull }
    ensures repaired { RepairsKeepRoom }
    ensures extents { RepairsKeepRoomForExtents }
    ensures alike { AlikeChangesHaveRoom }
    ensures stated { StatedVolumesHaveRoom }
    ensures states { ChangesStateSpace }
{}
