//! What holds of runs whatever makes them.

ghost use Rattle.free_map.specs.Runs.{OneList, SameTracksSameRuns};
ghost use Rattle.free_map.specs.Several.{OneChoice, NoChoiceWhereShort};

/// The maximal runs of a set are one list.
pub fn run_laws()
    ensures one { OneList }
    ensures same { SameTracksSameRuns }
{}

/// The runs that are chosen for a need are one list, and none where the free runs are too short.
pub fn choice_laws()
    ensures one { OneChoice }
    ensures none { NoChoiceWhereShort }
{}
