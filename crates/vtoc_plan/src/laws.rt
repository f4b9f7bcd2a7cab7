//! What holds of a change whose records were allotted.

ghost use Rattle.vtoc_plan.specs.Plan.{LayoutsAreHeld, PlansAreChanges, PlansSayExtents, PlansSayEntries};

/// What a layout says of a data set and of format 5s may be handed to an allotment.
pub fn holding_laws()
    ensures held { LayoutsAreHeld }
{}

/// DSCBs at allotted places are a change of the layout, and say the extents and the entries that are wanted.
pub fn plan_laws()
    ensures change { PlansAreChanges }
    ensures extents { PlansSayExtents }
    ensures entries { PlansSayEntries }
{}
