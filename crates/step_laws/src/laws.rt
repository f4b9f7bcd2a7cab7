//! Steps have at most one outcome.

ghost use Rattle.step_laws.specs.Outcome.{OneOutcome, StandsProper, StaysProper};

/// Steps lead from the units that an image stands for to one list of units at most: to none where a step can't be made on them.
pub fn step_laws()
    ensures one { OneOutcome }
    ensures stays { StaysProper }
    ensures stands { StandsProper }
{}
