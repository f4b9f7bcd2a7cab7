//! What holds of plans, of the tracks that are copied for one, and of the commit that makes its step.

ghost use Rattle.unit_steps.specs.Parts.{PartsTakeUnits};
ghost use Rattle.unit_steps.specs.Laws.{FreeTracksMayBeWritten, CopiedUnitsLoad, PlansAreSmall, EntriesAreReady, UnchangedHaveNoEntry, PatchedVtocsAreKept, SwitchedUnitsLoad, SwitchedUnitsKeepFills, PlansTakeUnits};

/// Free tracks may be written: no meaning rests on one, and each unit loads as it did.
pub fn copying_laws()
    ensures free { FreeTracksMayBeWritten }
    ensures loads { CopiedUnitsLoad }
{}

/// The rendered tracks of a plan's changes fit one commit, which writes no block that stays the same and takes the units by the plan's step; then each
/// unit loads as it was rendered, and fits whether a fill is open on it.
pub fn switching_laws()
    ensures small { PlansAreSmall }
    ensures ready { EntriesAreReady }
    ensures unchanged { UnchangedHaveNoEntry }
    ensures kept { PatchedVtocsAreKept }
    ensures takes { PlansTakeUnits }
    ensures parts { PartsTakeUnits }
    ensures loads { SwitchedUnitsLoad }
    ensures fills { SwitchedUnitsKeepFills }
{}
