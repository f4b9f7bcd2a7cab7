//! Where a part of a dump stands.

ghost use Rattle.std.specs.Prelude.{◌≡◌, ◌⊎◌, IfOk, IfSome, IfNone};
ghost use Rattle.ckd_image.specs.Device.{heads_of};
ghost use Rattle.free_map.specs.Free.{IsFree};
ghost use Rattle.free_map.specs.Several.{ArePlaces};
ghost use Rattle.job_turns.specs.job_copies.step_plans.Parts.{IsStepFor};
ghost use Rattle.job_restores.specs.Case.{Case};
ghost use Rattle.job_restores.specs.Loaded.{AreRestored, MayRestore};
ghost use Rattle.job_restores.specs.Places.{ArePlacesFor, HasNoPlaces};

use crate::restoring::Restoring;
use ckd_image::NoMemory;
use free_map::{FreeFault, Runs};
use set_facts::CYLINDERS;

impl Restoring<'_> {
    /// The runs on which it stands, if there is room.
    pub fn places(&self) -> Result<Option<Runs>, NoMemory>
        requires may { MayRestore self.now }
        requires kind { (self.now.part.now.kind ≡ 0x01) ⊎ (self.now.part.now.kind ≡ 0x81) }
        ensures free { IfOk result (λ found. IfSome found (λ runs. (step : _) × IsStepFor (heads_of self.now.target.now.device) self.now.part.now.kind step
            × ArePlaces (IsFree self.now.target.now.free) self.now.part.now.tracks step runs)) }
        ensures chosen { IfOk result (λ found. IfSome found (λ runs. (case : Case) → AreRestored self.now case → ArePlacesFor case runs)) }
        ensures none { IfOk result (λ found. IfNone found ((case : Case) → AreRestored self.now case → HasNoPlaces case)) }
    {
        match self.target.free.several(self.part.tracks, self.step()) {
            Ok(runs) => Ok(Some(runs)),
            Err(FreeFault::NoRun(_)) => Ok(None),
            Err(FreeFault::NoMemory) => Err(NoMemory),
        }
    }

    /// Whether places are looked for track by track, or cylinder by cylinder.
    fn step(&self) -> u32
        requires kind { (self.now.part.now.kind ≡ 0x01) ⊎ (self.now.part.now.kind ≡ 0x81) }
        ensures { IsStepFor (heads_of self.now.target.now.device) self.now.part.now.kind result }
    {
        if self.part.kind == CYLINDERS {
            self.target.device.heads()
        } else {
            1
        }
    }
}
