//! Where a copy stands.

ghost use Rattle.std.specs.Prelude.{IfOk, IfSome, IfNone};
ghost use Rattle.ckd_image.specs.Device.{heads_of};
ghost use Rattle.plan_core.specs.Consolidate.{IsStepOf};
ghost use Rattle.vtoc_core.specs.declared.volume.Row.{Row as RowOf};
ghost use Rattle.step_room.specs.unit_steps.Plans.{HasRow};
ghost use Rattle.step_room.specs.step_plans.Plans.{ArePlacesOn, extents_from};
ghost use Rattle.job_copies.specs.Case.{Case};
ghost use Rattle.job_copies.specs.Loaded.{AreCopied, MayCopy};
ghost use Rattle.job_copies.specs.Places.{ArePlacesFor, HasNoPlaces};

use crate::copying::Copying;
use ckd_image::NoMemory;
use free_map::{FreeFault, Runs};
use job_select::track_count;
use set_facts::is_by_cylinders;
use vtoc_core::Row;

impl Copying<'_> {
    /// The runs on which its copy stands, if there is room.
    pub fn places(&self) -> Result<Option<Runs>, NoMemory>
        requires may { MayCopy self.now }
        ensures free { IfOk result (λ found. IfSome found (λ runs. (row : RowOf) → HasRow self.now.source.now self.now.name row → ArePlacesOn self.now.source.now row self.now.target.now runs)) }
        ensures chosen { IfOk result (λ found. IfSome found (λ runs. (case : Case) → AreCopied self.now case → ArePlacesFor case runs)) }
        ensures none { IfOk result (λ found. IfNone found ((case : Case) → AreCopied self.now case → HasNoPlaces case)) }
    {
        let row = self.row();
        let need = track_count(self.source, row);
        match self.target.free.several(need, self.step_for(row)) {
            Ok(runs) => Ok(Some(runs)),
            Err(FreeFault::NoRun(_)) => Ok(None),
            Err(FreeFault::NoMemory) => Err(NoMemory),
        }
    }

    /// Whether places for a row's tracks are looked for track by track, or cylinder by cylinder.
    fn step_for(&self, row: &Row) -> u32
        ensures { IsStepOf (heads_of self.now.target.now.device) (extents_from self.now.source.now.device row.now.extents) result }
    {
        if is_by_cylinders(row.extents.as_slice()) {
            self.target.device.heads()
        } else {
            1
        }
    }
}
