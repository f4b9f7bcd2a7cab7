//! A part of a dump that is to be restored, and why it isn't.

ghost use Rattle.std.specs.Prelude.{◌≡◌, ◌↔◌, false, true, [], take, All, IsTrue, IfOk, IfErr, IfSome, IfNone};
ghost use Rattle.std.specs.Bool.{OnFalse};
ghost use Rattle.ckd_image.specs.Device.{heads_of};
ghost use Rattle.set_facts.specs.Facts.{IsUnexpired};
ghost use Rattle.volume_model.specs.Pinned.{IsPinned};
ghost use Rattle.volume_model.specs.Reads.{fields_of_1};
ghost use Rattle.volume_model.specs.Unit.{DataSet};
ghost use Rattle.job_turns.specs.job_copies.unit_steps.Plans.{HasRow};
ghost use Rattle.job_turns.specs.job_copies.step_plans.Plans.{HasNone, IsClear};
ghost use Rattle.job_lines.specs.Order.{IsFirst};
ghost use Rattle.job_restores.specs.Case.{Case, Replaces, ReplacesSome};
ghost use Rattle.job_restores.specs.Loaded.{AreRestored, MayRestore};
ghost use Rattle.job_restores.specs.Reasons.{IsFixed, IsNameTaken, IsSpared, PreventsAtFirst, first_reasons};

use crate::wish::RestoreWish;
use by_rules::Day;
use ckd_image::Listed;
use dsn_filter::Dsn;
use dump_parts::PartHead;
use enq_table::Held;
use job_lines::Reason;
use job_turns::job_copies::is_name_held;
use job_turns::job_copies::job_select::is_pinned;
use job_turns::job_copies::step_plans::row_of;
use set_facts::is_unexpired;
use std::alloc::Global;
use vtoc_core::{Row, Volume};

/// A part of a dump that is to be restored on a volume of its device.
#[derive(Clone, Copy)]
pub struct Restoring<'a> {
    pub target: &'a Volume,
    pub part: &'a PartHead,
    /// The name that it gets.
    pub new: Dsn,
    pub wish: RestoreWish,
}

impl Restoring<'_> {
    /// Why it isn't restored, as far as no places for it are asked; and else whether it takes the place of a data set that has its name.
    pub fn judge(&self, alloc: Global, held: &Held, today: Day) -> Result<bool, Reason>
        requires may { MayRestore self.now }
        ensures goes { IfOk result (λ replaced. (case : Case) → AreRestored self.now case
            → (All (λ reason. ¬ PreventsAtFirst held.now today case reason) first_reasons × (IsTrue replaced ↔ ReplacesSome case))) }
        ensures clear { IfOk result (λ replaced. IsClear replaced self.now.target.now self.now.new) }
        ensures refused { IfErr result (λ reason. (case : Case) → AreRestored self.now case → IsFirst (PreventsAtFirst held.now today case) first_reasons reason) }
    {
        if self.is_fixed(alloc) {
            return Err(Reason::Pinned);
        }
        if is_name_held(held, &self.new, true) {
            return Err(Reason::Held);
        }
        if self.is_spared(today) {
            return Err(Reason::NotExpired);
        }
        if self.is_name_taken() {
            return Err(Reason::NameExists);
        }
        Ok(self.replaced().is_some())
    }

    /// The row of the data set that has its name on the volume.
    fn namesake(&self) -> Option<&Row>
        requires may { MayRestore self.now }
        ensures found { IfSome result (λ row. HasRow self.now.target.now self.now.new row.now) }
        ensures none { IfNone result (HasNone self.now.target.now self.now.new) }
    {
        row_of(self.target, &self.new)
    }

    /// The row of the data set that it replaces.
    fn replaced(&self) -> Option<&Row>
        requires may { MayRestore self.now }
        ensures found { IfSome result (λ row. (self.now.wish.replace ≡ true) × HasRow self.now.target.now self.now.new row.now) }
        ensures none { IfNone result (self.now.wish.replace ≡ true → HasNone self.now.target.now self.now.new) }
    {
        if !self.wish.replace {
            return None;
        }
        self.namesake()
    }

    /// The row of its data set, which has no extents yet.
    fn row(&self, alloc: Global) -> Row
        ensures name { result.name ≡ take 44 self.now.part.now.f1 }
        ensures f1 { result.f1 ≡ self.now.part.now.f1 }
        ensures extents { result.extents ≡ [] }
        ensures threes { result.threes ≡ 0 }
    {
        Row {
            name: name_in(&self.part.f1),
            f1: self.part.f1,
            extents: Listed::new(alloc),
            threes: 0,
        }
    }

    /// Whether its format 1 says that no command moves it.
    fn is_part_pinned(&self, alloc: Global) -> bool
        ensures { IsTrue result ↔ IsPinned (heads_of self.now.target.now.device) (take 44 self.now.part.now.f1) (fields_of_1 self.now.part.now.f1) [] }
    {
        let row = self.row(alloc);
        is_pinned(self.target.device, &row)
    }

    /// Whether the one that it replaces is pinned.
    fn is_replaced_pinned(&self) -> bool
        requires may { MayRestore self.now }
        ensures { (case : Case) → AreRestored self.now case → (IsTrue result ↔ ((other : DataSet) × Replaces case other × IsPinned (heads_of case.to.device) other.name other.fields other.extents)) }
    {
        match self.replaced() {
            Some(row) => is_pinned(self.target.device, row),
            None => false,
        }
    }

    /// Whether its format 1 says that no command moves it, or the one that it replaces is pinned.
    fn is_fixed(&self, alloc: Global) -> bool
        requires may { MayRestore self.now }
        ensures { (case : Case) → AreRestored self.now case → (IsTrue result ↔ IsFixed case) }
    {
        self.is_part_pinned(alloc) || self.is_replaced_pinned()
    }

    /// Whether the one that it replaces is unexpired.
    fn is_replaced_unexpired(&self, today: Day) -> bool
        requires may { MayRestore self.now }
        ensures { (case : Case) → AreRestored self.now case → (IsTrue result ↔ ((other : DataSet) × Replaces case other × IsUnexpired other.fields today)) }
    {
        match self.replaced() {
            Some(row) => is_unexpired(&row.f1, today),
            None => false,
        }
    }

    /// Whether the one that it replaces is unexpired, and is spared.
    fn is_spared(&self, today: Day) -> bool
        requires may { MayRestore self.now }
        ensures { (case : Case) → AreRestored self.now case → (IsTrue result ↔ IsSpared today case) }
    {
        !self.wish.purge && self.is_replaced_unexpired(today)
    }

    /// Whether its name is taken, and what has it isn't to be replaced.
    fn is_name_taken(&self) -> bool
        requires may { MayRestore self.now }
        ensures taken { (case : Case) → AreRestored self.now case → (IsTrue result ↔ IsNameTaken case) }
        ensures none { OnFalse result (self.now.wish.replace ≡ false → HasNone self.now.target.now self.now.new) }
    {
        !self.wish.replace && self.namesake().is_some()
    }
}

/// The bytes of the name in a format 1.
fn name_in(f1: &[u8; 140]) -> [u8; 44]
    ensures { result ≡ take 44 f1.now }
{
    let mut name = [0; 44];
    name.copy_from_slice(&f1[..44]);
    name
}
