//! Each reason why a data set isn't copied.

ghost use Rattle.std.specs.Prelude.{◌≡◌, ◌↔◌, ◌⊎◌, ◌≤◌, false, length, Any, IsTrue};
ghost use Rattle.std.specs.Bool.{OnFalse};
ghost use Rattle.ckd_image.specs.Device.{heads_of};
ghost use Rattle.enq_table.specs.Table.{Conflicts};
ghost use Rattle.set_facts.specs.Facts.{IsUnexpired};
ghost use Rattle.volume_model.specs.Pinned.{IsPinned};
ghost use Rattle.volume_model.specs.Unit.{DataSet};
ghost use Rattle.vtoc_core.specs.declared.volume.Row.{Row as RowOf};
ghost use Rattle.step_room.specs.unit_steps.Plans.{HasRow};
ghost use Rattle.step_room.specs.step_plans.Plans.{HasNone};
ghost use Rattle.job_copies.specs.Case.{Case, Replaces};
ghost use Rattle.job_copies.specs.Loaded.{AreCopied, MayCopy};
ghost use Rattle.job_copies.specs.Reasons.{IsFixed, IsOriginHeld, IsCopyHeld, IsSpared, IsNameTaken};
ghost use Rattle.job_copies.specs.Rows.{IsOwnRow};

use crate::copying::Copying;
use by_rules::Day;
use dsn_filter::Dsn;
use enq_table::Held;
use job_select::is_pinned;
use set_facts::is_unexpired;

/// Whether somebody holds a name against a command that changes its data set, or reads it.
pub fn is_name_held(held: &Held, name: &Dsn, change: bool) -> bool
    ensures { IsTrue result ↔ Any (Conflicts name.now change) held.now }
{
    held.conflict(name, change).is_some()
}

impl Copying<'_> {
    /// Whether a data set is replaced that is pinned.
    fn is_replaced_pinned(&self) -> bool
        requires may { MayCopy self.now }
        ensures { (case : Case) → AreCopied self.now case → (IsTrue result ↔ ((other : DataSet) × Replaces case other × IsPinned (heads_of case.to.device) other.name other.fields other.extents)) }
    {
        match self.replaced() {
            Some(row) => is_pinned(self.target.device, row),
            None => false,
        }
    }

    /// Whether it is pinned, or the one that is replaced.
    pub(crate) fn is_fixed(&self) -> bool
        requires may { MayCopy self.now }
        ensures fixed { (case : Case) → AreCopied self.now case → (IsTrue result ↔ IsFixed case) }
        ensures few { OnFalse result ((row : RowOf) → HasRow self.now.source.now self.now.name row → length row.extents ≤ 16) }
    {
        is_pinned(self.source.device, self.row()) || self.is_replaced_pinned()
    }

    /// Whether somebody holds its name.
    fn is_origin_held(&self, held: &Held) -> bool
        ensures { (case : Case) → AreCopied self.now case → (IsTrue result ↔ IsOriginHeld held.now case) }
    {
        if self.wish.tolerate && !self.wish.delete {
            return false;
        }
        is_name_held(held, &self.name, self.wish.delete)
    }

    /// Whether somebody holds the copy's name, which counts as changed.
    fn is_copy_held(&self, held: &Held) -> bool
        requires may { MayCopy self.now }
        ensures { (case : Case) → AreCopied self.now case → (IsTrue result ↔ IsCopyHeld held.now case) }
    {
        if self.new.is_same(&self.name) && self.replaced().is_none() {
            return false;
        }
        is_name_held(held, &self.new, true)
    }

    /// Whether somebody holds one of both.
    pub(crate) fn is_held(&self, held: &Held) -> bool
        requires may { MayCopy self.now }
        ensures { (case : Case) → AreCopied self.now case → (IsTrue result ↔ (IsOriginHeld held.now case ⊎ IsCopyHeld held.now case)) }
    {
        self.is_origin_held(held) || self.is_copy_held(held)
    }

    /// Whether a data set is replaced that is unexpired.
    fn is_replaced_unexpired(&self, today: Day) -> bool
        requires may { MayCopy self.now }
        ensures { (case : Case) → AreCopied self.now case → (IsTrue result ↔ ((other : DataSet) × Replaces case other × IsUnexpired other.fields today)) }
    {
        match self.replaced() {
            Some(row) => is_unexpired(&row.f1, today),
            None => false,
        }
    }

    /// Whether one that is unexpired would be deleted or replaced, and is spared.
    pub(crate) fn is_spared(&self, today: Day) -> bool
        requires may { MayCopy self.now }
        ensures { (case : Case) → AreCopied self.now case → (IsTrue result ↔ IsSpared today case) }
    {
        if self.wish.purge {
            return false;
        }
        if self.wish.delete && is_unexpired(&self.row().f1, today) {
            return true;
        }
        self.is_replaced_unexpired(today)
    }

    /// Whether the copy's name is taken: by a data set that isn't to be replaced, or by its origin.
    pub(crate) fn is_name_taken(&self) -> bool
        requires may { MayCopy self.now }
        ensures taken { (case : Case) → AreCopied self.now case → (IsTrue result ↔ IsNameTaken case) }
        ensures another { OnFalse result (¬ IsOwnRow self.now) }
        ensures none { OnFalse result (self.now.wish.replace ≡ false → HasNone self.now.target.now self.now.new) }
    {
        if self.is_own() {
            return true;
        }
        !self.wish.replace && self.namesake().is_some()
    }
}
