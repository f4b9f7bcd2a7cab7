//! A data set that is to be copied, and why it isn't.

ghost use Rattle.std.specs.Prelude.{◌≡◌, ◌≢◌, ◌↔◌, ◌≤◌, true, length, All, IsTrue, IfOk, IfErr, IfSome, IfNone};
ghost use Rattle.vtoc_core.specs.declared.volume.Row.{Row as RowOf};
ghost use Rattle.step_room.specs.unit_steps.Plans.{HasRow};
ghost use Rattle.step_room.specs.step_plans.Plans.{IsClear, HasNone};
ghost use Rattle.job_lines.specs.Order.{IsFirst};
ghost use Rattle.job_copies.specs.Case.{Case, ReplacesSome};
ghost use Rattle.job_copies.specs.Loaded.{AreCopied, MayCopy};
ghost use Rattle.job_copies.specs.Reasons.{PreventsAtFirst, first_reasons};
ghost use Rattle.job_copies.specs.Rows.{IsOwnRow, ReplacesRow, ReplacesNone};

use crate::wish::Wish;
use by_rules::Day;
use dsn_filter::Dsn;
use enq_table::Held;
use job_lines::Reason;
use step_room::step_plans::row_of;
use vtoc_core::{Row, Volume};

/// A data set of a volume that is to be copied to a volume, which may be the same.
#[derive(Clone, Copy)]
pub struct Copying<'a> {
    pub source: &'a Volume,
    pub target: &'a Volume,
    /// Both are the volume of one unit.
    pub within: bool,
    pub name: Dsn,
    /// The name of its copy.
    pub new: Dsn,
    pub wish: Wish,
}

impl Copying<'_> {
    /// Why it isn't copied, as far as neither its tracks nor places for its copy are asked; and else whether the copy takes the place of a data set
    /// that has its name.
    pub fn judge(&self, held: &Held, today: Day) -> Result<bool, Reason>
        requires may { MayCopy self.now }
        ensures goes { IfOk result (λ replaced. (case : Case) → AreCopied self.now case
            → (All (λ reason. ¬ PreventsAtFirst held.now today case reason) first_reasons × (IsTrue replaced ↔ ReplacesSome case))) }
        ensures clear { IfOk result (λ replaced. IsClear replaced self.now.target.now self.now.new) }
        ensures few { IfOk result (λ replaced. (row : RowOf) → HasRow self.now.source.now self.now.name row → length row.extents ≤ 16) }
        ensures apart { IfOk result (λ replaced. self.now.within ≡ true → self.now.new ≢ self.now.name) }
        ensures refused { IfErr result (λ reason. (case : Case) → AreCopied self.now case → IsFirst (PreventsAtFirst held.now today case) first_reasons reason) }
    {
        if self.is_fixed() {
            return Err(Reason::Pinned);
        }
        if self.is_held(held) {
            return Err(Reason::Held);
        }
        if self.is_spared(today) {
            return Err(Reason::NotExpired);
        }
        if self.is_name_taken() {
            return Err(Reason::NameExists);
        }
        Ok(self.replaced().is_some())
    }

    /// Its row.
    pub(crate) fn row(&self) -> &Row
        requires may { MayCopy self.now }
        ensures { HasRow self.now.source.now self.now.name result.now }
    {
        let Some(row) = row_of(self.source, &self.name) else {
            unreachable!()
        };
        row
    }

    /// The row of the data set that has the copy's name where the copy is to stand.
    pub(crate) fn namesake(&self) -> Option<&Row>
        requires may { MayCopy self.now }
        ensures found { IfSome result (λ row. HasRow self.now.target.now self.now.new row.now) }
        ensures none { IfNone result (HasNone self.now.target.now self.now.new) }
    {
        row_of(self.target, &self.new)
    }

    /// Whether the copy would stand in the place of its origin.
    pub(crate) fn is_own(&self) -> bool
        ensures { IsTrue result ↔ IsOwnRow self.now }
    {
        self.within && self.new.is_same(&self.name)
    }

    /// The row of the data set that the copy replaces.
    pub(crate) fn replaced(&self) -> Option<&Row>
        requires may { MayCopy self.now }
        ensures found { IfSome result (λ row. ReplacesRow self.now row.now) }
        ensures none { IfNone result (ReplacesNone self.now) }
    {
        if !self.wish.replace || self.is_own() {
            return None;
        }
        self.namesake()
    }
}
