//! Why a data set isn't dumped.

ghost use Rattle.std.specs.Prelude.{◌↔◌, ◌≤◌, All, length, IsTrue, IfOk, IfErr};
ghost use Rattle.ckd_image.specs.Device.{heads_of};
ghost use Rattle.volume_model.specs.Pinned.{IsPinned};
ghost use Rattle.volume_model.specs.Unit.{DataSet, OnlineVolume};
ghost use Rattle.job_turns.specs.job_copies.unit_change.Described.{Describes, DescribesSet};
ghost use Rattle.job_lines.specs.Order.{IsFirst};
ghost use Rattle.job_dumps.specs.Reasons.{IsHeldFrom, IsSparedBy, PreventsAtFirst, first_reasons};

use crate::wish::DumpWish;
use by_rules::Day;
use dsn_filter::Dsn;
use enq_table::Held;
use job_lines::Reason;
use job_turns::job_copies::is_name_held;
use job_turns::job_copies::job_select::is_pinned;
use set_facts::is_unexpired;
use vtoc_core::{Row, Volume};

/// A data set of a volume that is to be dumped: its row, its name, and what the statement asks.
#[derive(Clone, Copy)]
pub(crate) struct Dumping<'a> {
    pub volume: &'a Volume,
    pub row: &'a Row,
    pub name: Dsn,
    pub wish: DumpWish,
}

impl Dumping<'_> {
    /// Whether no command moves it.
    fn is_fixed(&self) -> bool
        ensures { (set : DataSet) → DescribesSet (heads_of self.now.volume.now.device) self.now.row.now set
            → (IsTrue result ↔ IsPinned (heads_of self.now.volume.now.device) set.name set.fields set.extents) }
    {
        is_pinned(self.volume.device, self.row)
    }

    /// Whether somebody holds it.
    fn is_held(&self, held: &Held) -> bool
        ensures { IsTrue result ↔ IsHeldFrom held.now self.now.wish self.now.name }
    {
        let changes = self.wish.changes();
        if self.wish.tolerate && !changes {
            return false;
        }
        is_name_held(held, &self.name, changes)
    }

    /// Whether it would be deleted, is unexpired, and is spared.
    fn is_spared(&self, today: Day) -> bool
        ensures { (set : DataSet) → DescribesSet (heads_of self.now.volume.now.device) self.now.row.now set → (IsTrue result ↔ IsSparedBy today self.now.wish set) }
    {
        if self.wish.purge || !self.wish.delete {
            return false;
        }
        is_unexpired(&self.row.f1, today)
    }

    /// Why it isn't dumped, as far as neither its tracks nor the room in the VTOC are asked.
    pub(crate) fn judge(&self, held: &Held, today: Day) -> Result<(), Reason>
        ensures goes { IfOk result (λ none. (volume : OnlineVolume) (set : DataSet) → Describes self.now.volume.now volume → DescribesSet (heads_of self.now.volume.now.device) self.now.row.now set
            → All (λ reason. ¬ PreventsAtFirst held.now today self.now.wish volume self.now.name set reason) first_reasons) }
        ensures few { IfOk result (λ none. length self.now.row.now.extents ≤ 16) }
        ensures refused { IfErr result (λ reason. (volume : OnlineVolume) (set : DataSet) → Describes self.now.volume.now volume → DescribesSet (heads_of self.now.volume.now.device) self.now.row.now set
            → IsFirst (PreventsAtFirst held.now today self.now.wish volume self.now.name set) first_reasons reason) }
    {
        if self.is_fixed() {
            return Err(Reason::Pinned);
        }
        if self.is_held(held) {
            return Err(Reason::Held);
        }
        if self.is_spared(today) {
            return Err(Reason::NotExpired);
        }
        Ok(())
    }
}
