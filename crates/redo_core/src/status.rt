//! What is under way, once entries are in place.

ghost use Rattle.std.specs.Prelude.{◌≡◌, ◌<◌, ◌≤◌, ◌+◌, ℕ, All, if◌then◌else◌};
ghost use Rattle.dasd_pool.specs.Disk.{is_at};
ghost use Rattle.redo_core.specs.Format.{wide, control_in, is_filling};
ghost use Rattle.redo_core.specs.Reading.{fills_of};
ghost use Rattle.redo_core.specs.Phases.{MayGo, IsStatusAfter};

use crate::control::Control;
use crate::entries::Entry;
use crate::survey::{control_of, fills_in};
use dasd_pool::Pool;

/// What is under way: a slide, and of each volume whether a fill is.
#[derive(Clone, Copy)]
pub(crate) struct Status {
    pub control: Control,
    pub fills: [bool; 64],
}

/// What is under way with one entry more in place.
fn status_with<P: Pool>(pool: &P, journal: u32, entry: &Entry, before: Status) -> Status
    requires last { journal + 1 ≡ (P.shape pool.now).units }
    requires width { (P.shape pool.now).block_size journal ≡ wide }
    requires entry { MayGo (P.shape pool.now) entry.now }
    ensures control { result.control ≡ (if is_at journal 2 entry.now.unit entry.now.block then control_in entry.now.slot else before.control) }
    ensures fills { (u : ℕ) → u < 64 → fills_of result.fills u ≡ (if is_at journal 2 entry.now.unit entry.now.block then is_filling entry.now.slot else fills_of before.fills) u }
{
    if entry.unit != journal || entry.block != 2 {
        return before;
    }
    let block = entry.slot.as_slice();
    match control_of(pool, journal, block) {
        Some(control) => {
            let fills = fills_in(block);
            Status { control, fills }
        }
        None => before,
    }
}

/// What is under way with all entries in place: what the last for the control block says.
pub(crate) fn status_after<P: Pool>(
    pool: &P,
    journal: u32,
    entries: &[Entry],
    before: Status,
) -> Status
    requires last { journal + 1 ≡ (P.shape pool.now).units }
    requires few { journal ≤ 64 }
    requires width { (P.shape pool.now).block_size journal ≡ wide }
    requires entries { All (MayGo (P.shape pool.now)) entries.now }
    ensures { IsStatusAfter (P.shape pool.now) entries.now before.control before.fills result.control result.fills }
{
    let mut status = before;
    for entry in entries {
        status = status_with(pool, journal, entry, status);
    }
    status
}
