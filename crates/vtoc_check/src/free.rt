//! The rule that the free tracks are stated.

ghost use Rattle.std.specs.Prelude.{◌≡◌, ◌≤◌, ◌<◌, ◌∷◌, nat_le, All, List, length, true, IfOk};
ghost use Rattle.std.specs.List.{list_all};
ghost use Rattle.free_map.specs.declared.run.Run.{Run};
ghost use Rattle.volume_model.specs.Dscbs.{numbers_below};
ghost use Rattle.volume_model.specs.Space.{end_of, usable_of};
ghost use Rattle.volume_model.specs.Check.{track_0, states_free as states_free_in, records_of, extents_in, entries_in, usable_in, bad_free, IsLowestOf};
ghost use Rattle.vtoc_check.specs.Sized.{IsSized};
ghost use Rattle.vtoc_check.specs.Reach.{is_marked};
ghost use Rattle.vtoc_check.specs.Tracks.{AreTracksOf, HasTracks};

use crate::lowest::add_if;
use crate::space::{TRACK_0, all_entries, all_extents, usable_tracks};
use crate::tracks::{mark_runs, tracks_of};
use ckd_image::NoMemory;
use free_map::Run;
use std::alloc::Global;
use volume_model::{Breach, Placed, Vtoc, VtocRule};

/// Whether a run ends at or before a track.
fn ends_by(run: Run, limit: u32) -> bool
    ensures { result ≡ nat_le (end_of run) limit }
{
    u64::from(run.first) + u64::from(run.len) <= u64::from(limit)
}

/// Whether all runs do.
fn all_end_by(runs: &[Run], limit: u32) -> bool
    ensures { result ≡ list_all (λ run. nat_le (end_of run) limit) runs.now }
{
    for run in runs {
        if !ends_by(*run, limit) {
            return false;
        }
    }
    true
}

fn has_mark(marks: &[bool], track: usize) -> bool
    ensures { result ≡ is_marked marks.now track }
{
    track < marks.len() && marks[track]
}

/// Whether each of the first tracks is marked.
fn are_marked(marks: &[bool], usable: u32) -> bool
    ensures { result ≡ list_all (is_marked marks.now) (numbers_below usable) }
{
    for track in 0..usable as usize {
        if !has_mark(marks, track) {
            return false;
        }
    }
    true
}

/// Whether each of so many usable tracks is used or stated free by an entry, and none twice. The used tracks are marked.
pub fn states_free(marks: &mut [bool], entries: &[Run], limit: u32, usable: u32) -> bool
    requires long { length marks.old ≡ limit }
    requires some { All HasTracks entries.now }
    ensures { (vtoc : Run) (extents : List Run) → AreTracksOf (track_0 ∷ vtoc ∷ extents) marks.old → All HasTracks (track_0 ∷ vtoc ∷ extents)
        → result ≡ states_free_in limit vtoc extents entries.now usable }
{
    if !all_end_by(entries, limit) {
        return false;
    }
    if mark_runs(marks, entries) {
        return false;
    }
    are_marked(marks, usable)
}

/// Track 0, the run of the VTOC, and those of the extents.
pub fn used_runs(alloc: Global, vtoc: Run, extents: &[Run]) -> Result<Vec<Run>, NoMemory>
    ensures { IfOk result (λ runs. runs.items ≡ track_0 ∷ vtoc ∷ extents.now) }
{
    let mut runs = Vec::new(alloc);
    runs.push(TRACK_0)?;
    runs.push(vtoc)?;
    runs.extend_from_slice(extents)?;
    Ok(runs)
}

/// Whether the entries of format 5 state exactly the usable tracks that are not used.
fn are_stated(
    alloc: Global,
    vtoc: &Vtoc,
    extents: &[Run],
    entries: &[Run],
) -> Result<bool, NoMemory>
    requires sized { IsSized vtoc.now }
    requires valid { vtoc.now.valid ≡ true }
    requires extents_within { All (λ run. end_of run ≤ vtoc.now.limit) extents.now }
    requires extents_have { All HasTracks extents.now }
    requires entries_have { All HasTracks entries.now }
    ensures { IfOk result (λ stated. stated ≡ states_free_in vtoc.now.limit vtoc.now.run extents.now entries.now
        (usable_of vtoc.now.valid vtoc.now.heads vtoc.now.limit vtoc.now.alternates vtoc.now.run extents.now entries.now)) }
{
    if !all_end_by(entries, vtoc.limit) {
        return Ok(false);
    }
    let usable = usable_tracks(vtoc, extents, entries);
    let used = used_runs(alloc, vtoc.run, extents)?;
    let mut marks = tracks_of(alloc, &used, vtoc.limit)?;
    Ok(states_free(&mut marks, entries, vtoc.limit, usable))
}

/// Whether those of all records do.
fn is_free_stated(alloc: Global, vtoc: &Vtoc, records: &[Placed]) -> Result<bool, NoMemory>
    requires records { records.now ≡ records_of vtoc.now }
    requires sized { IsSized vtoc.now }
    requires valid { vtoc.now.valid ≡ true }
    ensures { IfOk result (λ stated. stated ≡ states_free_in vtoc.now.limit vtoc.now.run (extents_in vtoc.now) (entries_in vtoc.now) (usable_in vtoc.now)) }
{
    let extents = all_extents(alloc, records, vtoc.heads, vtoc.limit)?;
    let entries = all_entries(alloc, records, vtoc.heads)?;
    are_stated(alloc, vtoc, &extents, &entries)
}

/// The breach of the rule that the free tracks are stated, which is told at the format 4.
pub fn broken_free(
    alloc: Global,
    vtoc: &Vtoc,
    records: &[Placed],
) -> Result<Option<Breach>, NoMemory>
    requires records { records.now ≡ records_of vtoc.now }
    requires sized { IsSized vtoc.now }
    ensures { IfOk result (IsLowestOf (bad_free vtoc.now)) }
{
    if !vtoc.valid {
        return Ok(None);
    }
    let stated = is_free_stated(alloc, vtoc, records)?;
    Ok(add_if(None, !stated, vtoc.format_4, VtocRule::Free))
}
