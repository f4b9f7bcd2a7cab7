//! The rule that no two extents have a track.

ghost use Rattle.std.specs.Prelude.{◌≡◌, ◌≤◌, ◌<◌, ◌||◌, ◌++◌, ◌∷◌, [], ◌==◌, All, false, ◌+◌, IfOk, OnOk, List, not, map, filter, length};
ghost use Rattle.volume_model.specs.declared.rule.VtocRule.TheVariants as rules;
ghost use Rattle.volume_model.specs.Dscbs.{extent_at as extent_in};
ghost use Rattle.volume_model.specs.Space.{is_run as is_run_in, run_of as run_in, runs_of as runs_in};
ghost use Rattle.volume_model.specs.Check.{breach, later_ones, track_0, any_overlap, overlap_within, IsLowestOf, records_of, bad_overlaps};
ghost use Rattle.vtoc_check.specs.Places.{AreInOrder};
ghost use Rattle.vtoc_check.specs.Sized.{IsSized};
ghost use Rattle.vtoc_check.specs.Tracks.{AreTracksOf, HasTracks};

use crate::dscb::{extent_at, is_run, offsets_of, run_of};
use crate::space::TRACK_0;
use crate::tracks::{mark_runs, tracks_of};
use ckd_image::NoMemory;
use free_map::Run;
use std::alloc::Global;
use volume_model::{Breach, ExtentField, Format, Placed, Vtoc, VtocRule};

/// Adds the tracks of an extent, where it is a run below the end of the volume.
fn add_run(runs: &mut Vec<Run>, extent: ExtentField, heads: u32, limit: u32) -> Result<(), NoMemory>
    ensures { OnOk result (runs.new.items ≡ runs.old.items
        ++ map (run_in heads) (filter (is_run_in heads limit) (filter (λ extent. not (extent.kind == 0)) (extent ∷ [])))) }
{
    if extent.kind == 0 {
        return Ok(());
    }
    if !is_run(extent, heads, limit) {
        return Ok(());
    }
    runs.push(run_of(extent, heads, limit))?;
    Ok(())
}

/// The tracks of the extents at these offsets that are runs below the end of the volume.
fn runs_at(
    alloc: Global,
    bytes: &[u8; 140],
    offsets: &[usize],
    heads: u32,
    limit: u32,
) -> Result<Vec<Run>, NoMemory>
    requires { All (λ offset. offset + 10 ≤ 140) offsets.now }
    ensures { IfOk result (λ runs. runs.items
        ≡ map (run_in heads) (filter (is_run_in heads limit) (filter (λ extent. not (extent.kind == 0)) (map (extent_in bytes.now) offsets.now)))) }
{
    let mut runs = Vec::new(alloc);
    for offset in offsets {
        let extent = extent_at(bytes, *offset);
        add_run(&mut runs, extent, heads, limit)?;
    }
    Ok(runs)
}

/// The tracks of a DSCB's extents that are runs below the end of the volume.
pub fn runs_of(
    alloc: Global,
    bytes: &[u8; 140],
    heads: u32,
    limit: u32,
) -> Result<Vec<Run>, NoMemory>
    ensures { IfOk result (λ runs. runs.items ≡ runs_in heads limit bytes.now) }
{
    runs_at(alloc, bytes, offsets_of(Format::of(bytes)), heads, limit)
}

/// Marks the tracks of a record, and says whether one of them was marked or stands in two of its extents.
fn mark_record(
    alloc: Global,
    marks: &mut [bool],
    placed: &Placed,
    heads: u32,
    limit: u32,
) -> Result<bool, NoMemory>
    requires { length marks.old ≡ limit }
    ensures long { OnOk result (length marks.new ≡ length marks.old) }
    ensures marked { IfOk result (λ hit. hit ≡ false → (others : List Run) → AreTracksOf others marks.old → AreTracksOf (others ++ runs_in heads limit placed.now.bytes) marks.new) }
    ensures hit { IfOk result (λ hit. (others : List Run) → AreTracksOf others marks.old → All HasTracks others
        → hit ≡ (any_overlap (runs_in heads limit placed.now.bytes) others || overlap_within (runs_in heads limit placed.now.bytes))) }
{
    let runs = runs_of(alloc, &placed.bytes, heads, limit)?;
    Ok(mark_runs(marks, &runs))
}

/// The lowest record with a track of the VTOC, of track 0, of an earlier record, or in two of its own extents.
pub fn broken_overlap(
    alloc: Global,
    marks: &mut [bool],
    records: &[Placed],
    heads: u32,
    limit: u32,
    vtoc: Run,
) -> Result<Option<Breach>, NoMemory>
    requires long { length marks.old ≡ limit }
    requires fixed { AreTracksOf (track_0 ∷ vtoc ∷ []) marks.old }
    requires vtoc { HasTracks vtoc }
    requires in_order { AreInOrder records.now }
    ensures { IfOk result (IsLowestOf (map (breach rules.Overlap)
        (filter (λ placed. any_overlap (runs_in heads limit placed.bytes) (track_0 ∷ vtoc ∷ []) || overlap_within (runs_in heads limit placed.bytes)) records.now
        ++ later_ones (λ later earlier. any_overlap (runs_in heads limit later.bytes) (runs_in heads limit earlier.bytes)) records.now))) }
{
    for placed in records {
        if mark_record(alloc, marks, placed, heads, limit)? {
            return Ok(Some(Breach {
                place: placed.place,
                rule: VtocRule::Overlap,
            }));
        }
    }
    Ok(None)
}

/// The lowest record that breaks the rule on overlaps.
pub fn broken_overlaps(
    alloc: Global,
    vtoc: &Vtoc,
    records: &[Placed],
) -> Result<Option<Breach>, NoMemory>
    requires records { records.now ≡ records_of vtoc.now }
    requires in_order { AreInOrder records.now }
    requires sized { IsSized vtoc.now }
    ensures { IfOk result (IsLowestOf (bad_overlaps vtoc.now)) }
{
    let fixed = [TRACK_0, vtoc.run];
    let mut marks = tracks_of(alloc, &fixed, vtoc.limit)?;
    broken_overlap(alloc, &mut marks, records, vtoc.heads, vtoc.limit, vtoc.run)
}
