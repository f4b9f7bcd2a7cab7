//! Tracks that are used once.

ghost use Rattle.std.specs.Prelude.{◌≡◌, ◌≤◌, ◌<◌, ◌+◌, ◌||◌, ◌^◌, ℕ, List, All, length, true, false, slice_set, slice_index, [], max, replicate, IfOk};
ghost use Rattle.std.specs.List.{list_any};
ghost use Rattle.free_map.specs.declared.run.Run.{Run};
ghost use Rattle.volume_model.specs.Space.{end_of, has_track};
ghost use Rattle.volume_model.specs.Check.{any_overlap, overlap_within};
ghost use Rattle.vtoc_check.specs.Reach.{is_marked};
ghost use Rattle.vtoc_check.specs.Tracks.{AreTracksOf, AreMarkedUpTo, HasTracks, AreEndsOf, AreBeforeEnds};

use ckd_image::NoMemory;
use free_map::Run;
use std::alloc::Global;

fn either(a: bool, b: bool) -> bool
    ensures { result ≡ (a || b) }
{
    a || b
}

/// Marks a track, and says whether it was marked.
fn mark_track(marks: &mut [bool], track: usize) -> bool
    requires { track < length marks.old }
    ensures was { result ≡ is_marked marks.old track }
    ensures now { marks.new ≡ slice_set marks.old track true }
{
    let was = marks[track];
    marks[track] = true;
    was
}

/// Marks the tracks of a run, and says whether one of them was marked.
fn mark_run(marks: &mut [bool], run: Run) -> bool
    requires { end_of run ≤ length marks.old }
    ensures { AreMarkedUpTo run.first (end_of run) marks.old result marks.new }
{
    let first = run.first as usize;
    let end = first + run.len as usize;
    let mut hit = false;
    for track in first..end {
        let was = mark_track(marks, track);
        hit = either(hit, was);
    }
    hit
}

/// The same, but marks nothing more once a marked track was met, so that no track is marked often.
fn mark_next(marks: &mut [bool], run: Run, hit: bool) -> bool
    requires { end_of run ≤ length marks.old }
    ensures long { length marks.new ≡ length marks.old }
    ensures before { hit ≡ true → result ≡ true }
    ensures marked { hit ≡ false → AreMarkedUpTo run.first (end_of run) marks.old result marks.new }
{
    if hit {
        return true;
    }
    mark_run(marks, run)
}

/// Marks the tracks of runs up to the first that has a marked one, and says whether there is such a run.
pub fn mark_runs(marks: &mut [bool], runs: &[Run]) -> bool
    requires within { All (λ run. end_of run ≤ length marks.old) runs.now }
    ensures long { length marks.new ≡ length marks.old }
    ensures marked { result ≡ false → (track : ℕ) → is_marked marks.new track ≡ (is_marked marks.old track || list_any (has_track track) runs.now) }
    ensures hit { (others : List Run) → AreTracksOf others marks.old → All HasTracks others → All HasTracks runs.now
        → result ≡ (any_overlap runs.now others || overlap_within runs.now) }
{
    let mut hit = false;
    for run in runs {
        hit = mark_next(marks, *run, hit);
    }
    hit
}

/// Notes where a run ends that begins at its first track, unless a longer one does.
fn note_end(ends: &mut [u32], run: Run)
    requires first { run.first < length ends.old }
    requires small { end_of run < 2 ^ 32 }
    ensures { ends.new ≡ slice_set ends.old run.first (max (slice_index ends.old run.first) (end_of run)) }
{
    let first = run.first as usize;
    let end = ends[first].max(run.end());
    ends[first] = end;
}

/// Notes where runs end.
fn note_ends(ends: &mut [u32], runs: &[Run])
    requires within { All (λ run. (run.first < length ends.old) × (end_of run < 2 ^ 32)) runs.now }
    requires none { AreEndsOf [] ends.old }
    ensures long { length ends.new ≡ length ends.old }
    ensures ends { AreEndsOf runs.now ends.new }
{
    for run in runs {
        note_end(ends, *run);
    }
}

/// Which tracks lie before an end that is noted at or before them.
fn before_ends(alloc: Global, ends: &[u32]) -> Result<Vec<bool>, NoMemory>
    requires { length ends.now ≤ 65535 }
    ensures { IfOk result (λ marks. AreBeforeEnds ends.now marks.items) }
{
    let mut marks = Vec::new(alloc);
    let mut end = 0;
    for (track, noted) in ends.iter().enumerate() {
        end = end.max(*noted);
        marks.push((track as u32) < end)?;
    }
    Ok(marks)
}

/// So many zeros.
fn zeros(alloc: Global, count: usize) -> Result<Vec<u32>, NoMemory>
    ensures { IfOk result (λ ends. ends.items ≡ replicate count 0) }
{
    Ok(vec![in alloc; 0u32; count]?)
}

/// The tracks of runs, over a list of as many zeros as there are tracks.
fn tracks_by(alloc: Global, ends: &mut [u32], runs: &[Run]) -> Result<Vec<bool>, NoMemory>
    requires small { length ends.old ≤ 65535 }
    requires none { AreEndsOf [] ends.old }
    requires within { All (λ run. end_of run ≤ length ends.old) runs.now }
    requires some { All HasTracks runs.now }
    ensures { IfOk result (λ marks. (length marks.items ≡ length ends.old) × AreTracksOf runs.now marks.items) }
{
    note_ends(ends, runs);
    before_ends(alloc, ends)
}

/// The tracks of runs that end by a limit. Runs may have tracks in common, and no track is looked at often.
pub fn tracks_of(alloc: Global, runs: &[Run], limit: u32) -> Result<Vec<bool>, NoMemory>
    requires limit { limit ≤ 65535 }
    requires within { All (λ run. end_of run ≤ limit) runs.now }
    requires some { All HasTracks runs.now }
    ensures { IfOk result (λ marks. (length marks.items ≡ limit) × AreTracksOf runs.now marks.items) }
{
    let mut ends = zeros(alloc, limit as usize)?;
    tracks_by(alloc, &mut ends, runs)
}
