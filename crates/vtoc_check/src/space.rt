//! The extents and the stated free runs of a VTOC, and how many tracks are usable.

ghost use Rattle.std.specs.Prelude.{◌≡◌, ◌≤◌, ◌<◌, ◌+◌, ◌∷◌, ◌++◌, ◌^◌, [], nat_lt, max, fold, filter, All, IfOk, OnOk, true, ◌-◌, ◌*◌};
ghost use Rattle.volume_model.specs.Space.{end_of, entry_at as entry_in, entries_of as entries_in, all_extents as extents_in, all_entries as entries_of_all, usable_of as usable_in};
ghost use Rattle.ckd_image.specs.Device.{ceil_div};

use crate::dscb::number_at;
use crate::five_rule::is_format_5;
use crate::overlaps::runs_of;
use ckd_image::NoMemory;
use dscb_rec::entry_offset;
use free_map::Run;
use std::alloc::Global;
use volume_model::{Placed, Vtoc};

/// Track 0, which holds the label.
pub(crate) const TRACK_0: Run = Run { first: 0, len: 1 };

/// An entry of a format 5.
fn entry(bytes: &[u8; 140], offset: usize, heads: u32) -> Run
    requires offset { offset + 5 ≤ 140 }
    requires heads { heads ≤ 255 }
    ensures { result ≡ entry_in heads bytes.now offset }
{
    Run {
        first: u32::from(number_at(bytes, offset)),
        len: u32::from(number_at(bytes, offset + 2)) * heads + u32::from(bytes[offset + 4]),
    }
}

/// Adds an entry, unless it is empty.
fn add_entry(runs: &mut Vec<Run>, run: Run) -> Result<(), NoMemory>
    ensures { OnOk result (runs.new.items ≡ runs.old.items ++ filter (λ entry. nat_lt 0 entry.len) (run ∷ [])) }
{
    if run.len == 0 {
        return Ok(());
    }
    runs.push(run)?;
    Ok(())
}

/// Adds the entries of a format 5, without empty ones.
fn add_entries(runs: &mut Vec<Run>, bytes: &[u8; 140], heads: u32) -> Result<(), NoMemory>
    requires { heads ≤ 255 }
    ensures { OnOk result (runs.new.items ≡ runs.old.items ++ entries_in heads bytes.now) }
{
    for place in 0..26 {
        let run = entry(bytes, entry_offset(place), heads);
        add_entry(runs, run)?;
    }
    Ok(())
}

/// Adds the entries of a record, where it is a format 5.
fn add_stated(runs: &mut Vec<Run>, placed: &Placed, heads: u32) -> Result<(), NoMemory>
    requires { heads ≤ 255 }
    ensures { OnOk result (runs.new.items ≡ runs.old.items ++ entries_of_all heads (placed.now ∷ [])) }
{
    if !is_format_5(placed) {
        return Ok(());
    }
    add_entries(runs, &placed.bytes, heads)
}

/// The entries of all format 5s.
pub fn all_entries(alloc: Global, records: &[Placed], heads: u32) -> Result<Vec<Run>, NoMemory>
    requires { heads ≤ 255 }
    ensures { IfOk result (λ runs. runs.items ≡ entries_of_all heads records.now) }
{
    let mut runs = Vec::new(alloc);
    for placed in records {
        add_stated(&mut runs, placed, heads)?;
    }
    Ok(runs)
}

/// The tracks of all extents that are runs below the end of the volume.
pub fn all_extents(
    alloc: Global,
    records: &[Placed],
    heads: u32,
    limit: u32,
) -> Result<Vec<Run>, NoMemory>
    ensures { IfOk result (λ runs. runs.items ≡ extents_in heads limit records.now) }
{
    let mut runs = Vec::new(alloc);
    for placed in records {
        let own = runs_of(alloc, &placed.bytes, heads, limit)?;
        runs.extend_from_slice(&own)?;
    }
    Ok(runs)
}

/// The greatest of an end and the ends of runs.
fn greatest_end(end: u32, runs: &[Run]) -> u32
    requires { All (λ run. end_of run < 2 ^ 32) runs.now }
    ensures { result ≡ fold (λ end run. max end (end_of run)) end runs.now }
{
    let mut end = end;
    for run in runs {
        end = end.max(run.end());
    }
    end
}

/// The tracks of a volume without its alternate tracks, in whole cylinders.
fn without_alternates(heads: u32, limit: u32, alternates: u32) -> u32
    requires some { 1 ≤ heads }
    requires small { heads ≤ 255 }
    requires alternates { alternates ≤ 65535 }
    ensures { result ≡ limit - heads * ceil_div alternates heads }
{
    limit.saturating_sub(heads * ((alternates + (heads - 1)) / heads))
}

/// How many tracks are usable.
pub fn usable_tracks(vtoc: &Vtoc, extents: &[Run], entries: &[Run]) -> u32
    requires heads { (1 ≤ vtoc.now.heads) × (vtoc.now.heads ≤ 255) }
    requires alternates { vtoc.now.alternates ≤ 65535 }
    requires run { end_of vtoc.now.run < 2 ^ 32 }
    requires extents { All (λ run. end_of run < 2 ^ 32) extents.now }
    requires entries { vtoc.now.valid ≡ true → All (λ run. end_of run < 2 ^ 32) entries.now }
    ensures { result ≡ usable_in vtoc.now.valid vtoc.now.heads vtoc.now.limit vtoc.now.alternates vtoc.now.run extents.now entries.now }
{
    let used = greatest_end(vtoc.run.end().max(1), extents);
    if vtoc.valid {
        return greatest_end(used, entries);
    }
    used.max(without_alternates(vtoc.heads, vtoc.limit, vtoc.alternates))
}
