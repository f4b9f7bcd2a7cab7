//! What free runs come to: their entries, and how far they are in pieces.

ghost use Rattle.std.specs.Prelude.{◌≡◌, ◌+◌, ◌<◌, ◌≤◌, All, IfOk, map};
ghost use Rattle.dscb_rec.specs.Field.{IsEntry5};
ghost use Rattle.free_map.specs.Free.{count_of, longest_of, index_of};
ghost use Rattle.free_map.specs.Entries.{entry_of};

use crate::run::Run;
use ckd_image::NoMemory;
use dscb_rec::Entry5;
use std::alloc::Global;

/// How many tracks runs have together.
pub(crate) fn count(runs: &[Run]) -> u32
    requires { count_of runs.now ≤ 65535 }
    ensures { result ≡ count_of runs.now }
{
    runs.iter().map(|run| run.len).sum()
}

/// The length of the longest run, 0 where there is none.
pub(crate) fn longest(runs: &[Run]) -> u32
    ensures { result ≡ longest_of runs.now }
{
    let mut longest = 0;
    for run in runs {
        longest = run.len.max(longest);
    }
    longest
}

pub(crate) fn index(runs: &[Run]) -> u32
    requires { count_of runs.now ≤ 65535 }
    ensures { result ≡ index_of runs.now }
{
    let count = count(runs);
    if count == 0 {
        return 0;
    }
    1000 - 1000 * longest(runs) / count
}

fn entry(run: Run, heads: u32) -> Entry5
    requires some { 1 ≤ heads }
    requires few { heads ≤ 255 }
    requires within { run.first + run.len ≤ 65535 }
    ensures value { result ≡ entry_of heads run }
    ensures fits { IsEntry5 result }
{
    Entry5 {
        first: run.first as u16,
        cylinders: (run.len / heads) as u16,
        tracks: (run.len % heads) as u8,
    }
}

pub(crate) fn entries(alloc: Global, runs: &[Run], heads: u32) -> Result<Vec<Entry5>, NoMemory>
    requires some { 1 ≤ heads }
    requires few { heads ≤ 255 }
    requires within { All (λ run. run.first + run.len ≤ 65535) runs.now }
    ensures value { IfOk result (λ entries. entries.items ≡ map (entry_of heads) runs.now) }
    ensures fits { IfOk result (λ entries. All IsEntry5 entries.items) }
{
    Ok(runs.iter().map(|run| entry(*run, heads)).collect(alloc)?)
}
