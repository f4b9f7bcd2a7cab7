//! Copies of runs.

ghost use Rattle.std.specs.Prelude.{◌≡◌, IfOk};

use ckd_image::{Listed, NoMemory};
use free_map::{Run, Runs};
use std::alloc::Global;

/// A copy of runs.
pub fn same_runs(alloc: Global, runs: &[Run]) -> Result<Runs, NoMemory>
    ensures { IfOk result (λ copy. copy ≡ runs.now) }
{
    let mut copy = Vec::new(alloc);
    copy.extend_from_slice(runs)?;
    Ok(Listed::from_vec(copy))
}
