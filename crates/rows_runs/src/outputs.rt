//! Outputs of a run, in memory.

use dasd_pool::MemoryMedium;
use rows_base::{DdName, OutDd, OutState, RowsFault};
use std::alloc::Global;

/// The room of an output.
const ROOM_FOR_DUMP: u32 = 8000;

/// The number of a call that no output has.
pub const NEVER: u64 = u64::MAX;

/// One of this name, of which this call fails.
fn memory_out(alloc: Global, name: DdName, failing: u64) -> Result<OutDd, RowsFault> {
    let mut calls = Vec::new(alloc);
    calls.push(failing)?;
    let medium = MemoryMedium::new(alloc, ROOM_FOR_DUMP, calls)?;
    Ok(OutDd {
        name,
        medium: Box::new(alloc, medium)?,
        state: OutState::Unused,
    })
}

/// Outputs of these names, of each of which one call fails, by its number from 0.
pub fn memory_outs(alloc: Global, failing: &[(&str, u64)]) -> Result<Vec<OutDd>, RowsFault> {
    let mut outs = Vec::new(alloc);
    for (name, call) in failing {
        if let Some(name) = DdName::read(name.as_bytes()) {
            outs.push(memory_out(alloc, name, *call)?)?;
        }
    }
    Ok(outs)
}
