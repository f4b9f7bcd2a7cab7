//! Tests: a dump without parts, to several outputs of which one may be lost.

ghost use Rattle.std.specs.Prelude.{◌≡◌, [], ◌∷◌, map};
ghost use Rattle.dump_fmt.specs.declared.outs.OutState.TheVariants.{Unused};

use crate::outputs::{file_out, memory_out};
use crate::texts::{EMPTY, head};
use dump_fmt::*;
use std::alloc::Global;
use std::test::*;
use std::{env, fs};

/// A dump without parts to the second and the third of three outputs.
fn empty_dump(alloc: Global, outs: Vec<OutDd>) -> Option<Vec<OutDd>>
    requires { map (λ out. out.state) outs.items ≡ Unused ∷ Unused ∷ Unused ∷ [] }
{
    let head = head()?;
    match DumpWriter::start(alloc, outs, &[2, 1], head) {
        Ok(writer) => Some(writer.end()),
        Err(_stop) => None,
    }
}

fn states_of(outs: &[OutDd]) -> Option<[OutState; 3]> {
    if outs.len() != 3 {
        return None;
    }
    Some([outs[0].state, outs[1].state, outs[2].state])
}

/// What becomes of an output that the dump isn't written to, of one in memory, and of a file.
fn states(
    rt: &HostRuntime,
    path: &str,
    room: u32,
    failing: &[u64],
) -> Result<Option<[OutState; 3]>, Fail> {
    let mut outs = Vec::new(rt.alloc());
    outs.push(memory_out(rt, 73, &[])?)?;
    outs.push(memory_out(rt, room, failing)?)?;
    outs.push(file_out(rt, path)?)?;
    match empty_dump(rt.alloc(), outs) {
        Some(outs) => Ok(states_of(&outs)),
        None => Ok(None),
    }
}

/// The room of the output in memory, which of its calls fail, and what becomes of it.
static OUTPUTS: [(u32, &[u64], OutState); 5] = [
    (73, &[], OutState::Whole),
    (72, &[], OutState::Lost),
    (73, &[0], OutState::Lost),
    (73, &[1], OutState::Lost),
    (73, &[2], OutState::Lost),
];

/// Whether each output becomes what it should, and the file the dump.
fn are_right(rt: &HostRuntime, path: &str) -> Result<bool, Fail> {
    for &(room, failing, state) in &OUTPUTS {
        let found = states(rt, path, room, failing)?;
        if found != Some([OutState::Unused, state, OutState::Whole]) {
            return Ok(false);
        }
        if fs::read(rt, path)?.as_slice() != EMPTY.as_slice() {
            return Ok(false);
        }
    }
    Ok(true)
}

#[test]
fn an_output_that_fails_is_lost_alone(rt: HostRuntime) -> Result<(), Fail> {
    let path = env::temp_dir(&rt)?.join(rt.alloc(), "rows_dumps_writes")?;
    assert!(rt; are_right(&rt, path.as_str())?);
    fs::remove_file(&rt, &path)?;
    Ok(())
}
