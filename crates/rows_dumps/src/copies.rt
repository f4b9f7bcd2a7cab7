//! Tests: dumps that are read piece by piece and written again.

ghost use Rattle.std.specs.Prelude.{◌≡◌};
ghost use Rattle.dump_fmt.specs.declared.outs.OutState.TheVariants.{Unused};

use crate::copied::copy_dump;
use crate::full::full_text;
use crate::outputs::{file_out, memory_out};
use crate::texts::{EMPTY, dropped_text, one_part_text};
use ckd_image::Bytes;
use dasd_pool::MemoryReel;
use dump_fmt::{OutDd, OutState};
use std::test::*;
use std::{env, fs};

/// What becomes of an output to which a text is copied, if that ends.
fn state_of(rt: &HostRuntime, text: &[u8], out: OutDd) -> Result<Option<OutState>, Fail>
    requires { out.state ≡ Unused }
{
    let mut outs = Vec::new(rt.alloc());
    outs.push(out)?;
    let text = Bytes::from_slice(rt.alloc(), text)?;
    let mut reel = MemoryReel::new(text, Vec::new(rt.alloc()));
    match copy_dump(rt.alloc(), &mut reel, outs) {
        Ok(outs) => Ok(outs.first().map(|out| out.state)),
        Err(_fault) => Ok(None),
    }
}

/// Whether a copy of a text to a file is whole, and the same to the byte.
fn is_copied(rt: &HostRuntime, path: &str, text: &[u8]) -> Result<bool, Fail> {
    let state = state_of(rt, text, file_out(rt, path)?)?;
    Ok(state == Some(OutState::Whole) && fs::read(rt, path)?.as_slice() == text)
}

#[test]
fn dumps_are_copied_to_the_byte(rt: HostRuntime) -> Result<(), Fail> {
    let path = env::temp_dir(&rt)?.join(rt.alloc(), "rows_dumps_copies")?;
    assert!(rt; is_copied(&rt, path.as_str(), &EMPTY)?);
    assert!(rt; is_copied(&rt, path.as_str(), &one_part_text(rt.alloc())?)?);
    assert!(rt; is_copied(&rt, path.as_str(), &dropped_text(rt.alloc())?)?);
    assert!(rt; is_copied(&rt, path.as_str(), full_text(rt.alloc())?.as_slice())?);
    fs::remove_file(&rt, &path)?;
    Ok(())
}

/// The room of the output of a dump of 316 bytes, which of its calls fail, and what becomes of it.
static OUTPUTS: [(u32, &[u64], OutState); 4] = [
    (316, &[], OutState::Whole),
    (315, &[], OutState::Lost),
    (316, &[2], OutState::Lost),
    (316, &[5], OutState::Lost),
];

/// The room of the first output that becomes something else.
fn first_other(rt: &HostRuntime, text: &[u8]) -> Result<Option<u32>, Fail> {
    for &(room, failing, state) in &OUTPUTS {
        if state_of(rt, text, memory_out(rt, room, failing)?)? != Some(state) {
            return Ok(Some(room));
        }
    }
    Ok(None)
}

#[test]
fn an_output_may_be_lost_within_a_part(rt: HostRuntime) -> Result<(), Fail> {
    let text = one_part_text(rt.alloc())?;
    assert_eq!(rt; first_other(&rt, &text)?, None);
    Ok(())
}
