//! The blocks up to an end of file.

ghost use Rattle.std.specs.Prelude.{◌++◌, IfOk};
ghost use Rattle.org_reloc.specs.Content.{records_of, Hold, TakesOver};

use crate::block::{Block, is_end};
use ckd_image::{Listed, NoMemory, Rec, Track};
use std::alloc::Global;

/// Blocks, and whether an end of file stood behind them.
#[derive(Debug, Drop)]
pub struct Run {
    pub blocks: Listed<Block>,
    pub ended: bool,
}

/// The blocks of tracks, up to the first end of file.
pub fn run_of(alloc: Global, tracks: &[Track]) -> Result<Run, NoMemory>
    ensures { IfOk result (λ run. Hold (records_of tracks.now) run.blocks run.ended) }
{
    let mut blocks = Listed::new(alloc);
    let ended = push_blocks(alloc, &mut blocks, &[], tracks)?;
    Ok(Run { blocks, ended })
}

/// Takes over the blocks of records and of the tracks behind them, up to the first end of file, and says whether there is one.
pub fn push_blocks(
    alloc: Global,
    blocks: &mut Listed<Block>,
    recs: &[Rec],
    tracks: &[Track],
) -> Result<bool, NoMemory>
    ensures { IfOk result (TakesOver (recs.now ++ records_of tracks.now) blocks.old blocks.new) }
{
    if push_run(alloc, blocks, recs)? {
        return Ok(true);
    }
    for track in tracks {
        let ended = push_run(alloc, blocks, track.recs.as_slice())?;
        if ended {
            return Ok(ended);
        }
    }
    Ok(false)
}

/// Takes over the blocks up to the first end of file, and says whether there is one.
fn push_run(alloc: Global, blocks: &mut Listed<Block>, recs: &[Rec]) -> Result<bool, NoMemory>
    ensures { IfOk result (λ ended. TakesOver recs.now blocks.old blocks.new ended) }
{
    for rec in recs {
        if is_end(rec) {
            return Ok(true);
        }
        blocks.push(Block::copy_of(alloc, rec)?)?;
    }
    Ok(false)
}
