//! A dump that goes from a reel to outputs, piece by piece.

ghost use Rattle.std.specs.Prelude.{◌≡◌, [], ◌∷◌, map, is_some, Option, IfOk};
ghost use Rattle.dump_fmt.specs.declared.outs.OutState.TheVariants.{Unused, Whole};
ghost use Rattle.dump_fmt.specs.declared.piece.Piece.{Piece as Given};
ghost use Rattle.dump_fmt.specs.Front.{Front};
ghost use Rattle.dump_fmt.specs.Writing.{IsWritten};
ghost use Rattle.dump_read.specs.Reader.{IsReading, GivesNext};
ghost use Rattle.dump_read.specs.Reading.{HeldSuch};
ghost use Rattle.rows_dumps.specs.Copied.{IsCopied, CopiesNext};

use dasd_pool::MemoryReel;
use dump_fmt::{DumpFault, DumpWriter, OutDd, Seen};
use dump_read::{DumpReader, Tape};
use std::alloc::Global;

/// Puts the next piece of the reel on the outputs, and says whether there was one.
fn copy_piece(
    reader: &mut DumpReader,
    reel: &mut MemoryReel,
    writer: &mut DumpWriter,
) -> Result<bool, DumpFault>
    requires { (before : _) × IsCopied ⟦<OutDd as Seen>⟧.seen before (⟦<MemoryReel as Tape>⟧.seen reel.old) reader.old writer.old.progress writer.old.outs.items }
    ensures read { IfOk result (λ more. (found : Option Given) × (is_some found ≡ more) × ((front : Front) → IsReading (⟦<MemoryReel as Tape>⟧.seen reel.old) reader.old front
        → GivesNext (⟦<MemoryReel as Tape>⟧.seen reel.new) reader.new front found)) }
    ensures copied { IfOk result (λ more. (before : _) → IsCopied ⟦<OutDd as Seen>⟧.seen before (⟦<MemoryReel as Tape>⟧.seen reel.old) reader.old writer.old.progress writer.old.outs.items
        → CopiesNext ⟦<OutDd as Seen>⟧.seen before (⟦<MemoryReel as Tape>⟧.seen reel.new) reader.new writer.new.progress writer.new.outs.items more) }
    ensures places { writer.new.progress.places.items ≡ writer.old.progress.places.items }
    ensures same { (⟦<MemoryReel as Tape>⟧.seen reel.new).held ≡ (⟦<MemoryReel as Tape>⟧.seen reel.old).held }
{
    let Some(piece) = reader.next(reel)? else {
        return Ok(false);
    };
    writer.put(&piece)?;
    Ok(true)
}

/// Copies the dump that a reel holds to an output.
pub fn copy_dump(
    alloc: Global,
    reel: &mut MemoryReel,
    outs: Vec<OutDd>,
) -> Result<Vec<OutDd>, DumpFault>
    requires unused { map (λ out. out.state) outs.items ≡ Unused ∷ [] }
    ensures whole { IfOk result (λ done. HeldSuch (⟦<MemoryReel as Tape>⟧.seen reel.new).held (λ text. IsWritten ⟦<OutDd as Seen>⟧.seen Whole text (0 ∷ []) outs.items done.items)) }
    ensures same { (⟦<MemoryReel as Tape>⟧.seen reel.new).held ≡ (⟦<MemoryReel as Tape>⟧.seen reel.old).held }
{
    let mut reader = DumpReader::start(alloc, reel)?;
    let Ok(mut writer) = DumpWriter::start(alloc, outs, &[0], reader.head()) else {
        return Err(DumpFault::NoMemory);
    };
    'pieces: while copy_piece(&mut reader, reel, &mut writer)? {}
    Ok(writer.end())
}
