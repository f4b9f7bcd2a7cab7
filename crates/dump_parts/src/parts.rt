//! The parts of a dump, piece by piece.

ghost use Rattle.std.specs.Prelude.{◌≡◌, ◌≤◌, IfOk, IfErr};
ghost use Rattle.dump_fmt.specs.Front.{Front};
ghost use Rattle.dump_fmt.specs.Parts.{DumpPart};
ghost use Rattle.dump_read.specs.Faults.{IsDumpFault};
ghost use Rattle.dump_read.specs.Reader.{HasItsCause};
ghost use Rattle.dump_parts.specs.Reading.{EndsPart, GivesPart, GivesTrack, HasPart, IsBetween, IsSoundOn, IsWithin, MayGoOn};

use ckd_image::Track;
use dump_fmt::{DumpFault, Piece};
use dump_read::{DumpReader, Tape};

/// What a part says before its tracks: the format-1 DSCB of its data set, how many tracks that has, and the type of its extents, X'81' for whole cylinders and
/// else X'01'.
#[derive(Clone, Copy, Debug, PartialEq, Eq)]
pub struct PartHead {
    pub f1: [u8; 140],
    pub tracks: u32,
    pub kind: u8,
}

/// What stands next in a part.
#[derive(Debug, Drop)]
pub enum NextTrack {
    Track(Track),
    /// It has ended, with all of its tracks.
    Whole,
    /// It has ended before that.
    Dropped,
}

/// The next part of a logical dump, or none where the dump has ended and is whole.
pub fn next_part<R: Tape>(
    reader: &mut DumpReader,
    reel: &mut R,
) -> Result<Option<PartHead>, DumpFault>
    requires { MayGoOn (R.seen reel.old) reader.old }
    ensures part { IfOk result (λ found. (front : Front) → IsBetween (R.seen reel.old) reader.old front → GivesPart (R.seen reel.new) reader.new front found) }
    ensures refused { IfErr result (IsDumpFault (R.seen reel.new).held) }
    ensures head { reader.new.head ≡ reader.old.head }
    ensures same { (R.seen reel.new).held ≡ (R.seen reel.old).held }
    ensures later { (R.seen reel.old).faults ≤ (R.seen reel.new).faults }
    ensures cause { IfErr result (HasItsCause (R.seen reel.old) (R.seen reel.new)) }
{
    match reader.next(reel)? {
        Some(Piece::Part { f1, tracks, kind }) => Ok(Some(PartHead { f1, tracks, kind })),
        Some(_) => unreachable!(),
        None => Ok(None),
    }
}

/// The next track of a part, or how the part ended.
pub fn next_track<R: Tape>(reader: &mut DumpReader, reel: &mut R) -> Result<NextTrack, DumpFault>
    requires { HasPart (R.seen reel.old) reader.old }
    ensures next { IfOk result (λ next. (front : Front) (part : DumpPart) → IsWithin (R.seen reel.old) reader.old front part → GivesTrack (R.seen reel.new) reader.new front part next) }
    ensures sound { IfOk result (IsSoundOn reader.old.head.device) }
    ensures refused { IfErr result (IsDumpFault (R.seen reel.new).held) }
    ensures head { reader.new.head ≡ reader.old.head }
    ensures same { (R.seen reel.new).held ≡ (R.seen reel.old).held }
    ensures later { (R.seen reel.old).faults ≤ (R.seen reel.new).faults }
    ensures cause { IfErr result (HasItsCause (R.seen reel.old) (R.seen reel.new)) }
{
    match reader.next(reel)? {
        Some(Piece::Track(track)) => Ok(NextTrack::Track(track)),
        Some(Piece::PartEnd) => Ok(NextTrack::Whole),
        Some(Piece::Dropped) => Ok(NextTrack::Dropped),
        Some(Piece::Part { .. }) => unreachable!(),
        Some(Piece::Slot { .. }) => unreachable!(),
        None => unreachable!(),
    }
}

/// Passes over what is left of a part, and says whether it is whole.
pub fn pass_part<R: Tape>(reader: &mut DumpReader, reel: &mut R) -> Result<bool, DumpFault>
    requires { HasPart (R.seen reel.old) reader.old }
    ensures ended { IfOk result (λ whole. (front : Front) (part : DumpPart) → IsWithin (R.seen reel.old) reader.old front part → EndsPart (R.seen reel.new) reader.new front part whole) }
    ensures refused { IfErr result (IsDumpFault (R.seen reel.new).held) }
    ensures head { reader.new.head ≡ reader.old.head }
    ensures same { (R.seen reel.new).held ≡ (R.seen reel.old).held }
    ensures later { (R.seen reel.old).faults ≤ (R.seen reel.new).faults }
    ensures cause { IfErr result (HasItsCause (R.seen reel.old) (R.seen reel.new)) }
{
    'tracks: loop {
        match next_track(reader, reel)? {
            NextTrack::Track(_) => {}
            NextTrack::Whole => return Ok(true),
            NextTrack::Dropped => return Ok(false),
        }
    }
}
