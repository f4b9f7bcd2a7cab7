//! Reading a dump from a reel.

ghost use Rattle.std.specs.Prelude.{◌≡◌, ◌≢◌, ◌≤◌, ◌+◌, length, drop, min, true, IfOk, IfErr, IfSome, IfNone, OnOk};
ghost use Rattle.ckd_image.specs.Device.{slot_of};
ghost use Rattle.dump_fmt.specs.Front.{Front, empty_front, IsFront};
ghost use Rattle.dump_fmt.specs.Head.{IsDumpHead, header_text};
ghost use Rattle.dump_fmt.specs.Text.{IsDumpText};
ghost use Rattle.dasd_pool.specs.Stream.{Takes, EndsOnly};
ghost use Rattle.dump_read.specs.Faults.{why_of, IsHeadFault, IsFaultBehind, IsDumpFault};
ghost use Rattle.dump_read.specs.Feed.{largest_offset};
ghost use Rattle.dump_read.specs.Reader.{IsAhead, IsReading, IsMarked, Gives, GivesNext, IsWhole, IsLabelled, IsLabelFault, HasItsCause, TakesPiece, to_come};
ghost use Rattle.dump_read.specs.Shape.{IsGoing, MayClose};
ghost use Rattle.dump_read.specs.Standing.{StandsAt};
ghost use Rattle.dump_read.specs.Reading.{HeldSuch};
ghost use Rattle.dump_read.specs.Tape.{TapeSeen};

use crate::ending::read_end;
use crate::feed::Feed;
use crate::field::DumpField;
use crate::header::{HeaderStop, read_header};
use crate::labelled::{holds_format_4, label_in};
use crate::mark::Mark;
use crate::part::{PartStop, read_part};
use crate::slot::{SlotStop, read_slot};
use crate::standing::Standing;
use crate::tape::Tape;
use crate::track::{TrackStop, read_track};
use ckd_image::text::tail;
use dump_fmt::{DumpFault, DumpHead, Piece};
use std::alloc::Global;
use std::marker::Model;
use vol_label::Label;

/// A dump that is read piece by piece.
#[derive(Drop)]
pub struct DumpReader {
    alloc: Global,
    head: DumpHead,
    feed: Feed,
    standing: Standing,
}

impl Model for DumpReader {
    ghost use Rattle.dump_fmt.specs.Head.{IsDumpHead};
    ghost use Rattle.dump_read.specs.Reader.{ReaderView};

    ghost Value = { ReaderView };

    ghost view = { λ r. record { head = r.head; feed = r.feed; standing = r.standing } };

    ghost invariant = { λ r. IsDumpHead r.head };
}

impl DumpReader {
    /// What the header says.
    pub fn head(&self) -> DumpHead
        ensures value { result ≡ self.now.head }
        ensures sound { IsDumpHead result }
    {
        self.head
    }

    /// The bytes of the reel that are held beyond the pieces so far.
    pub fn ahead(&self) -> &[u8]
        ensures bytes { result.now ≡ self.now.feed.window }
        ensures few { length result.now ≤ 65536 }
    {
        self.feed.ahead()
    }

    /// Goes back to the first byte of the reel and reads the header.
    pub fn start<R: Tape>(alloc: Global, reel: &mut R) -> Result<DumpReader, DumpFault>
        ensures read { IfOk result (λ reader. IsReading (R.seen reel.new) reader empty_front) }
        // Of what the reel holds, all but the header is to come.
        ensures taken { IfOk result (λ reader. Takes (R.seen reel.new).held (to_come (R.seen reel.new) reader) (header_text reader.head)) }
        ensures refused { IfErr result (IsHeadFault (R.seen reel.new).held) }
        ensures same { (R.seen reel.new).held ≡ (R.seen reel.old).held }
        ensures later { (R.seen reel.old).faults ≤ (R.seen reel.new).faults }
        ensures cause { IfErr result (HasItsCause (R.seen reel.old) (R.seen reel.new)) }
    {
        reel.restart()?;
        let mut feed = Feed::new(alloc)?;
        let mut text = [0; 32];
        let count = feed.fetch(reel, &mut text)?;
        match read_header(&text[..count]) {
            Ok(head) => Ok(DumpReader {
                alloc,
                head,
                feed,
                standing: Standing::new(),
            }),
            Err(HeaderStop::Wrong(field)) => Err(DumpFault::BadDump(field.offset(), field.why())),
            Err(HeaderStop::Cut) => Err(DumpFault::Truncated(count as u64)),
        }
    }

    /// The refusal of a field so many bytes behind the pieces so far.
    fn wrong(&self, field: DumpField, place: u64) -> DumpFault
        ensures { result ≡ DumpFault.BadDump (min (self.now.feed.offset + place) largest_offset) (why_of field) }
    {
        DumpFault::BadDump(self.feed.offset.saturating_add(place), field.why())
    }

    /// The refusal where the reel ends with the bytes that stand ahead.
    fn cut(&self) -> DumpFault
        ensures { result ≡ DumpFault.Truncated (min (self.now.feed.offset + length self.now.feed.window) largest_offset) }
    {
        let ahead = self.ahead().len() as u64;
        DumpFault::Truncated(self.feed.offset.saturating_add(ahead))
    }

    /// The bytes that stand behind a mark.
    fn behind(&self) -> &[u8]
        requires { 1 ≤ length self.now.feed.window }
        ensures { result.now ≡ drop 1 self.now.feed.window }
    {
        tail(self.ahead(), 1)
    }

    /// What stands next.
    fn mark<R: Tape>(&mut self, reel: &mut R) -> Result<Mark, DumpFault>
        ensures ahead { IfOk result (IsAhead self.new) }
        ensures marked { IfOk result (λ mark. (front : Front) → IsReading (R.seen reel.old) self.old front → IsMarked (R.seen reel.new) self.new front mark) }
        ensures refused { IfErr result (λ fault. (front : Front) → IsReading (R.seen reel.old) self.old front → IsFaultBehind self.old.head front (R.seen reel.new).held fault) }
        ensures head { self.new.head ≡ self.old.head }
        ensures same { (R.seen reel.new).held ≡ (R.seen reel.old).held }
        ensures later { (R.seen reel.old).faults ≤ (R.seen reel.new).faults }
        ensures cause { IfErr result (HasItsCause (R.seen reel.old) (R.seen reel.new)) }
    {
        self.feed.look(reel)?;
        let Some(byte) = self.ahead().first() else {
            return Err(self.cut());
        };
        match Mark::of(*byte) {
            Some(mark) if self.standing.allows(self.head, mark) => Ok(mark),
            _ => Err(self.wrong(DumpField::Mark, 0)),
        }
    }

    /// A data set begins.
    fn part(&mut self) -> Result<Piece, DumpFault>
        requires { IsAhead self.old Mark.Part }
        ensures read { IfOk result (λ piece. (tape : TapeSeen) (front : Front) → IsMarked tape self.old front Mark.Part → Gives tape self.new front piece) }
        ensures refused { IfErr result (λ fault. (tape : TapeSeen) (front : Front) → IsMarked tape self.old front Mark.Part → IsFaultBehind self.old.head front tape.held fault) }
        ensures no_reel { IfErr result (λ fault. fault ≢ DumpFault.Reel) }
        ensures head { self.new.head ≡ self.old.head }
    {
        let bytes = self.behind();
        let count = bytes.len().min(145);
        match read_part(&bytes[..count], self.standing.name.as_ref()) {
            Ok(part) => {
                let mut name = [0; 44];
                name.copy_from_slice(&part.f1[..44]);
                self.standing.begin(name, part.tracks);
                self.feed.pass(146);
                Ok(Piece::Part {
                    f1: part.f1,
                    tracks: part.tracks,
                    kind: part.kind,
                })
            }
            Err(PartStop::Wrong(field)) => Err(self.wrong(
                DumpField::Part(field),
                1 + field.place(),
            )),
            Err(PartStop::Cut) => Err(self.cut()),
        }
    }

    /// It has a track more.
    fn track(&mut self) -> Result<Piece, DumpFault>
        requires { IsAhead self.old Mark.Track }
        ensures read { IfOk result (λ piece. (tape : TapeSeen) (front : Front) → IsMarked tape self.old front Mark.Track → Gives tape self.new front piece) }
        ensures refused { IfErr result (λ fault. (tape : TapeSeen) (front : Front) → IsMarked tape self.old front Mark.Track → IsFaultBehind self.old.head front tape.held fault) }
        ensures no_reel { IfErr result (λ fault. fault ≢ DumpFault.Reel) }
        ensures head { self.new.head ≡ self.old.head }
    {
        match read_track(self.alloc, self.head.device, self.behind()) {
            Ok((track, count)) => {
                self.standing.count_track();
                self.feed.pass(count + 1);
                Ok(Piece::Track(track))
            }
            Err(TrackStop::Wrong(field, place)) => {
                Err(self.wrong(DumpField::Track(field), 1 + place as u64))
            }
            Err(TrackStop::Cut) => Err(self.cut()),
            Err(TrackStop::NoMemory) => Err(DumpFault::NoMemory),
        }
    }

    /// It ends with all of its tracks.
    fn part_end(&mut self) -> Piece
        requires { IsAhead self.old Mark.PartEnd }
        ensures read { (tape : TapeSeen) (front : Front) → IsMarked tape self.old front Mark.PartEnd → Gives tape self.new front result }
        ensures head { self.new.head ≡ self.old.head }
    {
        self.standing.end_part();
        self.feed.pass(1);
        Piece::PartEnd
    }

    /// It ends before that.
    fn dropped(&mut self) -> Piece
        requires { IsAhead self.old Mark.Dropped }
        ensures read { (tape : TapeSeen) (front : Front) → IsMarked tape self.old front Mark.Dropped → Gives tape self.new front result }
        ensures head { self.new.head ≡ self.old.head }
    {
        self.standing.drop_part();
        self.feed.pass(1);
        Piece::Dropped
    }

    /// The label of a dump whose next slot has these bytes: in that of track 0 one has to stand that names the track of the header, and in that track's the format 4.
    fn label_for(&self, bytes: &[u8]) -> Result<Option<Label>, DumpFault>
        requires { length bytes.now ≤ slot_of self.now.head.device }
        ensures found { IfOk result (λ label. (front : Front) → self.now.head.full ≡ true → IsGoing self.now.head front → StandsAt self.now.head front self.now.standing → IsFront self.now.head front
            → IsLabelled self.now.head front bytes.now label) }
        ensures refused { IfErr result (λ fault. (front : Front) → IsGoing self.now.head front → StandsAt self.now.head front self.now.standing → IsFront self.now.head front
            → IsLabelFault self.now.head front self.now.feed bytes.now fault) }
        ensures no_reel { IfErr result (λ fault. fault ≢ DumpFault.Reel) }
    {
        let number = self.standing.slots;
        if number == 0 {
            return match label_in(self.alloc, self.head, bytes)? {
                Some(label) => Ok(Some(label)),
                None => Err(self.lacks_record()),
            };
        }
        match self.standing.label {
            Some(label) if number == self.head.vtoc => {
                if !holds_format_4(self.alloc, self.head, label, bytes)? {
                    return Err(self.lacks_record());
                }
                Ok(None)
            }
            _ => Ok(None),
        }
    }

    /// The refusal of a slot whose track lacks a record that it has to have.
    fn lacks_record(&self) -> DumpFault
        ensures { result ≡ DumpFault.BadDump self.now.feed.offset 9 }
    {
        DumpFault::BadDump(self.feed.offset, 9)
    }

    /// A slot more stands there.
    fn slot(&mut self) -> Result<Piece, DumpFault>
        requires { IsAhead self.old Mark.Slot }
        ensures read { IfOk result (λ piece. (tape : TapeSeen) (front : Front) → IsMarked tape self.old front Mark.Slot → Gives tape self.new front piece) }
        ensures refused { IfErr result (λ fault. (tape : TapeSeen) (front : Front) → IsMarked tape self.old front Mark.Slot → IsFaultBehind self.old.head front tape.held fault) }
        ensures no_reel { IfErr result (λ fault. fault ≢ DumpFault.Reel) }
        ensures head { self.new.head ≡ self.old.head }
    {
        let track = self.standing.slots;
        let bytes = match read_slot(self.alloc, self.head.device, track, self.behind()) {
            Ok(bytes) => bytes,
            Err(SlotStop::Wrong(field)) => {
                return Err(self.wrong(DumpField::Slot(field), 1 + field.place()));
            }
            Err(SlotStop::Cut) => return Err(self.cut()),
            Err(SlotStop::NoMemory) => return Err(DumpFault::NoMemory),
        };
        let label = self.label_for(bytes.as_slice())?;
        self.standing.add_slot(label);
        self.feed.pass(bytes.len() + 9);
        Ok(Piece::Slot { track, bytes })
    }

    /// The dump ends with counts, digest and reel.
    fn end<R: Tape>(&mut self, reel: &mut R) -> Result<(), DumpFault>
        requires { IsAhead self.old Mark.Trailer }
        ensures whole { OnOk result ((front : Front) → IsMarked (R.seen reel.old) self.old front Mark.Trailer → IsWhole (R.seen reel.new) self.new front) }
        ensures none { OnOk result (EndsOnly (to_come (R.seen reel.new) self.new)) }
        ensures refused { IfErr result (λ fault. (front : Front) → IsMarked (R.seen reel.old) self.old front Mark.Trailer → IsFaultBehind self.old.head front (R.seen reel.new).held fault) }
        ensures head { self.new.head ≡ self.old.head }
        ensures same { (R.seen reel.new).held ≡ (R.seen reel.old).held }
        ensures later { (R.seen reel.old).faults ≤ (R.seen reel.new).faults }
        ensures cause { IfErr result (HasItsCause (R.seen reel.old) (R.seen reel.new)) }
    {
        self.feed.pass(1);
        let Standing { parts, tracks, .. } = self.standing;
        read_end(&mut self.feed, reel, parts, tracks)
    }

    /// Reads what was marked.
    fn piece(&mut self, mark: Mark) -> Result<Option<Piece>, DumpFault>
        requires { IsAhead self.old mark }
        ensures read { IfOk result (λ found. IfSome found (λ piece. (tape : TapeSeen) (front : Front) → IsMarked tape self.old front mark → Gives tape self.new front piece)) }
        ensures none { IfOk result (λ found. IfNone found ((mark ≡ Mark.Trailer) × (self.new ≡ self.old))) }
        ensures refused { IfErr result (λ fault. (tape : TapeSeen) (front : Front) → IsMarked tape self.old front mark → IsFaultBehind self.old.head front tape.held fault) }
        ensures no_reel { IfErr result (λ fault. fault ≢ DumpFault.Reel) }
        ensures head { self.new.head ≡ self.old.head }
    {
        match mark {
            Mark::Part => Ok(Some(self.part()?)),
            Mark::Track => Ok(Some(self.track()?)),
            Mark::PartEnd => Ok(Some(self.part_end())),
            Mark::Dropped => Ok(Some(self.dropped())),
            Mark::Slot => Ok(Some(self.slot()?)),
            Mark::Trailer => Ok(None),
        }
    }

    /// Reads the next piece, or none where the dump has ended and is whole. The reel is the one of `start`, as the last call left it.
    /// It reads ahead of the piece: what is held of that then is `ahead`.
    pub fn next<R: Tape>(&mut self, reel: &mut R) -> Result<Option<Piece>, DumpFault>
        ensures read { IfOk result (λ found. (front : Front) → IsReading (R.seen reel.old) self.old front → GivesNext (R.seen reel.new) self.new front found) }
        // Nothing is skipped, and nothing read twice.
        ensures taken { IfOk result (λ found. (front : Front) → IsReading (R.seen reel.old) self.old front
            → TakesPiece (to_come (R.seen reel.old) self.old) (to_come (R.seen reel.new) self.new) self.old.head front found) }
        // It has ended only where no part is under way, and where a full one has each track.
        ensures closes { IfOk result (λ found. IfNone found ((front : Front) → IsReading (R.seen reel.old) self.old front → MayClose self.old.head front)) }
        ensures refused { IfErr result (λ fault. (front : Front) → IsReading (R.seen reel.old) self.old front → IsFaultBehind self.old.head front (R.seen reel.new).held fault) }
        ensures head { self.new.head ≡ self.old.head }
        ensures same { (R.seen reel.new).held ≡ (R.seen reel.old).held }
        ensures later { (R.seen reel.old).faults ≤ (R.seen reel.new).faults }
        ensures cause { IfErr result (HasItsCause (R.seen reel.old) (R.seen reel.new)) }
    {
        let mark = self.mark(reel)?;
        let Some(piece) = self.piece(mark)? else {
            self.end(reel)?;
            return Ok(None);
        };
        Ok(Some(piece))
    }

    /// Reads the whole dump that a reel holds, and says what its header does. No piece is kept.
    pub fn check<R: Tape>(alloc: Global, reel: &mut R) -> Result<DumpHead, DumpFault>
        ensures whole { IfOk result (λ head. HeldSuch (R.seen reel.new).held (λ whole. (front : Front) × IsDumpText whole head front)) }
        ensures refused { IfErr result (IsDumpFault (R.seen reel.new).held) }
        ensures same { (R.seen reel.new).held ≡ (R.seen reel.old).held }
        ensures later { (R.seen reel.old).faults ≤ (R.seen reel.new).faults }
        ensures cause { IfErr result (HasItsCause (R.seen reel.old) (R.seen reel.new)) }
    {
        let mut reader = DumpReader::start(alloc, reel)?;
        'pieces: while reader.next(reel)?.is_some() {}
        Ok(reader.head)
    }
}
