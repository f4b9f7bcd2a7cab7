//! Where a dump stands between two pieces.

ghost use Rattle.std.specs.Prelude.{◌≡◌, ◌↔◌, ◌<◌, ℕ, List, take, false, Some, None, IsTrue};
ghost use Rattle.ckd_image.specs.declared.track.Track.{Track as Text};
ghost use Rattle.dump_fmt.specs.declared.piece.DumpHead.{DumpHead as HeadOf};
ghost use Rattle.dump_fmt.specs.declared.piece.Piece.TheVariants as pieces;
ghost use Rattle.dump_fmt.specs.Front.{Front, empty_front};
ghost use Rattle.dump_read.specs.Marks.{byte_of, MayStand};
ghost use Rattle.dump_read.specs.PartText.{IsNextName};
ghost use Rattle.dump_read.specs.Shape.{IsGoing};
ghost use Rattle.dump_read.specs.Standing.{StandsAt, Steps, IsLabelledBy};

use crate::mark::Mark;
use crate::part::is_name_left;
use dump_fmt::DumpHead;
use vol_label::Label;

/// A data set that is read: how many tracks it is to have, and how many it has.
#[derive(Clone, Copy, Debug, PartialEq, Eq)]
pub struct UnderWay {
    pub due: u32,
    pub read: u32,
}

/// What a reader keeps of the pieces so far: the name of the last data set, and how many began; how many parts are whole and how many tracks these have, the
/// slots among them; the data set under way; and of a full dump how many slots there are, and the label in the first.
#[derive(Clone, Copy, Debug, PartialEq, Eq)]
pub struct Standing {
    pub name: Option<[u8; 44]>,
    pub begun: u32,
    pub parts: u32,
    pub tracks: u32,
    pub under_way: Option<UnderWay>,
    pub slots: u32,
    pub label: Option<Label>,
}

impl Standing {
    /// Nothing but the header was read.
    pub fn new() -> Standing
        ensures { (head : HeadOf) → StandsAt head empty_front result }
    {
        Standing {
            name: None,
            begun: 0,
            parts: 0,
            tracks: 0,
            under_way: None,
            slots: 0,
            label: None,
        }
    }

    /// Whether a data set may begin.
    fn may_begin(&self, head: DumpHead) -> bool
        ensures { IsTrue result ↔ ((head.full ≡ false) × (self.now.under_way ≡ None) × (self.now.begun < 4294967295) × ((name : List ℕ) × IsNextName self.now.name name)) }
    {
        !head.full
            && self.under_way.is_none()
            && self.begun < u32::MAX
            && is_name_left(self.name.as_ref())
    }

    /// Whether the trailer may stand next.
    fn may_close(&self, head: DumpHead) -> bool
        ensures { IsTrue result ↔ ((self.now.under_way ≡ None) × (IsTrue head.full → self.now.slots ≡ head.tracks)) }
    {
        self.under_way.is_none() && (!head.full || self.slots == head.tracks)
    }

    /// Whether a piece with this mark may stand next, or the trailer.
    pub fn allows(&self, head: DumpHead, mark: Mark) -> bool
        ensures allowed { (front : Front) → IsGoing head front → StandsAt head front self.now → (IsTrue result ↔ MayStand head front (byte_of mark)) }
        ensures name { IsTrue result → mark ≡ Mark.Part → (name : List ℕ) × IsNextName self.now.name name }
    {
        match (mark, self.under_way) {
            (Mark::Part, _) => self.may_begin(head),
            (Mark::Track, Some(part)) => {
                part.read < part.due
                    && (part.due - part.read > 1 || part.due <= u32::MAX - self.tracks)
            }
            (Mark::PartEnd, Some(part)) => part.read == part.due,
            (Mark::Dropped, Some(part)) => part.read < part.due,
            (Mark::Slot, _) => head.full && self.slots < head.tracks,
            (Mark::Trailer, _) => self.may_close(head),
            _ => false,
        }
    }

    /// A data set begins.
    pub fn begin(&mut self, name: [u8; 44], tracks: u32)
        ensures { (head : HeadOf) (f1 : List ℕ) (kind : ℕ) → take 44 f1 ≡ name → Steps head self.old (pieces.Part f1 tracks kind) self.new }
    {
        self.name = Some(name);
        self.begun = self.begun.saturating_add(1);
        self.under_way = Some(UnderWay {
            due: tracks,
            read: 0,
        });
    }

    /// It has a track more.
    pub fn count_track(&mut self)
        ensures { (head : HeadOf) (text : Text) → Steps head self.old (pieces.Track text) self.new }
    {
        if let Some(part) = &mut self.under_way {
            part.read = part.read.saturating_add(1);
        }
    }

    /// It ends with all of its tracks.
    pub fn end_part(&mut self)
        ensures { (head : HeadOf) → Steps head self.old pieces.PartEnd self.new }
    {
        let Some(part) = self.under_way else {
            return;
        };
        self.parts = self.parts.saturating_add(1);
        self.tracks = self.tracks.saturating_add(part.due);
        self.under_way = None;
    }

    /// It ends before that.
    pub fn drop_part(&mut self)
        ensures { (head : HeadOf) → Steps head self.old pieces.Dropped self.new }
    {
        self.under_way = None;
    }

    /// A slot more stands there. Track 0 brings the label.
    pub fn add_slot(&mut self, label: Option<Label>)
        ensures { (head : HeadOf) (bytes : List ℕ) → IsLabelledBy head self.old bytes label → Steps head self.old (pieces.Slot self.old.slots bytes) self.new }
    {
        if self.slots == 0 {
            self.label = label;
        }
        self.slots = self.slots.saturating_add(1);
        self.parts = self.parts.saturating_add(1);
        self.tracks = self.tracks.saturating_add(1);
    }
}
