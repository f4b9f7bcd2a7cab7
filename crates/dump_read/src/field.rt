//! The fields of a dump that may be wrong.

ghost use Rattle.std.specs.Prelude.{◌≡◌};
ghost use Rattle.dump_read.specs.Faults.{why_of};

use crate::header::HeaderField;
use crate::part::PartField;
use crate::slot::SlotField;
use crate::track::TrackField;

/// A field of a dump.
#[derive(Clone, Copy, Debug, PartialEq, Eq)]
pub enum DumpField {
    Header(HeaderField),
    Mark,
    Part(PartField),
    Track(TrackField),
    Slot(SlotField),
    Count,
}

impl DumpField {
    /// The number of the refusal: 1 to 4 the header, 5 a mark, 6 a part, 7 a track or the slot of one, 8 the order of names or of tracks, 10 a count.
    pub fn why(self) -> u8
        ensures { result ≡ why_of self }
    {
        match self {
            DumpField::Header(field) => field.why(),
            DumpField::Mark => 5,
            DumpField::Part(field) => field.why(),
            DumpField::Track(_) => 7,
            DumpField::Slot(field) => field.why(),
            DumpField::Count => 10,
        }
    }
}
