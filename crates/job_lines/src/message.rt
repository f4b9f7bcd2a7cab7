//! What a statement says of what it did.

ghost use Rattle.std.specs.Prelude.{◌≡◌};
ghost use Rattle.job_lines.specs.Severity.{severity_in};

use crate::severity::Severity;
use ckd_image::Device;
use dd_names::DdName;
use sysin_words::Verb;
use vol_label::Serial;
use volume_model::Why;

/// Why a data set that was selected isn't processed, in the order of the messages' numbers.
#[derive(Clone, Copy, Debug, PartialEq, Eq)]
pub enum Reason {
    Held,
    NoSpace,
    VtocFull,
    NameExists,
    Pinned,
    NotRelocatable,
    BadTrack,
    NotExpired,
    BlockTooLong,
    NewNameTooLong,
}

/// A volume: its tracks that are usable and free, the runs of the free ones, and how scattered they are, in thousandths.
#[derive(Clone, Copy, Debug, PartialEq, Eq)]
pub struct VolumeSummary {
    pub serial: Serial,
    pub device: Device,
    pub usable: u32,
    pub free: u32,
    pub runs: usize,
    pub index: u32,
}

/// A data set: its name in the code page, its organization, how many extents and tracks it has, and its last block, by the track
/// counted from its first and the record there.
#[derive(Clone, Copy, Debug, PartialEq, Eq)]
pub struct SetSummary {
    pub name: [u8; 44],
    pub organization: u16,
    pub extents: usize,
    pub tracks: u32,
    pub last_track: u16,
    pub last_record: u8,
}

/// An extent of a data set: its number, from 1, its type, its first track and how many it has.
#[derive(Clone, Copy, Debug, PartialEq, Eq)]
pub struct ExtentSummary {
    pub number: usize,
    pub kind: u8,
    pub first: u32,
    pub tracks: u32,
}

/// What is wrong with what an input holds.
#[derive(Clone, Copy, Debug, PartialEq, Eq)]
pub enum InputFlaw {
    /// A field with which no dump goes on.
    BadField,
    /// It ends within a dump.
    Truncated,
    /// Its digest isn't that of its bytes.
    DigestDiffers,
    /// It is a dump of a whole volume where one of data sets is asked for, or the other way round.
    OtherKind,
}

/// A message of a statement.
#[derive(Clone, Copy, Debug, PartialEq, Eq)]
pub enum Message {
    Started(Verb),
    /// With the condition code of the statement.
    Ended(Verb, u8),
    Volume(VolumeSummary),
    Set(SetSummary),
    Extent(ExtentSummary),
    /// A data set, by its name in the code page, and how many of its tracks were given back.
    Released([u8; 44], u32),
    /// A data set that stood in so many extents, and the first track of the one in which it stands now.
    Consolidated([u8; 44], usize, u32),
    /// A data set, the volume to which it was copied, and the name of the copy where it is another.
    Copied([u8; 44], Serial, Option<[u8; 44]>),
    Deleted([u8; 44]),
    /// A data set that was dumped, the volume on which it was restored, and its name there where it is another.
    Restored([u8; 44], Serial, Option<[u8; 44]>),
    /// A data set that stands whole in a dump.
    Dumped([u8; 44]),
    /// A data set that counts as dumped since.
    Reset([u8; 44]),
    /// The filter takes no data set.
    NothingSelected,
    /// The free space of the volume with this serial was stated anew.
    Rebuilt(Serial),
    /// A data set that was selected and isn't processed, why, and how grave that is.
    NotProcessed([u8; 44], Reason, Severity),
    /// An output of a dump that failed. It gets no more.
    OutputLost(DdName),
    /// Each output of a dump was lost.
    NoOutputWhole,
    Offline(Serial, Why),
    Indexed(Serial),
    VtocTooLong(Serial),
    /// No unit is registered under this serial.
    UnknownName(Serial),
    /// The run has no output, or no input, of this name.
    UnknownFile(DdName),
    /// An output on which a dump was begun before, or that is named twice.
    OutputUsed(DdName),
    /// An input that is an output of the run as well.
    InputIsOutput(DdName),
    /// A call on an input failed.
    InputFailed(DdName),
    /// An input that holds no dump, or not one of the kind that is asked for.
    BadDump(DdName, InputFlaw),
    /// A data set can't be copied to a volume of another device.
    UnlikeDevices,
}

impl Message {
    pub fn severity(&self) -> Severity
        ensures { result ≡ severity_in self.now }
    {
        match self {
            Message::NothingSelected | Message::Rebuilt(_) => Severity::Warning,
            Message::NotProcessed(_, _, severity) => *severity,
            Message::OutputLost(_) => Severity::Error,
            Message::NoOutputWhole
            | Message::Offline(..)
            | Message::Indexed(_)
            | Message::VtocTooLong(_)
            | Message::UnknownName(_)
            | Message::UnknownFile(_)
            | Message::OutputUsed(_)
            | Message::InputIsOutput(_)
            | Message::InputFailed(_)
            | Message::BadDump(..)
            | Message::UnlikeDevices => Severity::Ending,
            _ => Severity::Information,
        }
    }
}
