//! The words and numbers of messages.

ghost use Rattle.std.specs.Prelude.{◌≡◌, ◌∷◌, []};
ghost use Rattle.job_lines.specs.Lines as spec;
ghost use Rattle.job_lines.specs.Severity.{letter_of as letter_code};

use crate::message::{InputFlaw, Message, Reason};
use crate::severity::Severity;
use ckd_image::Device;
use sysin_words::Verb;
use volume_model::VtocRule;

/// The letter behind a message's number.
pub(crate) fn letter_of(severity: Severity) -> &'static str
    ensures { result.now ≡ letter_code severity ∷ [] }
{
    match severity {
        Severity::Information => "I",
        Severity::Warning => "W",
        Severity::Error => "E",
        Severity::Ending => "T",
    }
}

/// The number of a message.
pub(crate) fn number_of(message: &Message) -> u16
    ensures { result ≡ spec.number_of message.now }
{
    match message {
        Message::Started(_) => 101,
        Message::Ended(..) => 102,
        Message::Volume(_) => 110,
        Message::Set(_) => 111,
        Message::Extent(_) => 112,
        Message::Released(..) => 120,
        Message::Consolidated(..) => 127,
        Message::Copied(..) => 121,
        Message::Deleted(_) => 124,
        Message::Restored(..) => 123,
        Message::Dumped(_) => 122,
        Message::Reset(_) => 125,
        Message::NothingSelected => 201,
        Message::Rebuilt(_) => 202,
        Message::NotProcessed(_, reason, _) => reason_number(*reason),
        Message::OutputLost(_) => 321,
        Message::NoOutputWhole => 406,
        Message::Offline(..) => 401,
        Message::Indexed(_) => 402,
        Message::VtocTooLong(_) => 403,
        Message::UnknownName(_) => 408,
        Message::UnknownFile(_) => 408,
        Message::OutputUsed(_) => 409,
        Message::InputIsOutput(_) => 410,
        Message::InputFailed(_) => 405,
        Message::BadDump(..) => 404,
        Message::UnlikeDevices => 411,
    }
}

/// The number of what is wrong with an input; words where it holds a dump.
pub(crate) fn flaw_words(flaw: InputFlaw) -> &'static str
    ensures { result.now ≡ spec.flaw_words flaw }
{
    match flaw {
        InputFlaw::BadField => "60",
        InputFlaw::Truncated => "61",
        InputFlaw::DigestDiffers => "62",
        InputFlaw::OtherKind => "KIND",
    }
}

fn reason_number(reason: Reason) -> u16
    ensures { result ≡ spec.reason_number reason }
{
    match reason {
        Reason::Held => 301,
        Reason::NoSpace => 302,
        Reason::VtocFull => 303,
        Reason::NameExists => 304,
        Reason::Pinned => 305,
        Reason::NotRelocatable => 306,
        Reason::BadTrack => 307,
        Reason::NotExpired => 308,
        Reason::BlockTooLong => 309,
        Reason::NewNameTooLong => 310,
    }
}

pub(crate) fn reason_words(reason: Reason) -> &'static str
    ensures { result.now ≡ spec.reason_words reason }
{
    match reason {
        Reason::Held => "HELD",
        Reason::NoSpace => "NO SPACE",
        Reason::VtocFull => "VTOC FULL",
        Reason::NameExists => "NAME EXISTS",
        Reason::Pinned => "PINNED",
        Reason::NotRelocatable => "NOT RELOCATABLE",
        Reason::BadTrack => "BAD TRACK",
        Reason::NotExpired => "NOT EXPIRED",
        Reason::BlockTooLong => "BLOCK TOO LONG",
        Reason::NewNameTooLong => "NEW NAME TOO LONG",
    }
}

/// The words of a rule of the VTOC by its number, and none where no rule has it.
pub(crate) fn rule_words(number: u8) -> &'static str
    ensures { result.now ≡ spec.rule_words number }
{
    match VtocRule::of_number(number) {
        Some(rule) => rule.words(),
        None => "",
    }
}

pub(crate) fn command_name(verb: Verb) -> &'static str
    ensures { result.now ≡ spec.command_name verb }
{
    match verb {
        Verb::Print => "PRINT",
        Verb::Release => "RELEASE",
        Verb::Consolidate => "CONSOLIDATE",
        Verb::Defrag => "DEFRAG",
        Verb::Copy => "COPY",
        Verb::Dump => "DUMP",
        Verb::Restore => "RESTORE",
    }
}

pub(crate) fn device_name(device: Device) -> &'static str
    ensures { result.now ≡ spec.device_name device }
{
    match device {
        Device::D3390 => "3390",
        Device::D3380 => "3380",
        Device::D3350 => "3350",
    }
}

/// The abbreviation of an organization without its bit for what can't be moved.
pub(crate) fn base_organization(base: u16) -> &'static str
    ensures { result.now ≡ spec.base_organization base }
{
    match base {
        0x4000 => "PS",
        0x2000 => "DA",
        0x8000 => "IS",
        0x0200 => "PO",
        0x0008 => "VS",
        _ => "--",
    }
}
