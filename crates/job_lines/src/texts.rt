//! The texts of messages, one for each kind.

ghost use Rattle.std.specs.Prelude.{◌≡◌, ◌++◌, IfOk, string_bytes, codes};
ghost use Rattle.std.specs.Fmt.{decimal};
ghost use Rattle.job_lines.specs.Names.{dd_text, printed};
ghost use Rattle.job_lines.specs.Lines as spec;

use crate::message::{ExtentSummary, InputFlaw, Message, Reason, SetSummary, VolumeSummary};
use crate::names::{printed_dd, printed_name};
use crate::words::{
    base_organization, command_name, device_name, flaw_words, reason_words, rule_words,
};
use dd_names::DdName;
use std::alloc::{AllocError, Global};
use sysin_words::Verb;
use vol_label::Serial;
use volume_model::Why;

/// The bit of an organization that says that the data set can't be moved.
const UNMOVABLE: u16 = 0x0100;

/// The text of a message, behind its head.
pub(crate) fn text_in(alloc: Global, message: &Message) -> Result<String, AllocError>
    ensures { IfOk result (λ text. string_bytes text ≡ spec.text_in message.now) }
{
    match message {
        Message::Started(verb) => started_text(alloc, *verb),
        Message::Ended(verb, code) => ended_text(alloc, *verb, *code),
        Message::Volume(volume) => volume_text(alloc, *volume),
        Message::Set(set) => set_text(alloc, *set),
        Message::Extent(extent) => extent_text(alloc, *extent),
        Message::Released(name, tracks) => released_text(alloc, name, *tracks),
        Message::Consolidated(name, extents, first) => {
            consolidated_text(alloc, name, *extents, *first)
        }
        Message::Copied(name, serial, copy) => copied_text(alloc, name, *serial, *copy),
        Message::Deleted(name) => deleted_text(alloc, name),
        Message::Restored(name, serial, new) => restored_text(alloc, name, *serial, *new),
        Message::Dumped(name) => dumped_text(alloc, name),
        Message::Reset(name) => reset_text(alloc, name),
        Message::NothingSelected => String::from_str(alloc, "NOTHING SELECTED"),
        Message::Rebuilt(serial) => rebuilt_text(alloc, *serial),
        Message::NotProcessed(name, reason, _) => not_processed_text(alloc, name, *reason),
        Message::OutputLost(name) => lost_text(alloc, *name),
        Message::NoOutputWhole => String::from_str(alloc, "NO OUTPUT WHOLE"),
        Message::Offline(serial, why) => offline_text(alloc, *serial, *why),
        Message::Indexed(serial) => indexed_text(alloc, *serial),
        Message::VtocTooLong(serial) => too_long_text(alloc, *serial),
        Message::UnknownName(serial) => unknown_text(alloc, *serial),
        Message::UnknownFile(name) => unknown_file_text(alloc, *name),
        Message::OutputUsed(name) => used_text(alloc, *name),
        Message::InputIsOutput(name) => is_output_text(alloc, *name),
        Message::InputFailed(name) => failed_text(alloc, *name),
        Message::BadDump(name, flaw) => bad_dump_text(alloc, *name, *flaw),
        Message::UnlikeDevices => String::from_str(alloc, "UNLIKE DEVICES"),
    }
}

fn started_text(alloc: Global, verb: Verb) -> Result<String, AllocError>
    ensures { IfOk result (λ text. string_bytes text ≡ spec.command_name verb ++ codes " STARTED") }
{
    let command = command_name(verb);
    format!(in alloc; "{command} STARTED")
}

fn ended_text(alloc: Global, verb: Verb, code: u8) -> Result<String, AllocError>
    ensures { IfOk result (λ text. string_bytes text ≡ spec.command_name verb ++ codes " ENDED CODE " ++ decimal code) }
{
    let command = command_name(verb);
    format!(in alloc; "{command} ENDED CODE {code}")
}

fn volume_text(alloc: Global, volume: VolumeSummary) -> Result<String, AllocError>
    ensures { IfOk result (λ text. string_bytes text ≡ spec.volume_text volume) }
{
    let serial = printed_name(alloc, &volume.serial.text)?;
    let device = device_name(volume.device);
    let VolumeSummary {
        usable,
        free,
        runs,
        index,
        ..
    } = volume;
    format!(in alloc;
        "VOLUME {serial} {device} USABLE {usable} FREE {free} IN {runs} RUNS INDEX {index}"
    )
}

/// The abbreviation of an organization, and a U where the data set can't be moved.
fn organization_text(alloc: Global, organization: u16) -> Result<String, AllocError>
    ensures { IfOk result (λ text. string_bytes text ≡ spec.organization organization) }
{
    let base = organization & !UNMOVABLE;
    let mut text = String::from_str(alloc, base_organization(base))?;
    if base != organization {
        text.push_str("U")?;
    }
    Ok(text)
}

/// The last block of a data set, by its track and record.
fn last_text(alloc: Global, track: u16, record_number: u8) -> Result<String, AllocError>
    ensures { IfOk result (λ text. string_bytes text ≡ spec.hex_four track ++ spec.hex record_number) }
{
    let [high, low] = track.to_be_bytes();
    format!(in alloc; "{high:02X}{low:02X}{record_number:02X}")
}

fn set_text(alloc: Global, set: SetSummary) -> Result<String, AllocError>
    ensures { IfOk result (λ text. string_bytes text ≡ spec.set_text set) }
{
    let name = printed_name(alloc, &set.name)?;
    let organization = organization_text(alloc, set.organization)?;
    let SetSummary {
        extents,
        tracks,
        ..
    } = set;
    let last = last_text(alloc, set.last_track, set.last_record)?;
    format!(in alloc; "{name} {organization} EXTENTS {extents} TRACKS {tracks} LAST {last}")
}

fn extent_text(alloc: Global, extent: ExtentSummary) -> Result<String, AllocError>
    ensures { IfOk result (λ text. string_bytes text ≡ spec.extent_text extent) }
{
    let ExtentSummary {
        number,
        kind,
        first,
        tracks,
    } = extent;
    format!(in alloc; "EXTENT {number} KIND {kind:02X} FROM {first} LENGTH {tracks}")
}

fn released_text(alloc: Global, name: &[u8; 44], tracks: u32) -> Result<String, AllocError>
    ensures { IfOk result (λ text. string_bytes text ≡ printed name.now ++ codes " RELEASED " ++ decimal tracks) }
{
    let name = printed_name(alloc, name)?;
    format!(in alloc; "{name} RELEASED {tracks}")
}

fn consolidated_text(
    alloc: Global,
    name: &[u8; 44],
    extents: usize,
    first: u32,
) -> Result<String, AllocError>
    ensures { IfOk result (λ text. string_bytes text ≡ printed name.now ++ codes " CONSOLIDATED FROM " ++ decimal extents ++ codes " EXTENTS TO " ++ decimal first) }
{
    let name = printed_name(alloc, name)?;
    format!(in alloc; "{name} CONSOLIDATED FROM {extents} EXTENTS TO {first}")
}

/// With the name of the copy where it is another than its origin's.
fn copied_text(
    alloc: Global,
    name: &[u8; 44],
    serial: Serial,
    copy: Option<[u8; 44]>,
) -> Result<String, AllocError>
    ensures { IfOk result (λ text. string_bytes text ≡ printed name.now ++ codes " COPIED TO " ++ printed serial.text ++ spec.renamed copy) }
{
    let name = printed_name(alloc, name)?;
    let serial = printed_name(alloc, &serial.text)?;
    match copy {
        None => format!(in alloc; "{name} COPIED TO {serial}"),
        Some(copy) => {
            let copy = printed_name(alloc, &copy)?;
            format!(in alloc; "{name} COPIED TO {serial} AS {copy}")
        }
    }
}

fn deleted_text(alloc: Global, name: &[u8; 44]) -> Result<String, AllocError>
    ensures { IfOk result (λ text. string_bytes text ≡ printed name.now ++ codes " DELETED") }
{
    let name = printed_name(alloc, name)?;
    format!(in alloc; "{name} DELETED")
}

/// With its name on the volume where it is another than that of the data set that was dumped.
fn restored_text(
    alloc: Global,
    name: &[u8; 44],
    serial: Serial,
    new: Option<[u8; 44]>,
) -> Result<String, AllocError>
    ensures { IfOk result (λ text. string_bytes text ≡ printed name.now ++ codes " RESTORED TO " ++ printed serial.text ++ spec.renamed new) }
{
    let name = printed_name(alloc, name)?;
    let serial = printed_name(alloc, &serial.text)?;
    match new {
        None => format!(in alloc; "{name} RESTORED TO {serial}"),
        Some(new) => {
            let new = printed_name(alloc, &new)?;
            format!(in alloc; "{name} RESTORED TO {serial} AS {new}")
        }
    }
}

fn dumped_text(alloc: Global, name: &[u8; 44]) -> Result<String, AllocError>
    ensures { IfOk result (λ text. string_bytes text ≡ printed name.now ++ codes " DUMPED") }
{
    let name = printed_name(alloc, name)?;
    format!(in alloc; "{name} DUMPED")
}

fn reset_text(alloc: Global, name: &[u8; 44]) -> Result<String, AllocError>
    ensures { IfOk result (λ text. string_bytes text ≡ printed name.now ++ codes " RESET") }
{
    let name = printed_name(alloc, name)?;
    format!(in alloc; "{name} RESET")
}

fn lost_text(alloc: Global, name: DdName) -> Result<String, AllocError>
    ensures { IfOk result (λ text. string_bytes text ≡ codes "OUTPUT " ++ dd_text name ++ codes " LOST") }
{
    let name = printed_dd(alloc, name)?;
    format!(in alloc; "OUTPUT {name} LOST")
}

fn rebuilt_text(alloc: Global, serial: Serial) -> Result<String, AllocError>
    ensures { IfOk result (λ text. string_bytes text ≡ printed serial.text ++ codes " VTOC REBUILT") }
{
    let serial = printed_name(alloc, &serial.text)?;
    format!(in alloc; "{serial} VTOC REBUILT")
}

fn not_processed_text(alloc: Global, name: &[u8; 44], reason: Reason) -> Result<String, AllocError>
    ensures { IfOk result (λ text. string_bytes text ≡ printed name.now ++ codes " NOT PROCESSED: " ++ spec.reason_words reason) }
{
    let name = printed_name(alloc, name)?;
    let words = reason_words(reason);
    format!(in alloc; "{name} NOT PROCESSED: {words}")
}

/// Why a unit is offline.
fn why_text(alloc: Global, why: Why) -> Result<String, AllocError>
    ensures { IfOk result (λ text. string_bytes text ≡ spec.why_words why) }
{
    match why {
        Why::Head(number) => format!(in alloc; "HEAD {number}"),
        Why::Label(number) => format!(in alloc; "LABEL {number}"),
        Why::Vtoc(track, place, rule) => {
            let words = rule_words(rule);
            format!(in alloc; "VTOC {track} {place} {words}")
        }
        Why::Filling => String::from_str(alloc, "FILLING"),
    }
}

fn offline_text(alloc: Global, serial: Serial, why: Why) -> Result<String, AllocError>
    ensures { IfOk result (λ text. string_bytes text ≡ codes "UNIT " ++ printed serial.text ++ codes " OFFLINE: " ++ spec.why_words why) }
{
    let serial = printed_name(alloc, &serial.text)?;
    let why = why_text(alloc, why)?;
    format!(in alloc; "UNIT {serial} OFFLINE: {why}")
}

fn indexed_text(alloc: Global, serial: Serial) -> Result<String, AllocError>
    ensures { IfOk result (λ text. string_bytes text ≡ codes "VOLUME " ++ printed serial.text ++ codes " INDEXED") }
{
    let serial = printed_name(alloc, &serial.text)?;
    format!(in alloc; "VOLUME {serial} INDEXED")
}

fn too_long_text(alloc: Global, serial: Serial) -> Result<String, AllocError>
    ensures { IfOk result (λ text. string_bytes text ≡ codes "VOLUME " ++ printed serial.text ++ codes " VTOC TOO LONG") }
{
    let serial = printed_name(alloc, &serial.text)?;
    format!(in alloc; "VOLUME {serial} VTOC TOO LONG")
}

fn unknown_text(alloc: Global, serial: Serial) -> Result<String, AllocError>
    ensures { IfOk result (λ text. string_bytes text ≡ codes "UNKNOWN NAME " ++ printed serial.text) }
{
    let serial = printed_name(alloc, &serial.text)?;
    format!(in alloc; "UNKNOWN NAME {serial}")
}

fn unknown_file_text(alloc: Global, name: DdName) -> Result<String, AllocError>
    ensures { IfOk result (λ text. string_bytes text ≡ codes "UNKNOWN NAME " ++ dd_text name) }
{
    let name = printed_dd(alloc, name)?;
    format!(in alloc; "UNKNOWN NAME {name}")
}

fn used_text(alloc: Global, name: DdName) -> Result<String, AllocError>
    ensures { IfOk result (λ text. string_bytes text ≡ codes "OUTPUT " ++ dd_text name ++ codes " USED BEFORE") }
{
    let name = printed_dd(alloc, name)?;
    format!(in alloc; "OUTPUT {name} USED BEFORE")
}

fn is_output_text(alloc: Global, name: DdName) -> Result<String, AllocError>
    ensures { IfOk result (λ text. string_bytes text ≡ codes "INPUT " ++ dd_text name ++ codes " IS AN OUTPUT") }
{
    let name = printed_dd(alloc, name)?;
    format!(in alloc; "INPUT {name} IS AN OUTPUT")
}

fn failed_text(alloc: Global, name: DdName) -> Result<String, AllocError>
    ensures { IfOk result (λ text. string_bytes text ≡ codes "INPUT " ++ dd_text name ++ codes " FAILED") }
{
    let name = printed_dd(alloc, name)?;
    format!(in alloc; "INPUT {name} FAILED")
}

fn bad_dump_text(alloc: Global, name: DdName, flaw: InputFlaw) -> Result<String, AllocError>
    ensures { IfOk result (λ text. string_bytes text ≡ codes "INPUT " ++ dd_text name ++ codes " BAD DUMP " ++ spec.flaw_words flaw) }
{
    let name = printed_dd(alloc, name)?;
    let words = flaw_words(flaw);
    format!(in alloc; "INPUT {name} BAD DUMP {words}")
}
