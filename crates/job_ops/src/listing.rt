//! PRINT: the lines of a volume and of its data sets.

ghost use Rattle.std.specs.Prelude.{◌≡◌, ◌*◌, ◌+◌, ◌∷◌, ◌++◌, List, [], Contains, OnOk};
ghost use Rattle.ckd_image.specs.Device.{heads_of};
ghost use Rattle.volume_model.specs.Pinned.{last_track_in, last_record_in};
ghost use Rattle.volume_model.specs.Reads.{fields_of_1};
ghost use Rattle.volume_model.specs.Unit.{DataSet, OnlineVolume};
ghost use Rattle.dump_sets.specs.job_turns.job_copies.unit_change.Described.{DescribesSet, Describes};
ghost use Rattle.dump_sets.specs.job_turns.job_copies.step_plans.Plans.{IsSound, extents_from};
ghost use Rattle.job_ops.specs.Listing.{extent_messages as messages_of_extents, set_messages, IsListing, Prints};
ghost use Rattle.job_lines.specs.declared.message.Message.{Message as MessageOf};
ghost use Rattle.dump_sets.specs.job_turns.job_steps.Units.{facts_of, ForUnits};
ghost use Rattle.dump_sets.specs.job_turns.Setting.{Setting};

use ckd_image::{Device, NoMemory};
use dasd_pool::Pool;
use dscb_rec::Extent;
use dump_sets::job_turns::job_copies::job_select::{organization_of, track_count};
use dump_sets::job_turns::job_steps::unit_session::Session;
use dump_sets::job_turns::{UnitUse, unit_for};
use job_lines::{ExtentSummary, Message, SetSummary, VolumeSummary};
use vol_label::Serial;
use vtoc_core::{Row, Volume, run_of};

/// An extent with its number.
fn extent_summary(device: Device, number: usize, extent: Extent) -> ExtentSummary
    ensures { Message.Extent result ∷ [] ≡ messages_of_extents number (extents_from device (extent ∷ [])) }
{
    let run = run_of(device, &extent);
    ExtentSummary {
        number,
        kind: extent.kind,
        first: run.first,
        tracks: run.len,
    }
}

/// Adds the messages of extents.
fn push_extents(
    device: Device,
    extents: &[Extent],
    messages: &mut Vec<Message>,
) -> Result<(), NoMemory>
    ensures grows { (said : List MessageOf) × (messages.new.items ≡ messages.old.items ++ said) }
    ensures listed { OnOk result (messages.new.items ≡ messages.old.items ++ messages_of_extents 1 (extents_from device extents.now)) }
{
    for (place, extent) in extents.iter().enumerate() {
        let summary = extent_summary(device, place + 1, *extent);
        messages.push(Message::Extent(summary))?;
    }
    Ok(())
}

/// The track of the last block, as a format 1 says it.
fn last_track(f1: &[u8; 140]) -> u16
    ensures { result ≡ last_track_in (fields_of_1 f1.now) }
{
    u16::from_be_bytes([f1[98], f1[99]])
}

/// The record of the last block.
fn last_record(f1: &[u8; 140]) -> u8
    ensures { result ≡ last_record_in (fields_of_1 f1.now) }
{
    f1[100]
}

/// A data set in one line.
fn set_summary(volume: &Volume, row: &Row) -> SetSummary
    requires sound { IsSound volume.now }
    requires there { Contains volume.now.rows row.now }
    ensures { (set : DataSet) → DescribesSet (heads_of volume.now.device) row.now set → result ≡ Rattle.job_ops.specs.Listing.set_summary set }
{
    SetSummary {
        name: row.name,
        organization: organization_of(row),
        extents: row.extents.as_slice().len(),
        tracks: track_count(volume, row),
        last_track: last_track(&row.f1),
        last_record: last_record(&row.f1),
    }
}

/// Adds the messages of a data set.
fn push_set(volume: &Volume, row: &Row, messages: &mut Vec<Message>) -> Result<(), NoMemory>
    requires sound { IsSound volume.now }
    requires there { Contains volume.now.rows row.now }
    ensures grows { (said : List MessageOf) × (messages.new.items ≡ messages.old.items ++ said) }
    ensures listed { OnOk result ((set : DataSet) → DescribesSet (heads_of volume.now.device) row.now set → messages.new.items ≡ messages.old.items ++ set_messages set) }
{
    messages.push(Message::Set(set_summary(volume, row)))?;
    push_extents(volume.device, row.extents.as_slice(), messages)
}

/// Adds the messages of a volume.
fn push_listing(volume: &Volume, messages: &mut Vec<Message>) -> Result<(), NoMemory>
    requires { IsSound volume.now }
    ensures grows { (said : List MessageOf) × (messages.new.items ≡ messages.old.items ++ said) }
    ensures listed { OnOk result ((described : OnlineVolume) → Describes volume.now described
        → (said : List MessageOf) × (messages.new.items ≡ messages.old.items ++ said) × IsListing described said) }
{
    let free = &volume.free;
    messages.push(Message::Volume(VolumeSummary {
        serial: volume.serial,
        device: volume.device,
        usable: volume.usable,
        free: free.count(),
        runs: free.runs().len(),
        index: free.index(),
    }))?;
    for row in volume.rows.as_slice() {
        push_set(volume, row, messages)?;
    }
    Ok(())
}

/// Lists the volume of a serial.
pub(crate) fn print<P: Pool>(
    session: &Session<P>,
    serial: Serial,
    messages: &mut Vec<Message>,
) -> Result<(), NoMemory>
    ensures grows { (said : List MessageOf) × (messages.new.items ≡ messages.old.items ++ said) }
    ensures listed { OnOk result ((said : List MessageOf) × (messages.new.items ≡ messages.old.items ++ said)
        × ((setting : Setting) → setting.facts ≡ facts_of P.Pool session.now → ForUnits P.Pool session.now (λ units. Prints setting serial units [] said))) }
{
    let named = UnitUse {
        serial,
        changes: false,
    };
    let unit = match unit_for(session, named) {
        Ok(unit) => unit,
        Err(message) => return Ok(messages.push(message)?),
    };
    session.stands();
    push_listing(session.volume(unit), messages)
}
