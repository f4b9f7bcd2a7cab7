//! Which unit a serial stands for, and what stands against a statement.

ghost use Rattle.std.specs.Prelude.{◌≡◌, ◌≢◌, ◌-◌, ◌/◌, ◌<◌, ◌≤◌, ◌∷◌, [], false, true, All, Some, slice_get, IfOk, IfErr, IfSome, IfNone, map};
ghost use Rattle.volume_model.specs.declared.why.Why.{Why};
ghost use Rattle.redo_core.specs.Reading.{journal_of};
ghost use Rattle.unit_load.specs.declared.state.UnitState.TheVariants as states;
ghost use Rattle.job_copies.specs.unit_steps.Loaded.{AreModels};
ghost use Rattle.job_copies.specs.unit_steps.Plans.{IsLoadedAt};
ghost use Rattle.job_lines.specs.declared.message.Message.TheVariants as messages;
ghost use Rattle.job_turns.specs.Refusal.{IsUnitOf, standing_in, IsUnknown, Refuses, Lets};
ghost use Rattle.job_turns.specs.Refusal.{IsUnitFor};
ghost use Rattle.job_acts.specs.job_steps.Units.{ForUnits};

use dasd_pool::Pool;
use job_acts::job_steps::unit_session::Session;
use job_lines::Message;
use unit_load::UnitState;
use vol_label::Serial;
use vtoc_core::Volume;

/// A unit that a statement names by its serial, and whether the statement changes it.
#[derive(Clone, Copy, Debug, PartialEq, Eq)]
pub struct UnitUse {
    pub serial: Serial,
    pub changes: bool,
}

/// The unit that is registered under a serial.
fn unit_of<P: Pool>(session: &Session<P>, serial: Serial) -> Option<u32>
    ensures found { IfSome result (IsUnitOf session.now.names serial) }
    ensures there { IfSome result (λ unit. unit < journal_of (P.shape session.now.pool)) }
    ensures none { IfNone result (All (λ name. name ≢ serial) session.now.names) }
    ensures models { ForUnits P.Pool session.now (AreModels session.now.units) }
{
    for unit in 0..session.units() {
        if session.name(unit) == serial {
            return Some(unit);
        }
    }
    None
}

/// The unit that a statement names, or the message that nothing has its name.
pub fn find<P: Pool>(session: &Session<P>, named: UnitUse) -> Result<u32, Message>
    ensures found { IfOk result (IsUnitOf session.now.names named.serial) }
    ensures there { IfOk result (λ unit. unit < journal_of (P.shape session.now.pool)) }
    ensures unknown { IfErr result (λ message. IsUnknown session.now.names named × (message ≡ messages.UnknownName named.serial)) }
    ensures models { ForUnits P.Pool session.now (AreModels session.now.units) }
{
    let serial = named.serial;
    unit_of(session, serial).ok_or(Message::UnknownName(serial))
}

/// The volume of a unit, or the message that it is offline.
fn volume_of<'a, P: Pool>(
    session: &'a Session<P>,
    unit: u32,
    named: UnitUse,
) -> Result<&'a Volume, Message>
    requires { unit < journal_of (P.shape session.now.pool) }
    ensures loaded { IfOk result (λ volume. IsLoadedAt session.now.units unit volume.now) }
    ensures offline { IfErr result (λ message. (why : Why) × (slice_get session.now.units unit ≡ Some (states.Offline why)) × (message ≡ messages.Offline named.serial why)) }
{
    match session.unit(unit) {
        UnitState::Online(volume) => Ok(volume),
        UnitState::Offline(why) => Err(Message::Offline(named.serial, *why)),
    }
}

/// Nothing, or the message that a volume that is to be changed has an index.
fn has_no_index(volume: &Volume, named: UnitUse) -> Result<(), Message>
    ensures plain { IfOk result (λ none. named.changes ≡ true → volume.now.indexed ≡ false) }
    ensures indexed { IfErr result (λ message. (named.changes ≡ true) × (volume.now.indexed ≡ true) × (message ≡ messages.Indexed named.serial)) }
{
    if named.changes && volume.indexed {
        return Err(Message::Indexed(named.serial));
    }
    Ok(())
}

/// Nothing, or the message that a volume that is to be changed has a VTOC longer than one commit can change beside that of another.
fn has_short_vtoc(volume: &Volume, room: u32, named: UnitUse) -> Result<(), Message>
    ensures short { IfOk result (λ none. named.changes ≡ true → volume.now.vtoc.len ≤ (room - 1) / 2) }
    ensures long { IfErr result (λ message. (named.changes ≡ true) × ((room - 1) / 2 < volume.now.vtoc.len) × (message ≡ messages.VtocTooLong named.serial)) }
{
    if named.changes && volume.vtoc.len > room.saturating_sub(1) / 2 {
        return Err(Message::VtocTooLong(named.serial));
    }
    Ok(())
}

/// The unit that a statement names, or the message that refuses the statement.
pub fn unit_for<P: Pool>(session: &Session<P>, named: UnitUse) -> Result<u32, Message>
    ensures unit { IfOk result (IsUnitFor (journal_of (P.shape session.now.pool)) session.now.names session.now.room session.now.units named) }
    ensures lets { IfOk result (λ unit. Lets session.now.names session.now.room (map standing_in session.now.units) (named ∷ [])) }
    ensures refused { IfErr result (Refuses session.now.names session.now.room (map standing_in session.now.units) (named ∷ [])) }
    ensures models { ForUnits P.Pool session.now (AreModels session.now.units) }
{
    let unit = find(session, named)?;
    let volume = volume_of(session, unit, named)?;
    has_no_index(volume, named)?;
    has_short_vtoc(volume, session.room(), named)?;
    Ok(unit)
}

/// The two units that a statement names, or the message that refuses it: an unknown name, else an offline unit, else an index, else a long VTOC; of two the
/// first.
pub fn units_for<P: Pool>(
    session: &Session<P>,
    one: UnitUse,
    other: UnitUse,
) -> Result<(u32, u32), Message>
    ensures first { IfOk result (λ units. IsUnitFor (journal_of (P.shape session.now.pool)) session.now.names session.now.room session.now.units one units.0) }
    ensures second { IfOk result (λ units. IsUnitFor (journal_of (P.shape session.now.pool)) session.now.names session.now.room session.now.units other units.1) }
    ensures lets { IfOk result (λ units. Lets session.now.names session.now.room (map standing_in session.now.units) (one ∷ other ∷ [])) }
    ensures refused { IfErr result (Refuses session.now.names session.now.room (map standing_in session.now.units) (one ∷ other ∷ [])) }
    ensures models { ForUnits P.Pool session.now (AreModels session.now.units) }
{
    let from = find(session, one)?;
    let to = find(session, other)?;
    let source = volume_of(session, from, one)?;
    let target = volume_of(session, to, other)?;
    has_no_index(source, one)?;
    has_no_index(target, other)?;
    let room = session.room();
    has_short_vtoc(source, room, one)?;
    has_short_vtoc(target, room, other)?;
    Ok((from, to))
}
