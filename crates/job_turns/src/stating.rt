//! Free space that isn't stated is stated before the first change of its volume.

ghost use Rattle.std.specs.Prelude.{◌≡◌, ◌<◌, ◌++◌, OnOk};
ghost use Rattle.redo_core.specs.Reading.{journal_of};
ghost use Rattle.job_acts.specs.Making.{repair_steps};
ghost use Rattle.job_turns.specs.Stating.{due, rebuilt_in};

use ckd_image::NoMemory;
use dasd_pool::Pool;
use job_acts::job_steps::unit_session::Session;
use job_lines::Message;
use move_core::Step;
use unit_load::UnitState;

/// Adds the repair of a unit's volume, if its free space isn't stated.
pub fn push_repair<P: Pool>(
    session: &Session<P>,
    unit: u32,
    steps: &mut Vec<Step>,
) -> Result<(), NoMemory>
    requires { unit < journal_of (P.shape session.now.pool) }
    ensures { OnOk result (steps.new.items ≡ steps.old.items ++ repair_steps (due session.now.units unit)) }
{
    match session.unit(unit) {
        UnitState::Online(volume) if volume.repair => Ok(steps.push(Step::Repair { unit })?),
        _ => Ok(()),
    }
}

/// Adds that the free space of a unit's volume was stated, where it isn't before.
pub fn push_rebuilt<P: Pool>(
    session: &Session<P>,
    unit: u32,
    said: &mut Vec<Message>,
) -> Result<(), NoMemory>
    requires { unit < journal_of (P.shape session.now.pool) }
    ensures { OnOk result (said.new.items ≡ said.old.items ++ rebuilt_in session.now.units unit) }
{
    match session.unit(unit) {
        UnitState::Online(volume) if volume.repair => {
            Ok(said.push(Message::Rebuilt(volume.serial))?)
        }
        _ => Ok(()),
    }
}
