//! Loading all units.

ghost use Rattle.std.specs.Prelude.{◌<◌, false, IfOk, IfErr};
ghost use Rattle.redo_core.specs.Reading.{journal_of, fills_of};
ghost use Rattle.unit_steps.specs.unit_change.Described.{AreShort};
ghost use Rattle.unit_load.specs.Kept.{IsKept, AreKeptOf};
ghost use Rattle.unit_load.specs.Reads.{OnlyReads, IsUnitFault};
ghost use Rattle.unit_load.specs.State.{IsStateOf, FitsFill};
ghost use Rattle.unit_steps.specs.Loaded.{AreLoaded, HaveFills, HaveStates, KeepVtocs, AreVtocsOf};

use ckd_image::Bytes;
use dasd_pool::Pool;
use redo_core::Journal;
use std::alloc::Global;
use unit_load::{LoadedUnit, UnderWay, UnitFault, UnitState, load_unit};

/// Reads a unit, on which a fill may be open. A pool that tells what it holds tells no slot that is longer than one can be.
fn load_one<P: Pool>(
    alloc: Global,
    journal: &mut Journal<P>,
    unit: u32,
) -> Result<LoadedUnit, UnitFault>
    requires { unit < journal_of (P.shape journal.old.pool) }
    ensures reads { OnlyReads P.Pool journal.old journal.new }
    ensures state { P.tells → IfOk result (λ loaded. IsStateOf false ((P.shape journal.old.pool).head unit) ((P.shape journal.old.pool).blocks unit)
        ((P.disk journal.old.pool).state.contents unit) loaded.state) }
    ensures slots { P.tells → IfOk result (λ loaded. AreKeptOf ((P.disk journal.old.pool).state.contents unit) loaded.state loaded.slots) }
    ensures kept { IfOk result (λ loaded. IsKept false ((P.shape journal.old.pool).head unit) ((P.shape journal.old.pool).blocks unit) loaded.state loaded.slots) }
    ensures fill { IfOk result (λ loaded. FitsFill (fills_of journal.old.fills unit) loaded.state) }
    ensures short { P.tells → AreShort ((P.shape journal.old.pool).blocks unit) ((P.disk journal.old.pool).state.contents unit) }
    ensures fault { IfErr result (IsUnitFault (P.faults journal.old.pool) (P.faults journal.new.pool)) }
{
    journal.sizes();
    let under_way = if journal.filling(unit) {
        UnderWay::Fill
    } else {
        UnderWay::Nothing
    };
    load_unit(alloc, journal, unit, under_way, None)
}

/// Units as they were loaded, and the slots of their VTOCs.
#[derive(Drop)]
pub(crate) struct LoadedUnits {
    pub units: Vec<UnitState>,
    pub vtocs: Vec<Bytes>,
}

/// Reads all units, each once.
pub(crate) fn load_units<P: Pool>(
    alloc: Global,
    journal: &mut Journal<P>,
) -> Result<LoadedUnits, UnitFault>
    ensures reads { OnlyReads P.Pool journal.old journal.new }
    ensures count { IfOk result (λ loaded. HaveStates (P.shape journal.old.pool) loaded.units.items) }
    ensures kept { IfOk result (λ loaded. KeepVtocs (P.shape journal.old.pool) loaded.units.items loaded.vtocs.items) }
    ensures loaded { P.tells → IfOk result (λ loaded. AreLoaded (P.shape journal.old.pool) (P.disk journal.old.pool).state.contents loaded.units.items) }
    ensures slots { P.tells → IfOk result (λ loaded. AreVtocsOf (P.disk journal.old.pool).state.contents loaded.units.items loaded.vtocs.items) }
    ensures fills { IfOk result (λ loaded. HaveFills journal.old.fills loaded.units.items) }
    ensures fault { IfErr result (IsUnitFault (P.faults journal.old.pool) (P.faults journal.new.pool)) }
{
    let count = journal.units();
    let mut units = Vec::new(alloc);
    let mut vtocs = Vec::new(alloc);
    for unit in 0..count {
        let LoadedUnit { state, slots } = load_one(alloc, journal, unit)?;
        let Ok(()) = units.push(state) else {
            return Err(UnitFault::NoMemory);
        };
        let Ok(()) = vtocs.push(slots) else {
            return Err(UnitFault::NoMemory);
        };
    }
    Ok(LoadedUnits { units, vtocs })
}
