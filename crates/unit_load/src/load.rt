//! What a unit is.

ghost use Rattle.std.specs.Prelude.{◌≡◌, ◌≤◌, ◌<◌, ◌*◌, Bool, false, length, IfSome, IfOk, IfErr};
ghost use Rattle.ckd_image.specs.Device.{heads_of, slot_of};
ghost use Rattle.ckd_image.specs.Head.{IsHead};
ghost use Rattle.vol_label.specs.Label.{IsInside};
ghost use Rattle.redo_core.specs.Reading.{journal_of};
ghost use Rattle.volume_model.specs.Reads.{HasImage};
ghost use Rattle.volume_model.specs.Sound.{Slots};
ghost use Rattle.volume_model.specs.Space.{track_at};
ghost use Rattle.vtoc_check.specs.Front.{IsVtocRun};
ghost use Rattle.vtoc_check.specs.Slots.{slot_in, AreSlotsOf};
ghost use Rattle.vtoc_load.specs.LoadedVtoc.{IsLoadedVtoc};
ghost use Rattle.unit_load.specs.declared.state.UnitState.TheVariants as states;
ghost use Rattle.unit_load.specs.Hand.{with_hand};
ghost use Rattle.unit_load.specs.Kept.{IsFromSlots, IsKept, AreKeptOf};
ghost use Rattle.unit_load.specs.Reads.{OnlyReads, IsUnitFault};
ghost use Rattle.unit_load.specs.State.{IsStateOf, IsStateStop, is_filling_now, is_sliding_now, FitsFill, FitsFillStop};
ghost use Rattle.unit_load.specs.Stops.{IsHeadStop, IsLabelIn, IsLabelStop, IsVtocStop, IsFaultOfCheck, IsMemory, StopsBy, stop_for};

use crate::label::label_in;
use crate::slots::{Hand, read_run, slot_at};
use crate::state::{LoadedUnit, UnderWay, UnitState};
use crate::stop::{Stop, UnitFault};
use ckd_image::{Bytes, CkdFault, Head};
use dasd_pool::Pool;
use free_map::Run;
use redo_core::Journal;
use std::alloc::Global;
use vol_label::Label;
use volume_model::Why;
use vtoc_check::{VtocFault, vtoc_run};
use vtoc_core::Volume;
use vtoc_load::load_vtoc;

/// Reads the unit with this number, from 0 on: the volume on it and the slots of its VTOC, or why it is offline.
///
/// What is under way on it is the caller's word: the journal isn't asked. With a fill open it is offline as soon as its head passes, and none of its tracks is read.
/// A track at hand isn't read either: the unit counts as it will be once that slot is in place. That these tracks aren't read is not in the contract.
pub fn load_unit<P: Pool>(
    alloc: Global,
    journal: &mut Journal<P>,
    unit: u32,
    under_way: UnderWay,
    hand: Option<Hand<'_>>,
) -> Result<LoadedUnit, UnitFault>
    requires unit { unit < journal_of (P.shape journal.old.pool) }
    requires hand { IfSome hand (λ hand. length hand.slot.now ≡ (P.shape journal.old.pool).block_size unit) }
    ensures reads { OnlyReads P.Pool journal.old journal.new }
    ensures state { P.tells → IfOk result (λ loaded. IsStateOf (is_sliding_now under_way) ((P.shape journal.old.pool).head unit) ((P.shape journal.old.pool).blocks unit)
        (with_hand hand.entry ((P.disk journal.old.pool).state.contents unit)) loaded.state) }
    ensures fill { IfOk result (λ loaded. FitsFill (is_filling_now under_way) loaded.state) }
    ensures slots { P.tells → IfOk result (λ loaded. AreKeptOf (with_hand hand.entry ((P.disk journal.old.pool).state.contents unit)) loaded.state loaded.slots) }
    ensures kept { IfOk result (λ loaded. IsKept (is_sliding_now under_way) ((P.shape journal.old.pool).head unit) ((P.shape journal.old.pool).blocks unit)
        loaded.state loaded.slots) }
    ensures fault { IfErr result (IsUnitFault (P.faults journal.old.pool) (P.faults journal.new.pool)) }
{
    match find_volume(alloc, journal, unit, under_way, hand) {
        Ok((volume, slots)) => Ok(LoadedUnit {
            state: UnitState::Online(volume),
            slots: Bytes::from_vec(slots),
        }),
        Err(Stop::Offline(why)) => Ok(LoadedUnit {
            state: UnitState::Offline(why),
            slots: Bytes::new(alloc),
        }),
        Err(Stop::Fault(fault)) => Err(fault),
    }
}

/// The head of a unit.
fn head_of<P: Pool>(journal: &Journal<P>, unit: u32) -> Result<Head, Stop>
    requires { unit < journal_of (P.shape journal.now.pool) }
    ensures head { IfOk result (λ found. IsHead ((P.shape journal.now.pool).head unit) ((P.shape journal.now.pool).blocks unit) found.device
        × (found.tracks ≡ (P.shape journal.now.pool).blocks unit)) }
    ensures stop { IfErr result (IsHeadStop ((P.shape journal.now.pool).head unit) ((P.shape journal.now.pool).blocks unit)) }
{
    match Head::read(&journal.head(unit), journal.blocks(unit)) {
        Ok(head) => Ok(head),
        Err(CkdFault::BadHead(why)) => Err(Stop::Offline(Why::Head(why))),
        Err(_) => unreachable!(),
    }
}

/// The label of a unit with this head.
fn label_of<P: Pool>(
    alloc: Global,
    journal: &mut Journal<P>,
    unit: u32,
    head: Head,
    hand: Option<Hand<'_>>,
) -> Result<Label, Stop>
    requires unit { unit < journal_of (P.shape journal.old.pool) }
    requires head { HasImage ((P.shape journal.old.pool).head unit) ((P.shape journal.old.pool).blocks unit) head }
    requires hand { IfSome hand (λ hand. length hand.slot.now ≡ (P.shape journal.old.pool).block_size unit) }
    ensures reads { OnlyReads P.Pool journal.old journal.new }
    ensures label { P.tells → IfOk result (IsLabelIn head (with_hand hand.entry ((P.disk journal.old.pool).state.contents unit) 0)) }
    ensures inside { IfOk result (λ label. IsInside head label.vtoc) }
    ensures stop { P.tells → IfErr result (IsLabelStop head (with_hand hand.entry ((P.disk journal.old.pool).state.contents unit) 0)) }
    ensures no_fill { IfErr result (FitsFillStop false) }
    ensures fault { IfErr result (StopsBy (IsUnitFault (P.faults journal.old.pool) (P.faults journal.new.pool))) }
{
    let slot = slot_at(alloc, journal, unit, 0, hand)?;
    label_in(alloc, head, &slot)
}

/// What the refusal of a VTOC makes of its unit.
fn stop_of(fault: VtocFault) -> Stop
    requires { IsFaultOfCheck fault }
    ensures stop { result ≡ stop_for fault }
    ensures no_fill { FitsFillStop false result }
{
    match fault {
        VtocFault::BadVtoc(track, number, why) => Stop::Offline(Why::Vtoc(track, number, why)),
        VtocFault::NoMemory => Stop::Fault(UnitFault::NoMemory),
        VtocFault::Indexed | VtocFault::VtocFull(..) => unreachable!(),
    }
}

/// The run of the VTOC of a label.
fn run_of(alloc: Global, head: Head, label: &Label, slot: &[u8]) -> Result<Run, Stop>
    requires { length slot.now ≤ 65536 }
    ensures run { IfOk result (λ run. (slots : Slots) → slots (track_at (heads_of head.device) label.now.vtoc.at) ≡ slot.now → IsVtocRun head slots label.now.vtoc run) }
    ensures stop { IfErr result (λ stop. (sliding : Bool) (slots : Slots) → slots (track_at (heads_of head.device) label.now.vtoc.at) ≡ slot.now
        → IsVtocStop sliding head slots label.now stop) }
    ensures no_fill { IfErr result (FitsFillStop false) }
    ensures memory { IfErr result (StopsBy IsMemory) }
{
    match vtoc_run(alloc, head, label, slot) {
        Ok(run) => Ok(run),
        Err(fault) => Err(stop_of(fault)),
    }
}

/// The volume of the VTOC in these slots, while a slide is open on it or not.
fn volume_in(
    alloc: Global,
    head: Head,
    label: &Label,
    run: Run,
    slots: &[u8],
    sliding: bool,
) -> Result<Volume, Stop>
    requires tracks { head.tracks ≤ 65535 }
    requires whole { length slots.now ≡ run.len * slot_of head.device }
    requires run { IsVtocRun head (slot_in run (slot_of head.device) slots.now) label.now.vtoc run }
    ensures loaded { IfOk result (λ loaded. (unit : Slots) → AreSlotsOf run (slot_of head.device) slots.now unit → IsLoadedVtoc head label.now unit sliding loaded) }
    ensures stop { IfErr result (λ stop. (unit : Slots) → AreSlotsOf run (slot_of head.device) slots.now unit → IsVtocStop sliding head unit label.now stop) }
    ensures no_fill { IfErr result (FitsFillStop false) }
    ensures memory { IfErr result (StopsBy IsMemory) }
{
    match load_vtoc(alloc, head, label, run, slots, sliding) {
        Ok(volume) => Ok(volume),
        Err(fault) => Err(stop_of(fault)),
    }
}

/// The volume of a label, by the VTOC that it names, and the slots of that VTOC.
fn volume_of<P: Pool>(
    alloc: Global,
    journal: &mut Journal<P>,
    unit: u32,
    head: Head,
    label: &Label,
    sliding: bool,
    hand: Option<Hand<'_>>,
) -> Result<(Volume, Vec<u8>), Stop>
    requires unit { unit < journal_of (P.shape journal.old.pool) }
    requires head { HasImage ((P.shape journal.old.pool).head unit) ((P.shape journal.old.pool).blocks unit) head }
    requires inside { IsInside head label.now.vtoc }
    requires hand { IfSome hand (λ hand. length hand.slot.now ≡ (P.shape journal.old.pool).block_size unit) }
    ensures reads { OnlyReads P.Pool journal.old journal.new }
    ensures volume { P.tells → IfOk result (λ found. IsLoadedVtoc head label.now (with_hand hand.entry ((P.disk journal.old.pool).state.contents unit)) sliding found.0) }
    ensures slots { P.tells → IfOk result (λ found. AreSlotsOf found.0.vtoc (slot_of found.0.device)
        found.1.items (with_hand hand.entry ((P.disk journal.old.pool).state.contents unit))) }
    ensures kept { IfOk result (λ found. IsFromSlots sliding ((P.shape journal.old.pool).head unit) ((P.shape journal.old.pool).blocks unit) found.0 found.1.items) }
    ensures stop { P.tells → IfErr result (IsVtocStop sliding head (with_hand hand.entry ((P.disk journal.old.pool).state.contents unit)) label.now) }
    ensures no_fill { IfErr result (FitsFillStop false) }
    ensures fault { IfErr result (StopsBy (IsUnitFault (P.faults journal.old.pool) (P.faults journal.new.pool))) }
{
    let track = head.device.track_of(label.vtoc.at);
    let slot = slot_at(alloc, journal, unit, track, hand)?;
    let run = run_of(alloc, head, label, &slot)?;
    let taken = Hand { track, slot: &slot };
    let slots = read_run(alloc, journal, unit, run, taken, hand)?;
    let volume = volume_in(alloc, head, label, run, &slots, sliding)?;
    Ok((volume, slots))
}

/// The volume on a unit, by its head, its label and its VTOC, and the slots of that VTOC. While a fill is open on it, there is none.
fn find_volume<P: Pool>(
    alloc: Global,
    journal: &mut Journal<P>,
    unit: u32,
    under_way: UnderWay,
    hand: Option<Hand<'_>>,
) -> Result<(Volume, Vec<u8>), Stop>
    requires unit { unit < journal_of (P.shape journal.old.pool) }
    requires hand { IfSome hand (λ hand. length hand.slot.now ≡ (P.shape journal.old.pool).block_size unit) }
    ensures reads { OnlyReads P.Pool journal.old journal.new }
    ensures volume { P.tells → IfOk result (λ found. IsStateOf (is_sliding_now under_way) ((P.shape journal.old.pool).head unit) ((P.shape journal.old.pool).blocks unit)
        (with_hand hand.entry ((P.disk journal.old.pool).state.contents unit)) (states.Online found.0)) }
    ensures fill { IfOk result (λ found. FitsFill (is_filling_now under_way) (states.Online found.0)) }
    ensures slots { P.tells → IfOk result (λ found. AreSlotsOf found.0.vtoc (slot_of found.0.device)
        found.1.items (with_hand hand.entry ((P.disk journal.old.pool).state.contents unit))) }
    ensures kept { IfOk result (λ found. IsFromSlots (is_sliding_now under_way) ((P.shape journal.old.pool).head unit) ((P.shape journal.old.pool).blocks unit)
        found.0 found.1.items) }
    ensures stop { P.tells → IfErr result (IsStateStop (is_sliding_now under_way) ((P.shape journal.old.pool).head unit) ((P.shape journal.old.pool).blocks unit)
        (with_hand hand.entry ((P.disk journal.old.pool).state.contents unit))) }
    ensures fill_stop { IfErr result (FitsFillStop (is_filling_now under_way)) }
    ensures fault { IfErr result (StopsBy (IsUnitFault (P.faults journal.old.pool) (P.faults journal.new.pool))) }
{
    let head = head_of(journal, unit)?;
    if under_way.is_fill() {
        return Err(Stop::Offline(Why::Filling));
    }
    let label = label_of(alloc, journal, unit, head, hand)?;
    volume_of(
        alloc,
        journal,
        unit,
        head,
        &label,
        under_way.is_slide(),
        hand,
    )
}
