//! Which outputs the names of a statement stand for.

ghost use Rattle.std.specs.Prelude.{◌≡◌, ◌↔◌, ◌<◌, All, Some, IsTrue, IfOk, IfErr, IfSome, IfNone, length, map, slice_get};
ghost use Rattle.dump_fmt.specs.Outs.{AreDistinct};
ghost use Rattle.job_outputs.specs.Outputs.{AreKnown, ArePlacesOf, IsMissing, IsPlaceOf, IsTold, IsUsedBefore, LetsOutputs, RefusesOutputs, StandsTwice};
ghost use Rattle.job_outputs.specs.declared.places.OutputsFault.TheVariants as faults;
ghost use Rattle.job_lines.specs.declared.message.Message.TheVariants as messages;
ghost use Rattle.job_lines.specs.Order.{IsFirst};

use dd_names::DdName;
use dump_fmt::{OutDd, OutState, Seen};
use job_lines::Message;
use std::alloc::{AllocFailed, Global};
use thiserror::Error;

/// Why the outputs of a statement don't stand ready.
#[derive(Clone, Copy, Debug, PartialEq, Eq, Error)]
pub enum OutputsFault {
    /// With this message.
    #[error("the statement is refused")]
    Refused(Message),
    #[error("out of memory")]
    NoMemory,
}

impl<T: Drop> From<AllocFailed<T>> for OutputsFault {
    ghost from_gives = { λ _ fault. fault ≡ faults.NoMemory };

    fn from(_: AllocFailed<T>) -> OutputsFault {
        OutputsFault::NoMemory
    }
}

/// The place of the first output of a name.
fn place_of(outs: &[OutDd], name: &DdName) -> Option<usize>
    ensures found { IfSome result (IsPlaceOf (map ⟦<OutDd as Seen>⟧.seen outs.now) name.now) }
    ensures none { IfNone result (IsMissing (map ⟦<OutDd as Seen>⟧.seen outs.now) name.now) }
{
    for (place, out) in outs.iter().enumerate() {
        if out.name.is_same(name) {
            return Some(place);
        }
    }
    None
}

/// The place of the output of each name. A place that 32 bits don't count is told as want of memory.
fn known_places(alloc: Global, outs: &[OutDd], names: &[DdName]) -> Result<Vec<u32>, OutputsFault>
    ensures places { IfOk result (λ places. ArePlacesOf (map ⟦<OutDd as Seen>⟧.seen outs.now) names.now places.items) }
    ensures refused { IfErr result (IsTold (λ message. (name : _) × (message ≡ messages.UnknownFile name) × IsFirst (IsMissing (map ⟦<OutDd as Seen>⟧.seen outs.now)) names.now name)) }
{
    let mut places = Vec::new(alloc);
    for name in names {
        let Some(place) = place_of(outs, name) else {
            return Err(OutputsFault::Refused(Message::UnknownFile(*name)));
        };
        let Ok(place) = u32::try_from(place) else {
            return Err(OutputsFault::NoMemory);
        };
        places.push(place)?;
    }
    Ok(places)
}

/// Whether a name stands twice among names.
fn is_twice(names: &[DdName], name: &DdName) -> bool
    ensures { IsTrue result ↔ StandsTwice names.now name.now }
{
    let mut seen = false;
    for other in names {
        if other.is_same(name) {
            if seen {
                return true;
            }
            seen = true;
        }
    }
    false
}

/// The first name whose output was used before, or that stands twice.
fn used_name(outs: &[OutDd], names: &[DdName], places: &[u32]) -> Option<DdName>
    requires { ArePlacesOf (map ⟦<OutDd as Seen>⟧.seen outs.now) names.now places.now }
    ensures used { IfSome result (IsFirst (IsUsedBefore (map ⟦<OutDd as Seen>⟧.seen outs.now) names.now) names.now) }
    ensures none { IfNone result (All (λ name. ¬ IsUsedBefore (map ⟦<OutDd as Seen>⟧.seen outs.now) names.now name) names.now) }
{
    for (name, place) in names.iter().zip(places) {
        if outs[*place as usize].state != OutState::Unused || is_twice(names, name) {
            return Some(*name);
        }
    }
    None
}

/// The places of the outputs that a statement names, or the message that refuses it: an unknown name, else one that was used before; of several the first.
pub fn places_of(alloc: Global, outs: &[OutDd], names: &[DdName]) -> Result<Vec<u32>, OutputsFault>
    ensures places { IfOk result (λ places. ArePlacesOf (map ⟦<OutDd as Seen>⟧.seen outs.now) names.now places.items) }
    ensures lets { IfOk result (λ places. LetsOutputs (map ⟦<OutDd as Seen>⟧.seen outs.now) names.now) }

    // They are what a dump may be begun on.
    ensures within { IfOk result (λ places. All (λ place. place < length outs.now) places.items) }
    ensures distinct { IfOk result (λ places. AreDistinct places.items) }
    ensures unused { IfOk result (λ places. All (λ place. slice_get (map (λ out. out.state) outs.now) place ≡ Some OutState.Unused) places.items) }
    ensures refused { IfErr result (IsTold (RefusesOutputs (map ⟦<OutDd as Seen>⟧.seen outs.now) names.now)) }
{
    let places = known_places(alloc, outs, names)?;
    match used_name(outs, names, &places) {
        Some(name) => Err(OutputsFault::Refused(Message::OutputUsed(name))),
        None => Ok(places),
    }
}
