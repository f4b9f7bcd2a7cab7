//! What a DUMP says once it ended.

ghost use Rattle.std.specs.Prelude.{◌≡◌, ◌++◌, ◌≤◌, ◌<◌, All, length, List, IfOk, OnOk, map};
ghost use Rattle.dsn_filter.specs.Dsn.{IsDsn};
ghost use Rattle.job_lines.specs.declared.message.Message.{Message as MessageOf};
ghost use Rattle.dump_sets.specs.Telling.{SaysSets, lost_lines, some_whole, taken_of};

use ckd_image::NoMemory;
use dd_names::DdName;
use dsn_filter::Dsn;
use dump_fmt::{OutDd, OutState, Seen};
use job_lines::{Message, Reason, Severity};
use std::alloc::Global;
use volume_change::name_bytes;

/// Whether one of the outputs at these places is whole.
pub(crate) fn is_whole(outs: &[OutDd], places: &[u32]) -> bool
    requires { All (λ place. place < length outs.now) places.now }
    ensures { result ≡ some_whole (map ⟦<OutDd as Seen>⟧.seen outs.now) places.now }
{
    for place in places {
        if outs[*place as usize].state == OutState::Whole {
            return true;
        }
    }
    false
}

/// Adds of each data set why it isn't dumped or, where an output is whole, that it is.
pub(crate) fn push_sets(
    names: &[Dsn],
    told: &[Option<Reason>],
    whole: bool,
    said: &mut Vec<Message>,
) -> Result<(), NoMemory>
    requires names { All IsDsn names.now }
    requires count { length told.now ≡ length names.now }
    ensures { OnOk result ((more : List MessageOf) × SaysSets whole names.now told.now more × (said.new.items ≡ said.old.items ++ more)) }
{
    for (name, reason) in names.iter().zip(told) {
        match reason {
            Some(reason) => {
                let text = name_bytes(name);
                said.push(Message::NotProcessed(text, *reason, Severity::Error))?;
            }
            None if whole => said.push(Message::Dumped(name_bytes(name)))?,
            None => {}
        }
    }
    Ok(())
}

/// Adds that outputs are lost, in the order in which they are named.
pub(crate) fn push_lost(
    outs: &[OutDd],
    names: &[DdName],
    places: &[u32],
    said: &mut Vec<Message>,
) -> Result<(), NoMemory>
    requires count { length places.now ≡ length names.now }
    requires within { All (λ place. place < length outs.now) places.now }
    ensures { OnOk result (said.new.items ≡ said.old.items ++ lost_lines (map ⟦<OutDd as Seen>⟧.seen outs.now) names.now places.now) }
{
    for (name, place) in names.iter().zip(places) {
        if outs[*place as usize].state == OutState::Lost {
            said.push(Message::OutputLost(*name))?;
        }
    }
    Ok(())
}

/// The names of the data sets that are dumped.
pub(crate) fn taken(
    alloc: Global,
    names: &[Dsn],
    told: &[Option<Reason>],
) -> Result<Vec<Dsn>, NoMemory>
    requires { length told.now ≡ length names.now }
    ensures { IfOk result (λ taken. taken.items ≡ taken_of names.now told.now) }
{
    let mut taken = Vec::new(alloc);
    for (name, reason) in names.iter().zip(told) {
        if reason.is_none() {
            taken.push(*name)?;
        }
    }
    Ok(taken)
}
