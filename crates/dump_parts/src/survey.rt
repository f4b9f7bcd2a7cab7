//! The first reading of a dump: whether it is one, and which of its parts a filter takes.

ghost use Rattle.std.specs.Prelude.{◌≡◌, ◌≤◌, IfOk, IfErr, OnOk};
ghost use Rattle.by_rules.specs.Day.{IsToday};
ghost use Rattle.dump_read.specs.Faults.{IsDumpFault};
ghost use Rattle.dump_read.specs.Reader.{HasItsCause};
ghost use Rattle.dump_parts.specs.Reading.{BeginsParts, EndsDump, HasRead};
ghost use Rattle.dump_parts.specs.Taken.{IsSurveyOf, TakesTo};

use crate::parts::{next_part, pass_part};
use crate::taken::passes;
use by_rules::Day;
use dump_fmt::{DumpFault, DumpHead};
use dump_read::{DumpReader, Tape};
use std::alloc::Global;
use sysin_lang::Filter;

/// What the first reading of a dump found: its header, and of a logical dump for each part whether the filter takes it.
#[derive(Debug, Drop)]
pub struct Survey {
    pub head: DumpHead,
    pub taken: Vec<bool>,
}

/// Reads on to the end of the dump.
fn pass_all<R: Tape>(reader: &mut DumpReader, reel: &mut R) -> Result<(), DumpFault>
    requires { HasRead (R.seen reel.old) reader.old }
    ensures whole { OnOk result (EndsDump (R.seen reel.new) reader.new) }
    ensures refused { IfErr result (IsDumpFault (R.seen reel.new).held) }
    ensures head { reader.new.head ≡ reader.old.head }
    ensures same { (R.seen reel.new).held ≡ (R.seen reel.old).held }
    ensures later { (R.seen reel.old).faults ≤ (R.seen reel.new).faults }
    ensures cause { IfErr result (HasItsCause (R.seen reel.old) (R.seen reel.new)) }
{
    'pieces: while reader.next(reel)?.is_some() {}
    Ok(())
}

/// Of each part of a logical dump whether the filter takes it.
fn taken_parts<R: Tape>(
    alloc: Global,
    reader: &mut DumpReader,
    reel: &mut R,
    filter: &Filter,
    today: Day,
) -> Result<Vec<bool>, DumpFault>
    requires begin { BeginsParts (R.seen reel.old) reader.old }
    requires today { IsToday today }
    ensures taken { IfOk result (λ taken. TakesTo filter.now today (R.seen reel.new).held reader.new.head taken.items) }
    ensures refused { IfErr result (IsDumpFault (R.seen reel.new).held) }
    ensures head { reader.new.head ≡ reader.old.head }
    ensures same { (R.seen reel.new).held ≡ (R.seen reel.old).held }
    ensures later { (R.seen reel.old).faults ≤ (R.seen reel.new).faults }
    ensures cause { IfErr result (HasItsCause (R.seen reel.old) (R.seen reel.new)) }
{
    let mut taken = Vec::new(alloc);
    'parts: while let Some(part) = next_part(reader, reel)? {
        let whole = pass_part(reader, reel)?;
        if taken.push(whole && passes(filter, today, &part)).is_err() {
            return Err(DumpFault::NoMemory);
        }
    }
    Ok(taken)
}

/// Reads the whole dump that a reel holds, and says of each of its parts whether a filter takes it. No track is kept.
pub fn look_through<R: Tape>(
    alloc: Global,
    reel: &mut R,
    filter: &Filter,
    today: Day,
) -> Result<Survey, DumpFault>
    requires today { IsToday today }
    ensures found { IfOk result (IsSurveyOf filter.now today (R.seen reel.new).held) }
    ensures refused { IfErr result (IsDumpFault (R.seen reel.new).held) }
    ensures same { (R.seen reel.new).held ≡ (R.seen reel.old).held }
    ensures later { (R.seen reel.old).faults ≤ (R.seen reel.new).faults }
    ensures cause { IfErr result (HasItsCause (R.seen reel.old) (R.seen reel.new)) }
{
    let mut reader = DumpReader::start(alloc, reel)?;
    let head = reader.head();
    if head.full {
        pass_all(&mut reader, reel)?;
        return Ok(Survey {
            head,
            taken: Vec::new(alloc),
        });
    }
    let taken = taken_parts(alloc, &mut reader, reel, filter, today)?;
    Ok(Survey { head, taken })
}
