//! The lines of a statement.

ghost use Rattle.std.specs.Prelude.{◌≡◌, ◌≤◌, OnOk, IfOk, IfErr};
ghost use Rattle.dasd_pool.specs.Count.{Rose};
ghost use Rattle.dasd_pool.specs.Stream.{Appends, AppendsSome};
ghost use Rattle.run_lines.specs.Texts.{AppendsLess};
ghost use Rattle.job_script.specs.Runs.{lines_in};
ghost use Rattle.job_script.specs.declared.lines.LinesFault.TheVariants as faults;

use ckd_image::NoMemory;
use dasd_pool::{Sink, WriteFault};
use job_lines::{Message, line_of};
use run_lines::write_all;
use std::alloc::Global;
use thiserror::Error;

/// Why lines are not all written.
#[derive(Clone, Copy, Debug, PartialEq, Eq, Error)]
pub enum LinesFault {
    #[error("the sink failed")]
    Sink,
    #[error("out of memory")]
    NoMemory,
}

impl From<WriteFault> for LinesFault {
    ghost from_gives = { λ _ fault. fault ≡ faults.Sink };

    fn from(_: WriteFault) -> LinesFault {
        LinesFault::Sink
    }
}

impl From<NoMemory> for LinesFault {
    ghost from_gives = { λ _ fault. fault ≡ faults.NoMemory };

    fn from(_: NoMemory) -> LinesFault {
        LinesFault::NoMemory
    }
}

/// How many lines are written at once, at most.
const LINES: usize = 256;

/// The lines of messages of a statement, one behind the other.
fn text_of(alloc: Global, statement: u32, messages: &[Message]) -> Result<Vec<u8>, NoMemory>
    ensures { IfOk result (λ text. text.items ≡ lines_in statement messages.now) }
{
    let mut text = Vec::new(alloc);
    for message in messages {
        let line = line_of(alloc, statement, message)?;
        text.extend_from_slice(line.as_str().as_bytes())?;
    }
    Ok(text)
}

/// Writes the lines of some messages of a statement at once.
fn write_together<O: Sink>(
    alloc: Global,
    out: &mut O,
    statement: u32,
    messages: &[Message],
) -> Result<(), LinesFault>
    ensures written { OnOk result (Appends (O.taken out.old) (O.taken out.new) (lines_in statement messages.now)) }
    ensures some { AppendsSome (O.taken out.old) (O.taken out.new) (lines_in statement messages.now) }
    ensures less { IfErr result (λ fault. fault ≡ LinesFault.Sink → AppendsLess (O.taken out.old) (O.taken out.new) (lines_in statement messages.now)) }
    ensures cause { IfErr result (λ fault. fault ≡ LinesFault.Sink → Rose (O.faults out.old) (O.faults out.new)) }
    ensures later { O.faults out.old ≤ O.faults out.new }
{
    let text = text_of(alloc, statement, messages)?;
    Ok(write_all(out, text.as_slice())?)
}

/// Writes the lines of the messages of a statement, in few writes.
pub fn write_messages<O: Sink>(
    alloc: Global,
    out: &mut O,
    statement: u32,
    messages: &[Message],
) -> Result<(), LinesFault>
    ensures written { OnOk result (Appends (O.taken out.old) (O.taken out.new) (lines_in statement messages.now)) }
    ensures some { AppendsSome (O.taken out.old) (O.taken out.new) (lines_in statement messages.now) }
    ensures less { IfErr result (λ fault. fault ≡ LinesFault.Sink → AppendsLess (O.taken out.old) (O.taken out.new) (lines_in statement messages.now)) }
    ensures cause { IfErr result (λ fault. fault ≡ LinesFault.Sink → Rose (O.faults out.old) (O.faults out.new)) }
    ensures later { O.faults out.old ≤ O.faults out.new }
{
    let mut rest = messages;
    while !rest.is_empty() {
        let (now, later) = rest.split_at(rest.len().min(LINES));
        write_together(alloc, out, statement, now)?;
        rest = later;
    }
    Ok(())
}
