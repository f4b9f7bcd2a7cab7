//! Writing lines.

ghost use Rattle.std.specs.Prelude.{◌≡◌, ◌⊎◌, ◌≤◌, ◌++◌, OnOk, OnErr};
ghost use Rattle.dasd_pool.specs.Count.{Rose, HasCause};
ghost use Rattle.dasd_pool.specs.Stream.{Appends, AppendsSome};
ghost use Rattle.run_lines.specs.Endings.{last_line};
ghost use Rattle.run_lines.specs.Texts.{AppendsLess, Tells};
ghost use Rattle.run_lines.specs.declared.ending.RunEnd.TheVariants as ends;

use crate::ending::RunEnd;
use ckd_image::text::tail;
use dasd_pool::{Sink, WriteFault};

/// Writes all of a text.
pub fn write_all<O: Sink>(out: &mut O, text: &[u8]) -> Result<(), WriteFault>
    ensures written { OnOk result (Appends (O.taken out.old) (O.taken out.new) text.now) }
    ensures some { AppendsSome (O.taken out.old) (O.taken out.new) text.now }
    ensures less { OnErr result (AppendsLess (O.taken out.old) (O.taken out.new) text.now) }
    ensures cause { HasCause (O.faults out.old) (O.faults out.new) result }
{
    let mut rest = text;
    while !rest.is_empty() {
        let count = out.write(rest)?;
        if count == 0 {
            return Err(WriteFault);
        }
        rest = tail(rest, count);
    }
    Ok(())
}

/// Tries to write the last line of a run that ended. A fault of that write changes nothing of the end.
pub fn tell<O: Sink>(out: &mut O, end: RunEnd)
    ensures told { Tells (O.taken out.old) (O.taken out.new) (O.faults out.old) (O.faults out.new) (last_line end) }
    ensures later { O.faults out.old ≤ O.faults out.new }
{
    let _ = write_all(out, end.line().as_slice());
}

/// Writes a line and behind it the last line of a run.
fn write_behind<O: Sink>(out: &mut O, line: &[u8], end: RunEnd) -> Result<(), WriteFault>
    ensures written { OnOk result (Appends (O.taken out.old) (O.taken out.new) (line.now ++ last_line end)) }
    ensures some { AppendsSome (O.taken out.old) (O.taken out.new) (line.now ++ last_line end) }
    ensures cause { HasCause (O.faults out.old) (O.faults out.new) result }
{
    write_all(out, line)?;
    write_all(out, end.line().as_slice())
}

/// Tries to write a line and behind it the last line of a run that ended.
pub fn tell_behind<O: Sink>(out: &mut O, line: &[u8], end: RunEnd)
    ensures told { Tells (O.taken out.old) (O.taken out.new) (O.faults out.old) (O.faults out.new) (line.now ++ last_line end) }
    ensures later { O.faults out.old ≤ O.faults out.new }
{
    let _ = write_behind(out, line, end);
}

/// Writes the last line of a run that did what it was asked for, and says how it ended: so, or with a sink that failed.
pub fn close<O: Sink>(out: &mut O, end: RunEnd) -> RunEnd
    ensures ended { ((result ≡ end) × Appends (O.taken out.old) (O.taken out.new) (last_line end))
        ⊎ ((result ≡ ends.Sink) × AppendsLess (O.taken out.old) (O.taken out.new) (last_line end) × Rose (O.faults out.old) (O.faults out.new)) }
    ensures later { O.faults out.old ≤ O.faults out.new }
{
    match write_all(out, end.line().as_slice()) {
        Ok(()) => end,
        Err(_) => RunEnd::Sink,
    }
}
