//! Reading a table of holds.

ghost use Rattle.std.specs.Prelude.{◌≤◌, ◌<◌, [], length, IfOk, OnOk, IfErr};
ghost use Rattle.enq_table.specs.HeldText.{lines_of, TakesAll, Takes};
ghost use Rattle.enq_table.specs.Faults.{IsHeldFault, IsLineRefused};

use crate::fault::EnqFault;
use crate::held::Held;
use crate::line::{first_line, hold_of};
use std::alloc::Global;

/// Lines end with LF, or CR and LF, which the last may lack. Each is empty or holds something.
pub fn read_held(alloc: Global, text: &[u8]) -> Result<Held, EnqFault>
    requires { length text.now ≤ 1048576 }

    // The table has the holds of all lines in order.
    ensures read { IfOk result (TakesAll [] (lines_of text.now)) }

    // A text is refused for the first line that isn't taken.
    ensures refused { IfErr result (IsHeldFault text.now) }
{
    let mut held = Held::new(alloc);
    let mut number = 1;
    let mut rest = Some(text);
    while let Some(text) = rest {
        let (line, behind) = first_line(text);
        take_line(&mut held, number, line)?;
        number += 1;
        rest = behind;
    }
    Ok(held)
}

/// Adds what a line of this number holds.
fn take_line(held: &mut Held, number: u32, line: &[u8]) -> Result<(), EnqFault>
    requires { length line.now ≤ 1048576 }
    ensures taken { OnOk result (Takes held.old line.now held.new) }
    ensures refused { IfErr result (IsLineRefused held.old number line.now) }
{
    if line.is_empty() {
        return Ok(());
    }
    let hold = match hold_of(line) {
        Ok(hold) => hold,
        Err(place) => return Err(EnqFault::BadHeld(number, place + 1)),
    };
    match held.hold(hold.name, hold.mode, hold.holder) {
        Ok(()) => Ok(()),
        Err(EnqFault::NoMemory) => Err(EnqFault::NoMemory),
        Err(_) => Err(EnqFault::BadHeld(number, 5)),
    }
}
