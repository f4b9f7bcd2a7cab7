//! Reading a text.

ghost use Rattle.std.specs.Prelude.{◌≡◌, ◌⊎◌, ◌≤◌, true, length, IfOk, IfErr};
ghost use Rattle.sysin_lang.specs.Script.{plan_of_script};
ghost use Rattle.sysin_text.specs.Tokens.{tokens_of};
ghost use Rattle.sysin_read.specs.declared.fault.Stop.TheVariants as stops;
ghost use Rattle.sysin_read.specs.declared.fault.SysinFault.TheVariants as faults;
ghost use Rattle.sysin_read.specs.declared.fault.Why.{Why as WhyOf};
ghost use Rattle.sysin_read.specs.Statement.{IsText};
ghost use Rattle.sysin_read.specs.Refusal.{IsRefusal};

use crate::fault::{Stop, SysinFault};
use crate::text::TextReading;
use std::alloc::Global;
use sysin_lang::Script;
use sysin_text::Tokens;

/// Reads a SYSIN text.
pub fn read_sysin(alloc: Global, text: &[u8]) -> Result<Script, SysinFault>
    requires { length text.now ≤ 1048576 }
    ensures read { IfOk result (λ script. IsText true (plan_of_script script) (tokens_of text.now)) }
    ensures refused { IfErr result (IsRefusal (tokens_of text.now)) }
{
    let mut tokens = Tokens::of(text);
    let mut reading = TextReading::new(alloc);
    let mut line = 1;
    let mut column = 1;
    'each: while let Some(placed) = tokens.take() {
        match reading.take(alloc, &placed) {
            Ok(new) => reading = new,
            Err(stop) => return Err(fault(stop, placed.line, placed.column)),
        }
        line = placed.line;
        column = placed.column + placed.token.width() as u32;
    }
    match reading.finish(alloc) {
        Ok(script) => Ok(script),
        Err(stop) => Err(fault(stop, line, column)),
    }
}

/// A refusal at this place.
fn fault(stop: Stop, line: u32, column: u32) -> SysinFault
    ensures { ((stop ≡ stops.NoMemory) × (result ≡ faults.NoMemory)) ⊎ ((why : WhyOf) × (stop ≡ stops.Wrong why) × (result ≡ faults.BadStatement line column why)) }
{
    match stop {
        Stop::Wrong(why) => SysinFault::BadStatement(line, column, why),
        Stop::NoMemory => SysinFault::NoMemory,
    }
}
