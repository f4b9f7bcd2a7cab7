//! The numbers of WAIT, token by token.

ghost use Rattle.std.specs.Prelude.{◌≡◌, ◌↔◌, ℕ, IsTrue, OnOk, IfOk, IfErr};
ghost use Rattle.sysin_values.specs.declared.fault.ValueFault.TheVariants as faults;
ghost use Rattle.sysin_values.specs.declared.place.WaitPlace.TheVariants as places;
ghost use Rattle.sysin_values.specs.Wait.{SaysWait, WaitGoes, WaitStops};
ghost use Rattle.sysin_values.specs.NoValue.{SaysNone};

use crate::fault::ValueFault;
use crate::place::WaitPlace;
use crate::words::number_within;
use std::marker::Model;
use sysin_text::Token;

/// Reads the two numbers of WAIT, which have no effect. After an `Err` it is of no more use.
#[derive(Debug, Drop)]
pub struct WaitNumbers {
    place: WaitPlace,
}

impl Model for WaitNumbers {
    ghost use Rattle.sysin_values.specs.declared.place.WaitPlace.{WaitPlace};

    ghost Value = { WaitPlace };

    ghost view = { λ r. r.place };
}

impl WaitNumbers {
    pub fn new() -> WaitNumbers
        ensures { result ≡ places.First }
    {
        WaitNumbers {
            place: WaitPlace::First,
        }
    }

    /// Reads the next token.
    pub fn take(&mut self, token: &Token) -> Result<(), ValueFault>
        ensures taken { OnOk result (WaitGoes self.old token.now self.new) }
        ensures refused { IfErr result (WaitStops self.old token.now) }
    {
        match (self.place, token) {
            (WaitPlace::First, Token::Word(word)) => self.place = behind(
                word.as_slice(),
                WaitPlace::Between,
            )?,
            (WaitPlace::Between, Token::Comma) => self.place = WaitPlace::Second,
            (WaitPlace::Second, Token::Word(word)) => self.place = behind(
                word.as_slice(),
                WaitPlace::Ended,
            )?,
            _ => return Err(ValueFault::Word),
        }
        Ok(())
    }

    /// Whether both numbers were read.
    pub fn has_ended(&self) -> bool
        ensures { IsTrue result ↔ (self.now ≡ places.Ended) }
    {
        self.place == WaitPlace::Ended
    }
}

/// This place, where the word says a number.
fn behind(word: &[u8], place: WaitPlace) -> Result<WaitPlace, ValueFault>
    ensures says { IfOk result (λ new. (new ≡ place) × (number : ℕ) × SaysWait word.now number) }
    ensures none { IfErr result (λ fault. (fault ≡ faults.Value) × SaysNone SaysWait word.now) }
{
    match number_within(0, u32::MAX, word) {
        Some(_) => Ok(place),
        None => Err(ValueFault::Value),
    }
}
