//! Lists of pairs of names, token by token.

ghost use Rattle.std.specs.Prelude.{◌≡◌, ◌↔◌, IsTrue, OnOk, IfOk, IfErr};
ghost use Rattle.sysin_values.specs.declared.fault.ValueFault.TheVariants as faults;
ghost use Rattle.sysin_values.specs.declared.place.PairPlace.TheVariants as places;
ghost use Rattle.sysin_values.specs.Pairs.{pair_start, IsPairStart, PairGoes, PairStops};
ghost use Rattle.sysin_values.specs.Values.{SaysName};
ghost use Rattle.sysin_values.specs.NoValue.{SaysNone};

use crate::fault::ValueFault;
use crate::place::PairPlace;
use crate::words::name_of;
use ckd_image::Listed;
use dsn_filter::{Dsn, Pairs};
use std::alloc::Global;
use std::marker::Model;
use sysin_text::Token;

/// How many pairs a list has at most.
const MOST_PAIRS: usize = 255;

/// Reads a list of pairs of names. After an `Err` it is of no more use.
#[derive(Drop)]
pub struct PairList {
    list: Pairs,
    place: PairPlace,
}

impl Model for PairList {
    ghost use Rattle.sysin_values.specs.Pairs.{PairProgress};

    ghost Value = { PairProgress };

    ghost view = { λ r. record { list = r.list; place = r.place } };
}

impl PairList {
    pub fn new(alloc: Global) -> PairList
        ensures { result ≡ pair_start }
    {
        PairList {
            list: Listed::new(alloc),
            place: PairPlace::Before,
        }
    }

    /// Reads the next token.
    pub fn take(&mut self, token: &Token) -> Result<(), ValueFault>
        ensures taken { OnOk result (PairGoes self.old token.now self.new) }
        ensures refused { IfErr result (PairStops self.old token.now) }
    {
        match (self.place, token) {
            (PairPlace::Before, Token::Open) if self.list.len() >= MOST_PAIRS => return Err(
                ValueFault::Count,
            ),
            (PairPlace::Before, Token::Open) => self.place = PairPlace::Opened,
            (PairPlace::Opened, Token::Word(word)) => {
                self.place = PairPlace::Old(name_in(word.as_slice())?);
            }
            (PairPlace::Old(old), Token::Comma) => self.place = PairPlace::Middle(old),
            (PairPlace::Middle(old), Token::Word(word)) => {
                self.place = PairPlace::New(old, name_in(word.as_slice())?);
            }
            (PairPlace::New(old, new), Token::Close) => {
                self.list.push((old, new))?;
                self.place = PairPlace::Behind;
            }
            (PairPlace::Behind, Token::Comma) => self.place = PairPlace::Before,
            _ => return Err(ValueFault::Word),
        }
        Ok(())
    }

    /// Whether nothing was read.
    pub(crate) fn is_start(&self) -> bool
        ensures { IsTrue result ↔ IsPairStart self.now }
    {
        matches!(self.place, PairPlace::Before) && self.list.is_empty()
    }

    /// Whether the list may end here.
    pub fn has_ended(&self) -> bool
        ensures { IsTrue result ↔ (self.now.place ≡ places.Behind) }
    {
        matches!(self.place, PairPlace::Behind)
    }

    /// The pairs that were read.
    pub fn finish(self) -> Pairs
        ensures { result ≡ self.list }
    {
        let PairList { list, .. } = self;
        list
    }
}

fn name_in(word: &[u8]) -> Result<Dsn, ValueFault>
    ensures says { IfOk result (SaysName word.now) }
    ensures none { IfErr result (λ fault. (fault ≡ faults.Value) × SaysNone SaysName word.now) }
{
    match name_of(word) {
        Some(name) => Ok(name),
        None => Err(ValueFault::Value),
    }
}
