//! Reading SET and IF token by token.

ghost use Rattle.std.specs.Prelude.{◌≡◌, ◌↔◌, Some, OnOk, IfErr, IfSome, IfNone, IsTrue};
ghost use Rattle.sysin_heads.specs.declared.head.Head.{Head as Said};
ghost use Rattle.sysin_heads.specs.declared.head.HeadPlace.{HeadPlace as At};
ghost use Rattle.sysin_heads.specs.declared.head.HeadPlace.TheVariants as places;
ghost use Rattle.sysin_text.specs.declared.token.Token.TheVariants as tokens;
ghost use Rattle.sysin_words.specs.declared.code.Which.{Which};
ghost use Rattle.sysin_heads.specs.Reading.{Goes, Stops, Gives, WantsCode, IsWordToken};

use crate::head::{Head, HeadPlace};
use std::marker::Model;
use sysin_text::Token;
use sysin_values::ValueFault;
use sysin_words::{Lead, code_of, is_then, lead_of, op_of, which_of};

/// Reads SET, or IF up to its THEN. After an `Err` it is of no more use.
#[derive(Debug, Drop)]
pub struct HeadReading {
    place: HeadPlace,
}

impl Model for HeadReading {
    ghost use Rattle.sysin_heads.specs.declared.head.HeadPlace.{HeadPlace};

    ghost Value = { HeadPlace };

    ghost view = { λ r. r.place };
}

impl HeadReading {
    pub fn new() -> HeadReading
        ensures { result ≡ places.Start }
    {
        HeadReading {
            place: HeadPlace::Start,
        }
    }

    /// Reads the next token.
    pub fn take(&mut self, token: &Token) -> Result<(), ValueFault>
        ensures taken { OnOk result (Goes self.old token.now self.new) }
        ensures refused { IfErr result (Stops self.old token.now) }
    {
        let place = self.place;
        match step(place, token) {
            Some(next) => self.place = next,
            None if wants_code(place) && is_word(token) => return Err(ValueFault::Value),
            None => return Err(ValueFault::Word),
        }
        Ok(())
    }

    /// What was read, where it ends here.
    pub fn finish(&self) -> Option<Head>
        ensures some { IfSome result (Gives self.now) }
        ensures none { IfNone result ((head : Said) → ¬ Gives self.now head) }
    {
        match self.place {
            HeadPlace::Ended(head) => Some(head),
            _ => None,
        }
    }
}

fn wants_code(place: HeadPlace) -> bool
    ensures { IsTrue result ↔ WantsCode place }
{
    matches!(place, HeadPlace::SetSign(_) | HeadPlace::IfOp(..))
}

fn is_word(token: &Token) -> bool
    ensures { IsTrue result ↔ IsWordToken token.now }
{
    matches!(token, Token::Word(_))
}

/// What is read with one more token.
fn step(place: HeadPlace, token: &Token) -> Option<HeadPlace>
    ensures some { IfSome result (λ new. Goes place token.now new) }
    ensures none { IfNone result ((new : At) → ¬ Goes place token.now new) }
{
    match (place, token) {
        (HeadPlace::SetName(which), Token::Equal) => Some(HeadPlace::SetSign(which)),
        (HeadPlace::IfName(which), _) => match op_of(token) {
            Some(op) => Some(HeadPlace::IfOp(which, op)),
            None => None,
        },
        (_, Token::Word(word)) => word_step(place, word.as_slice()),
        _ => None,
    }
}

fn word_step(place: HeadPlace, word: &[u8]) -> Option<HeadPlace>
    requires { (which : Which) → ¬ (place ≡ places.IfName which) }
    ensures some { IfSome result (λ new. Goes place (tokens.Word word.now) new) }
    ensures none { IfNone result ((new : At) → ¬ Goes place (tokens.Word word.now) new) }
{
    match place {
        HeadPlace::Start => first(word),
        HeadPlace::Set => match which_of(word) {
            Some(which) => Some(HeadPlace::SetName(which)),
            None => None,
        },
        HeadPlace::SetSign(which) => match code_of(word) {
            Some(code) => Some(HeadPlace::Ended(Head::Set(which, code))),
            None => None,
        },
        HeadPlace::If => match which_of(word) {
            Some(which) => Some(HeadPlace::IfName(which)),
            None => None,
        },
        HeadPlace::IfOp(which, op) => match code_of(word) {
            Some(code) => Some(HeadPlace::IfCode(which, op, code)),
            None => None,
        },
        HeadPlace::IfCode(which, op, code) if is_then(word) => Some(HeadPlace::Ended(Head::If(
            which, op, code,
        ))),
        _ => None,
    }
}

fn first(word: &[u8]) -> Option<HeadPlace>
    ensures some { IfSome result (λ new. Goes places.Start (tokens.Word word.now) new) }
    ensures none { IfNone result ((new : At) → ¬ Goes places.Start (tokens.Word word.now) new) }
{
    match lead_of(word) {
        Some(Lead::Set) => Some(HeadPlace::Set),
        Some(Lead::If) => Some(HeadPlace::If),
        _ => None,
    }
}
