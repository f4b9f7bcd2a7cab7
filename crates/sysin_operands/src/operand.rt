//! Operands, token by token.

ghost use Rattle.std.specs.Prelude.{◌≡◌, IfOk, IfErr, IfSome, IfNone};
ghost use Rattle.sysin_forms.specs.declared.operand.Operand.{Operand as OperandOf};
ghost use Rattle.sysin_text.specs.declared.token.Token.TheVariants as tokens;
ghost use Rattle.sysin_values.specs.declared.fault.ValueFault.TheVariants as faults;
ghost use Rattle.sysin_operands.specs.Content.{start_of, ContentStops, ContentIsRead, CanEnd};
ghost use Rattle.sysin_operands.specs.Operand.{OperandIsRead, ClosesOrGoes, OperandGoes, OperandStops, OperandGives};
ghost use Rattle.sysin_operands.specs.declared.operand.OperandPlace.TheVariants as places;

use crate::bracket::{Bracket, alone_of, bracket_of};
use crate::content::Content;
use std::alloc::Global;
use sysin_forms::Operand;
use sysin_text::Token;
use sysin_values::ValueFault;
use sysin_words::{Verb, keyword_of};

/// What is read of an operand so far.
#[derive(Drop)]
pub enum OperandPlace {
    /// Nothing.
    Start,
    /// A keyword that has brackets.
    Named(Bracket),
    /// Its first bracket, and what stands behind that.
    Inside(Bracket, Content),
    /// All of it.
    Ended(Operand),
}

/// Reads an operand of a command with this verb that isn't DATASET.
#[derive(Drop)]
pub struct OperandReading {
    pub verb: Verb,
    pub place: OperandPlace,
}

impl OperandReading {
    pub fn new(verb: Verb) -> OperandReading
        ensures { result ≡ record { verb = verb; place = places.Start } }
    {
        OperandReading {
            verb,
            place: OperandPlace::Start,
        }
    }

    /// What is read with one more token.
    pub fn take(self, alloc: Global, token: &Token) -> Result<OperandReading, ValueFault>
        requires { OperandIsRead self.verb self.place }
        ensures verb { IfOk result (λ new. new.verb ≡ self.verb) }
        ensures taken { IfOk result (λ new. OperandGoes self.verb self.place token.now new.place) }
        ensures refused { IfErr result (OperandStops self.verb self.place token.now) }
    {
        let OperandReading { verb, place } = self;
        let place = match place {
            OperandPlace::Start => started(verb, token)?,
            OperandPlace::Named(bracket) => opened(alloc, bracket, token)?,
            OperandPlace::Inside(bracket, content) => inside(bracket, content, token)?,
            OperandPlace::Ended(_) => return Err(ValueFault::Word),
        };
        Ok(OperandReading { verb, place })
    }

    /// The operand, where it is read whole.
    pub fn finish(self) -> Option<Operand>
        ensures some { IfSome result (OperandGives self.place) }
        ensures none { IfNone result ((operand : OperandOf) → ¬ OperandGives self.place operand) }
    {
        match self.place {
            OperandPlace::Ended(operand) => Some(operand),
            _ => None,
        }
    }
}

/// What is behind a keyword.
fn started(verb: Verb, token: &Token) -> Result<OperandPlace, ValueFault>
    ensures taken { IfOk result (OperandGoes verb places.Start token.now) }
    ensures refused { IfErr result (OperandStops verb places.Start token.now) }
{
    let Token::Word(word) = token else {
        return Err(ValueFault::Word);
    };
    let Some(keyword) = keyword_of(word.as_slice()) else {
        return Err(ValueFault::Word);
    };
    if let Some(operand) = alone_of(keyword) {
        return Ok(OperandPlace::Ended(operand));
    }
    match bracket_of(verb, keyword) {
        Some(bracket) => Ok(OperandPlace::Named(bracket)),
        None => Err(ValueFault::Word),
    }
}

/// What is behind a first bracket.
fn opened(alloc: Global, bracket: Bracket, token: &Token) -> Result<OperandPlace, ValueFault>
    ensures taken { IfOk result (λ new. (token.now ≡ tokens.Open) × (new ≡ places.Inside bracket (start_of bracket))) }
    ensures refused { IfErr result (λ fault. (fault ≡ faults.Word) × ¬ (token.now ≡ tokens.Open)) }
{
    match token {
        Token::Open => Ok(OperandPlace::Inside(bracket, Content::new(alloc, bracket))),
        _ => Err(ValueFault::Word),
    }
}

/// What is behind a token in brackets, or behind the last bracket.
fn inside(bracket: Bracket, content: Content, token: &Token) -> Result<OperandPlace, ValueFault>
    requires { ContentIsRead content }
    ensures taken { IfOk result (ClosesOrGoes bracket content token.now) }
    ensures refused { IfErr result (λ fault. (token.now ≡ tokens.Close → ¬ CanEnd content) × ContentStops content token.now fault) }
{
    match token {
        Token::Close if content.has_ended() => Ok(OperandPlace::Ended(content.finish())),
        _ => Ok(OperandPlace::Inside(bracket, content.take(token)?)),
    }
}
