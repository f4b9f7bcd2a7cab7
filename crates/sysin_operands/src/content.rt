//! What stands in the brackets of an operand, token by token.

ghost use Rattle.std.specs.Prelude.{◌≡◌, ◌↔◌, ℕ, List, IsTrue, IfOk, IfErr, IfSome, IfNone};
ghost use Rattle.sysin_forms.specs.declared.operand.Operand.{Operand as OperandOf};
ghost use Rattle.sysin_text.specs.declared.token.Token.TheVariants as tokens;
ghost use Rattle.sysin_operands.specs.Bracket.{SaysSingle};
ghost use Rattle.sysin_operands.specs.Content.{start_of, ContentGoes, SingleStops, ContentStops, ContentGives, ContentIsRead, CanEnd};

use crate::bracket::{Bracket, Single};
use std::alloc::Global;
use sysin_forms::Operand;
use sysin_text::Token;
use sysin_values::{
    CriteriaList, NewNames, OutputList, PatternList, ValueFault, WaitNumbers, dd_name_of,
    number_within, serial_of,
};

/// What is read in brackets so far. Contracts see what each of its readers has read.
#[derive(Drop)]
pub enum Content {
    /// Nothing, where one word stands.
    Single(Single),
    /// The word.
    Said(Operand),
    Include(PatternList),
    Exclude(PatternList),
    By(CriteriaList),
    Outputs(OutputList),
    Rename(NewNames),
    Wait(WaitNumbers),
}

impl Content {
    pub fn new(alloc: Global, bracket: Bracket) -> Content
        ensures { result ≡ start_of bracket }
    {
        match bracket {
            Bracket::Single(single) => Content::Single(single),
            Bracket::Include => Content::Include(PatternList::new(alloc)),
            Bracket::Exclude => Content::Exclude(PatternList::new(alloc)),
            Bracket::By => Content::By(CriteriaList::new(alloc)),
            Bracket::Outputs => Content::Outputs(OutputList::new(alloc)),
            Bracket::Rename => Content::Rename(NewNames::new(alloc)),
            Bracket::Wait => Content::Wait(WaitNumbers::new()),
        }
    }

    /// What is read with one more token.
    pub fn take(self, token: &Token) -> Result<Content, ValueFault>
        ensures taken { IfOk result (ContentGoes self token.now) }
        ensures refused { IfErr result (ContentStops self token.now) }
    {
        Ok(match self {
            Content::Single(single) => Content::Said(word_of(single, token)?),
            Content::Said(_) => return Err(ValueFault::Word),
            Content::Include(mut list) => {
                list.take(token)?;
                Content::Include(list)
            }
            Content::Exclude(mut list) => {
                list.take(token)?;
                Content::Exclude(list)
            }
            Content::By(mut list) => {
                list.take(token)?;
                Content::By(list)
            }
            Content::Outputs(mut list) => {
                list.take(token)?;
                Content::Outputs(list)
            }
            Content::Rename(mut names) => {
                names.take(token)?;
                Content::Rename(names)
            }
            Content::Wait(mut numbers) => {
                numbers.take(token)?;
                Content::Wait(numbers)
            }
        })
    }

    /// Whether the bracket may be closed here.
    pub fn has_ended(&self) -> bool
        ensures { IsTrue result ↔ CanEnd self.now }
    {
        match self {
            Content::Single(_) => false,
            Content::Said(_) => true,
            Content::Include(list) => list.has_ended(),
            Content::Exclude(list) => list.has_ended(),
            Content::By(list) => list.has_ended(),
            Content::Outputs(list) => list.has_ended(),
            Content::Rename(names) => names.has_ended(),
            Content::Wait(numbers) => numbers.has_ended(),
        }
    }

    /// The operand that was read, where the bracket may be closed.
    pub fn finish(self) -> Operand
        requires read { ContentIsRead self }
        requires ended { CanEnd self }
        ensures { ContentGives self result }
    {
        match self {
            Content::Single(_) => unreachable!(),
            Content::Said(operand) => operand,
            Content::Include(list) => Operand::Include(list.finish()),
            Content::Exclude(list) => Operand::Exclude(list.finish()),
            Content::By(list) => Operand::By(list.finish()),
            Content::Outputs(list) => Operand::Outputs(list.finish()),
            Content::Rename(names) => Operand::Rename(names.finish()),
            Content::Wait(_) => Operand::Wait,
        }
    }
}

/// The operand that a token says, where it is a word that says one.
fn word_of(single: Single, token: &Token) -> Result<Operand, ValueFault>
    ensures says { IfOk result (λ operand. (word : List ℕ) × (token.now ≡ tokens.Word word) × SaysSingle single word operand) }
    ensures refused { IfErr result (SingleStops single token.now) }
{
    let Token::Word(word) = token else {
        return Err(ValueFault::Word);
    };
    match said(single, word.as_slice()) {
        Some(operand) => Ok(operand),
        None => Err(ValueFault::Value),
    }
}

/// The operand that a word says, if it says one.
fn said(single: Single, word: &[u8]) -> Option<Operand>
    ensures says { IfSome result (SaysSingle single word.now) }
    ensures none { IfNone result ((operand : OperandOf) → ¬ SaysSingle single word.now operand) }
{
    match single {
        Single::Unit => Some(Operand::Unit(serial_of(word)?)),
        Single::LogicalUnit => Some(Operand::LogicalUnit(serial_of(word)?)),
        Single::Input => Some(Operand::Input(dd_name_of(word)?)),
        Single::Target => Some(Operand::Target(serial_of(word)?)),
        Single::Index => Some(Operand::Index(number_within(1, 999, word)?)),
        Single::Limit => Some(Operand::Limit(number_within(1, 65_535, word)?)),
        Single::Tolerate if word == b"ENQF".as_slice() => Some(Operand::Tolerate),
        Single::Tolerate => None,
        Single::Optimize => {
            let _number = number_within(1, 4, word)?;
            Some(Operand::Optimize)
        }
    }
}
