//! Criteria, token by token.

ghost use Rattle.std.specs.Prelude.{◌≡◌, ◌↔◌, List, OnOk, IfErr, IsTrue};
ghost use Rattle.by_rules.specs.Token.{symbol_of};
ghost use Rattle.by_rules.specs.Reading.{start, HasEnded};
ghost use Rattle.sysin_text.specs.declared.token.Token.{Token as Sign};
ghost use Rattle.sysin_values.specs.Values as values;
ghost use Rattle.sysin_values.specs.Criteria.{CriteriaGo, CriteriaStop, CriteriaReads, criteria_fault};
ghost use Rattle.sysin_values.specs.declared.fault.ValueFault.TheVariants as faults;

use crate::fault::ValueFault;
use by_rules::{ByFault, Criteria, Reading};
use std::alloc::Global;
use std::marker::Model;
use sysin_text::Token;

/// Reads criteria. After an `Err` it is of no more use.
#[derive(Drop)]
pub struct CriteriaList {
    reading: Reading,
}

impl Model for CriteriaList {
    ghost use Rattle.by_rules.specs.Reading.{Machine};

    ghost Value = { Machine };

    ghost view = { λ r. r.reading };
}

impl CriteriaList {
    pub fn new(alloc: Global) -> CriteriaList
        ensures { result ≡ start }
    {
        CriteriaList {
            reading: Reading::new(alloc),
        }
    }

    /// Reads the next token.
    pub fn take(&mut self, token: &Token) -> Result<(), ValueFault>
        ensures taken { OnOk result (CriteriaGo self.old token.now self.new) }
        ensures refused { IfErr result (CriteriaStop self.old token.now) }
    {
        let is_full = self.reading.is_full();
        match self.reading.take(rule_of(token), 0) {
            Ok(()) => Ok(()),
            Err(ByFault::NoMemory) => Err(ValueFault::NoMemory),
            Err(ByFault::BadCriterion(_)) => Err(fault_of(is_full, token)),
        }
    }

    /// Whether the criteria may end here.
    pub fn has_ended(&self) -> bool
        ensures { IsTrue result ↔ HasEnded self.now }
    {
        self.reading.has_ended()
    }

    /// The criteria that were read.
    pub fn finish(self) -> Criteria
        requires read { (tokens : List Sign) × CriteriaReads self tokens }
        requires ended { HasEnded self }
        ensures { result ≡ self.criteria }
    {
        let CriteriaList { reading } = self;
        reading.finish()
    }
}

/// Why a token among criteria is wrong.
fn fault_of(is_full: bool, token: &Token) -> ValueFault
    ensures { result ≡ criteria_fault is_full token.now }
{
    match token {
        Token::Open if is_full => ValueFault::Count,
        Token::Word(_) => ValueFault::Value,
        _ => ValueFault::Word,
    }
}

/// A token as criteria have it.
fn rule_of(token: &Token) -> by_rules::Token<'_>
    ensures { symbol_of result ≡ values.rule_of token.now }
{
    match token {
        Token::Open => by_rules::Token::Open,
        Token::Close => by_rules::Token::Close,
        Token::Comma => by_rules::Token::Comma,
        Token::Word(word) => by_rules::Token::Word(word.as_slice()),
        Token::Other(byte) => by_rules::Token::Other(*byte),
        _ => by_rules::Token::Other(b'='),
    }
}
