//! Reading criteria token by token.

ghost use Rattle.std.specs.Prelude.{◌≡◌, List, Some, None, OnOk, IfErr, IsTrue, ◌↔◌, length};
ghost use Rattle.by_rules.specs.Token.{Symbol, symbol_of};
ghost use Rattle.by_rules.specs.Grammar.{most_criteria};
ghost use Rattle.by_rules.specs.Reading.{start, next, run, Stops, HasEnded};

use crate::criteria::Criteria;
use crate::criterion::{Criterion, Value};
use crate::fault::ByFault;
use crate::state::{State, Step};
use crate::token::Token;
use ckd_image::Listed;
use std::alloc::Global;
use std::marker::Model;
use std::mem;

const MOST_CRITERIA: usize = 255;

/// Reads criteria from tokens handed in one by one. After an `Err` it is of no more use.
#[derive(Drop)]
pub struct Reading {
    alloc: Global,
    state: State,
    criteria: Listed<Criterion>,
    values: Listed<Value>,
}

impl Model for Reading {
    ghost use Rattle.by_rules.specs.Reading.{Machine};

    ghost Value = { Machine };

    ghost view = { λ r. record { state = r.state; criteria = r.criteria; values = r.values } };
}

impl Reading {
    pub fn new(alloc: Global) -> Reading
        ensures { result ≡ start }
    {
        Reading {
            alloc,
            state: State::Start,
            criteria: Listed::new(alloc),
            values: Listed::new(alloc),
        }
    }

    /// Reads the next token, which stands at the offset.
    pub fn take(&mut self, token: Token<'_>, offset: u32) -> Result<(), ByFault>
        ensures taken { OnOk result (next self.old (symbol_of token.entry) ≡ Some self.new) }
        ensures refused { IfErr result (Stops self.old (symbol_of token.entry) offset) }
    {
        match self.state.step(token) {
            None => return Err(ByFault::BadCriterion(offset)),
            Some(Step::Begin) if self.criteria.len() == MOST_CRITERIA => {
                return Err(ByFault::BadCriterion(offset));
            }
            Some(Step::Begin) => self.state = State::Opened,
            Some(Step::Go(state)) => self.state = state,
            Some(Step::Keep(value, state)) => {
                self.values.push(value)?;
                self.state = state;
            }
            Some(Step::End(test)) => {
                let values = mem::replace(&mut self.values, Listed::new(self.alloc));
                self.criteria.push(Criterion {
                    key: test.key,
                    op: test.op,
                    values,
                })?;
                self.state = State::Ended;
            }
        }
        Ok(())
    }

    /// Whether the text may end here.
    pub fn has_ended(&self) -> bool
        ensures { IsTrue result ↔ HasEnded self.now }
    {
        self.state == State::Ended
    }

    /// Whether there are as many criteria as there may be.
    pub fn is_full(&self) -> bool
        ensures { IsTrue result ↔ (length self.now.criteria ≡ most_criteria) }
    {
        self.criteria.len() == MOST_CRITERIA
    }

    /// The criteria that were read.
    pub fn finish(self) -> Criteria
        requires read { (tokens : List Symbol) × (run start tokens ≡ Some self) }
        requires ended { HasEnded self }
        ensures { result ≡ self.criteria }
    {
        Criteria::of(self.into_criteria())
    }

    pub(crate) fn into_criteria(self) -> Listed<Criterion>
        ensures { result ≡ self.criteria }
    {
        let Reading { criteria, .. } = self;
        criteria
    }
}
