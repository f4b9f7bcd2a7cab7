//! Lists of patterns, token by token.

ghost use Rattle.std.specs.Prelude.{◌≡◌, ◌↔◌, false, IsTrue, OnOk, IfErr};
ghost use Rattle.sysin_values.specs.Values.{SaysPattern, most_entries};
ghost use Rattle.sysin_values.specs.Progress.{start, Goes, Stops};

use crate::fault::ValueFault;
use crate::words::pattern_of;
use ckd_image::Listed;
use std::alloc::Global;
use std::marker::Model;
use sysin_lang::Patterns;
use sysin_text::Token;

/// How many patterns a list has at most.
const MOST_PATTERNS: usize = 255;

/// Reads a list of patterns. After an `Err` it is of no more use.
#[derive(Drop)]
pub struct PatternList {
    alloc: Global,
    list: Patterns,
    wants: bool,
}

impl Model for PatternList {
    ghost use Rattle.std.specs.Prelude.{ℕ, List};
    ghost use Rattle.sysin_values.specs.Progress.{Progress};

    ghost Value = { Progress (List (List ℕ)) };

    ghost view = { λ r. record { list = r.list; wants = r.wants } };
}

impl PatternList {
    pub fn new(alloc: Global) -> PatternList
        ensures { result ≡ start }
    {
        PatternList {
            alloc,
            list: Listed::new(alloc),
            wants: true,
        }
    }

    /// Reads the next token.
    pub fn take(&mut self, token: &Token) -> Result<(), ValueFault>
        ensures taken { OnOk result (Goes SaysPattern most_entries self.old token.now self.new) }
        ensures refused { IfErr result (Stops SaysPattern most_entries self.old token.now) }
    {
        match (self.wants, token) {
            (false, Token::Comma) => self.wants = true,
            (true, Token::Word(_)) if self.list.len() >= MOST_PATTERNS => return Err(
                ValueFault::Count,
            ),
            (true, Token::Word(word)) => {
                self.list.push(pattern_of(self.alloc, word.as_slice())?)?;
                self.wants = false;
            }
            _ => return Err(ValueFault::Word),
        }
        Ok(())
    }

    /// Whether the list may end here.
    pub fn has_ended(&self) -> bool
        ensures { IsTrue result ↔ (self.now.wants ≡ false) }
    {
        !self.wants
    }

    /// The patterns that were read.
    pub fn finish(self) -> Patterns
        ensures { result ≡ self.list }
    {
        let PatternList { list, .. } = self;
        list
    }
}
