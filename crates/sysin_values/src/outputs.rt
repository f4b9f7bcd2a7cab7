//! Lists of DD names, token by token.

ghost use Rattle.std.specs.Prelude.{◌≡◌, ◌↔◌, false, IsTrue, OnOk, IfErr};
ghost use Rattle.sysin_values.specs.Values.{SaysDdName, most_outputs};
ghost use Rattle.sysin_values.specs.Progress.{start, Goes, Stops};

use crate::fault::ValueFault;
use crate::words::dd_name_of;
use ckd_image::Listed;
use std::alloc::Global;
use std::marker::Model;
use sysin_lang::DdNames;
use sysin_text::Token;

/// How many outputs a dump has at most.
const MOST_OUTPUTS: usize = 16;

/// Reads the list of the outputs of a dump. After an `Err` it is of no more use.
#[derive(Drop)]
pub struct OutputList {
    list: DdNames,
    wants: bool,
}

impl Model for OutputList {
    ghost use Rattle.dd_names.specs.declared.dd.DdName.{DdName};
    ghost use Rattle.sysin_values.specs.Progress.{Progress};

    ghost Value = { Progress DdName };

    ghost view = { λ r. record { list = r.list; wants = r.wants } };
}

impl OutputList {
    pub fn new(alloc: Global) -> OutputList
        ensures { result ≡ start }
    {
        OutputList {
            list: Listed::new(alloc),
            wants: true,
        }
    }

    /// Reads the next token.
    pub fn take(&mut self, token: &Token) -> Result<(), ValueFault>
        ensures taken { OnOk result (Goes SaysDdName most_outputs self.old token.now self.new) }
        ensures refused { IfErr result (Stops SaysDdName most_outputs self.old token.now) }
    {
        match (self.wants, token) {
            (false, Token::Comma) => self.wants = true,
            (true, Token::Word(_)) if self.list.len() >= MOST_OUTPUTS => return Err(
                ValueFault::Count,
            ),
            (true, Token::Word(word)) => {
                let Some(name) = dd_name_of(word.as_slice()) else {
                    return Err(ValueFault::Value);
                };
                self.list.push(name)?;
                self.wants = false;
            }
            _ => return Err(ValueFault::Word),
        }
        Ok(())
    }

    /// Whether the list may end here.
    pub fn has_ended(&self) -> bool
        ensures { IsTrue result ↔ (self.now.wants ≡ false) }
    {
        !self.wants
    }

    /// The names that were read.
    pub fn finish(self) -> DdNames
        ensures { result ≡ self.list }
    {
        let OutputList { list, .. } = self;
        list
    }
}
