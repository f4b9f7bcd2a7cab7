//! The new names of RENAMEUNCONDITIONAL, token by token.

ghost use Rattle.std.specs.Prelude.{◌≡◌, ◌↔◌, IsTrue, OnOk, IfErr};
ghost use Rattle.sysin_values.specs.Names.{names_start, NamesGo, NamesStop, HaveEnded, rename_of};

use crate::fault::ValueFault;
use crate::pairs::PairList;
use crate::words::prefix_of;
use dsn_filter::{Dsn, Rename};
use std::alloc::Global;
use std::marker::Model;
use sysin_text::Token;

/// Reads a prefix, or pairs of names. After an `Err` it is of no more use.
#[derive(Drop)]
pub struct NewNames {
    prefix: Option<Dsn>,
    pairs: PairList,
}

impl Model for NewNames {
    ghost use Rattle.sysin_values.specs.Names.{NameProgress};

    ghost Value = { NameProgress };

    ghost view = { λ r. record { prefix = r.prefix; pairs = r.pairs } };
}

impl NewNames {
    pub fn new(alloc: Global) -> NewNames
        ensures { result ≡ names_start }
    {
        NewNames {
            prefix: None,
            pairs: PairList::new(alloc),
        }
    }

    /// Reads the next token.
    pub fn take(&mut self, token: &Token) -> Result<(), ValueFault>
        ensures taken { OnOk result (NamesGo self.old token.now self.new) }
        ensures refused { IfErr result (NamesStop self.old token.now) }
    {
        if self.prefix.is_some() {
            return Err(ValueFault::Word);
        }
        match token {
            Token::Word(word) if self.pairs.is_start() => {
                let Some(prefix) = prefix_of(word.as_slice()) else {
                    return Err(ValueFault::Value);
                };
                self.prefix = Some(prefix);
                Ok(())
            }
            _ => self.pairs.take(token),
        }
    }

    /// Whether the names may end here.
    pub fn has_ended(&self) -> bool
        ensures { IsTrue result ↔ HaveEnded self.now }
    {
        match self.prefix {
            Some(_) => true,
            None => self.pairs.has_ended(),
        }
    }

    /// The names that were read.
    pub fn finish(self) -> Rename
        ensures { result ≡ rename_of self }
    {
        let NewNames { prefix, pairs } = self;
        match prefix {
            Some(prefix) => Rename::Prefix(prefix),
            None => Rename::Listed(pairs.finish()),
        }
    }
}
