//! A word that has the form of one qualifier.

ghost use Rattle.std.specs.Prelude.{◌≡◌, ◌≤◌, ◌↔◌, IsTrue, IfOk, IfErr};
ghost use Rattle.dsn_filter.specs.NameFault.{IsQualifierFault};
ghost use Rattle.dsn_filter.specs.OneQualifier.{IsQualifierText, IsOneQualifier, word_of, qualifier_of};
ghost use Rattle.dsn_filter.specs.Dsn.{text_of, IsDsn};
ghost use Rattle.dsn_filter.specs.Rename.{IsPrefix};

use crate::dsn::Dsn;
use crate::fault::NameFault;
use crate::part::{between, name_goes_on};
use ckd_image::text::{put_over, same};

/// A word such as a holder or a DD name: its characters in the first `len` bytes, and zeros behind them.
#[derive(Clone, Copy, Debug, PartialEq, Eq)]
pub struct Qualifier {
    pub len: u8,
    pub text: [u8; 8],
}

impl Qualifier {
    /// Small letters are read as capitals.
    pub fn read(text: &[u8]) -> Result<Qualifier, NameFault>
        ensures read { IfOk result (λ word. IsQualifierText text.now × (word ≡ qualifier_of text.now)) }
        ensures refused { IfErr result (IsQualifierFault text.now) }
    {
        let mut capital = [0; 8];
        for (place, byte) in text.iter().enumerate() {
            let byte = byte.to_ascii_uppercase();
            if !name_goes_on(between(&capital, 0, place), byte) {
                return Err(NameFault::BadName(place as u32));
            }
            capital[place] = byte;
        }
        if text.is_empty() {
            return Err(NameFault::BadName(0));
        }
        Ok(Qualifier {
            len: text.len() as u8,
            text: capital,
        })
    }

    /// The characters of the word.
    pub fn as_slice(&self) -> &[u8]
        requires { self.now.len ≤ 8 }
        ensures { result.now ≡ word_of self.now }
    {
        &self.text[..self.len as usize]
    }

    /// The name of this qualifier alone, such as a prefix.
    pub fn to_name(&self) -> Dsn
        requires { IsOneQualifier self.now }
        ensures name { IsDsn result }
        ensures prefix { IsPrefix result }
        ensures same { text_of result ≡ word_of self.now }
    {
        let mut text = [0; 44];
        put_over(&mut text, 0, self.as_slice());
        Dsn {
            len: self.len,
            text,
        }
    }

    pub fn is_same(&self, other: &Qualifier) -> bool
        ensures { IsTrue result ↔ (self.now ≡ other.now) }
    {
        self.len == other.len && same(&self.text, &other.text)
    }
}
