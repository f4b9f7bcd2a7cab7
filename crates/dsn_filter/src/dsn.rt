//! Data set names.

ghost use Rattle.std.specs.Prelude.{◌≡◌, ◌≤◌, ◌↔◌, IsTrue, IfOk, IfErr};
ghost use Rattle.dsn_filter.specs.declared.dsn.Dsn.{Dsn};
ghost use Rattle.dsn_filter.specs.Dsn.{text_of, dsn_of, IsNameText};
ghost use Rattle.dsn_filter.specs.NameFault.{IsNameFault};

use crate::fault::NameFault;
use crate::part::{Kind, scan};
use ckd_image::text::same;

/// A data set name: its characters in the first `len` bytes, and zeros behind them.
#[derive(Clone, Copy, Debug, PartialEq, Eq)]
pub struct Dsn {
    pub len: u8,
    pub text: [u8; 44],
}

impl Dsn {
    /// Small letters are read as capitals.
    pub fn read(text: &[u8]) -> Result<Dsn, NameFault>
        // What is read is a name, and is kept in capitals.
        ensures read { IfOk result (λ name. IsNameText text.now × (name ≡ dsn_of text.now)) }

        // A text is refused exactly where it stops to be the beginning of a name.
        ensures refused { IfErr result (IsNameFault text.now) }
    {
        let mut capital = [0; 44];
        match scan(Kind::Name, text, &mut capital) {
            Ok(len) => Ok(Dsn { len, text: capital }),
            Err(place) => Err(NameFault::BadName(place)),
        }
    }

    /// The characters of the name.
    pub fn as_slice(&self) -> &[u8]
        requires { self.now.len ≤ 44 }
        ensures { result.now ≡ text_of self.now }
    {
        &self.text[..self.len as usize]
    }

    pub fn is_same(&self, other: &Dsn) -> bool
        ensures { IsTrue result ↔ (self.now ≡ other.now) }
    {
        self.len == other.len && same(&self.text, &other.text)
    }
}
