//! Patterns of data set names.

ghost use Rattle.std.specs.Prelude.{◌≡◌, ◌↔◌, IfOk, IfErr, IsTrue};
ghost use Rattle.dsn_filter.specs.declared.dsn.Dsn.{Dsn};
ghost use Rattle.dsn_filter.specs.Text.{qualifiers, IsSpelled};
ghost use Rattle.dsn_filter.specs.Qualifier.{IsPatternPart};
ghost use Rattle.dsn_filter.specs.Dsn.{qualifiers_of, IsDsn};
ghost use Rattle.dsn_filter.specs.Matching.{Matches};
ghost use Rattle.dsn_filter.specs.NameFault.{IsPatternFault};

use crate::dsn::Dsn;
use crate::fault::NameFault;
use crate::matching::{first_part, fits_name};
use crate::part::{Kind, scan};
use ckd_image::{Bytes, Listed, NoMemory};
use std::alloc::Global;
use std::marker::Model;

/// A pattern of data set names. Contracts see the list of its qualifiers, in capitals.
#[derive(Debug, Drop)]
pub struct Pattern {
    parts: Listed<Bytes>,
}

impl Model for Pattern {
    ghost use Rattle.std.specs.Prelude.{ℕ, List};

    ghost Value = { List (List ℕ) };

    ghost view = { λ p. p.parts };
}

impl Pattern {
    /// Small letters are read as capitals.
    pub fn read(alloc: Global, text: &[u8]) -> Result<Pattern, NameFault>
        // What is read is spelled by the text.
        ensures read { IfOk result (λ pattern. IsSpelled IsPatternPart pattern text.now) }

        // A text is refused exactly where it stops to be the beginning of a pattern.
        ensures refused { IfErr result (IsPatternFault text.now) }
    {
        let mut capital = [0; 44];
        match scan(Kind::Pattern, text, &mut capital) {
            Ok(len) => {
                let parts = parts_of(alloc, &capital[..len as usize])?;
                Ok(Pattern { parts })
            }
            Err(place) => Err(NameFault::BadPattern(place)),
        }
    }

    pub fn matches(&self, name: &Dsn) -> bool
        requires { IsDsn name.now }
        ensures { IsTrue result ↔ Matches self.now (qualifiers_of name.now) }
    {
        fits_name(self.parts.as_slice(), name.as_slice())
    }
}

/// The qualifiers of a text.
fn parts_of(alloc: Global, text: &[u8]) -> Result<Listed<Bytes>, NoMemory>
    ensures { IfOk result (λ parts. parts ≡ qualifiers text.now) }
{
    let mut parts = Listed::new(alloc);
    let mut rest = Some(text);
    while let Some(text) = rest {
        let (part, behind) = first_part(text);
        let part = Bytes::from_slice(alloc, part)?;
        parts.push(part)?;
        rest = behind;
    }
    Ok(parts)
}
