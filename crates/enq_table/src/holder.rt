//! Who holds a data set.

ghost use Rattle.std.specs.Prelude.{◌≡◌, ◌↔◌, IsTrue, IfOk, IfErr};
ghost use Rattle.dsn_filter.specs.NameFault.{IsQualifierFault};
ghost use Rattle.dsn_filter.specs.OneQualifier.{IsQualifierText};
ghost use Rattle.enq_table.specs.Holder.{holder_of};

use ckd_image::text::same;
use dsn_filter::{NameFault, Qualifier};

/// A holder's name, of the form of one qualifier: its characters in the first `len` bytes, and zeros behind them.
#[derive(Clone, Copy, Debug, PartialEq, Eq)]
pub struct Holder {
    pub len: u8,
    pub text: [u8; 8],
}

impl Holder {
    /// Small letters are read as capitals.
    pub fn read(text: &[u8]) -> Result<Holder, NameFault>
        ensures read { IfOk result (λ holder. IsQualifierText text.now × (holder ≡ holder_of text.now)) }
        ensures refused { IfErr result (IsQualifierFault text.now) }
    {
        let Qualifier { len, text } = Qualifier::read(text)?;
        Ok(Holder { len, text })
    }

    pub fn is_same(&self, other: &Holder) -> bool
        ensures { IsTrue result ↔ (self.now ≡ other.now) }
    {
        self.len == other.len && same(&self.text, &other.text)
    }
}
