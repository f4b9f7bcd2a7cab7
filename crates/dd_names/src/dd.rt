//! DD names.

ghost use Rattle.std.specs.Prelude.{◌≡◌, ◌↔◌, IsTrue, IfSome, IfNone};
ghost use Rattle.dsn_filter.specs.OneQualifier.{IsQualifierText};
ghost use Rattle.dd_names.specs.DdName.{dd_name_of};

use ckd_image::text::same;
use dsn_filter::Qualifier;

/// A DD name in ASCII, of the form of one qualifier: its characters in the first `len` bytes, and zeros behind them.
#[derive(Clone, Copy, Debug, PartialEq, Eq)]
pub struct DdName {
    pub len: u8,
    pub text: [u8; 8],
}

impl DdName {
    /// Small letters are read as capitals.
    pub fn read(text: &[u8]) -> Option<DdName>
        // What is read is a name, and is kept in capitals.
        ensures read { IfSome result (λ name. IsQualifierText text.now × (name ≡ dd_name_of text.now)) }

        // Only what is no name isn't read.
        ensures none { IfNone result (¬ IsQualifierText text.now) }
    {
        let Ok(word) = Qualifier::read(text) else {
            return None;
        };
        let len = word.len;
        let text = word.text;
        Some(DdName { len, text })
    }

    pub fn is_same(&self, other: &DdName) -> bool
        ensures { IsTrue result ↔ (self.now ≡ other.now) }
    {
        self.len == other.len && same(&self.text, &other.text)
    }
}
