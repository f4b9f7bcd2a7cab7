//! Names in the code page.

ghost use Rattle.std.specs.Prelude.{◌≡◌, ℕ, Some};
ghost use Rattle.dsn_filter.specs.Dsn.{IsDsn};
ghost use Rattle.vol_label.specs.CodePage.{ascii_of};
ghost use Rattle.volume_model.specs.Pinned.{IsNameOf};

use dsn_filter::Dsn;
use vol_label::{BLANK, to_ebcdic};

/// The byte of a character of a name.
fn code_of(character: u8) -> u8
    requires { (code : ℕ) × (ascii_of code ≡ Some character) }
    ensures { ascii_of result ≡ Some character }
{
    match to_ebcdic(character) {
        Some(code) => code,
        None => BLANK,
    }
}

/// A name in the code page, filled up with blanks.
pub fn name_bytes(name: &Dsn) -> [u8; 44]
    requires { IsDsn name.now }
    ensures { IsNameOf name.now result }
{
    let mut bytes = [BLANK; 44];
    for place in 0..usize::from(name.len) {
        bytes[place] = code_of(name.text[place]);
    }
    bytes
}
