//! The data set names that 44 bytes are.

ghost use Rattle.std.specs.Prelude.{◌≡◌, ◌≢◌, ◌<◌, ◌≤◌, ◌-◌, ◌↔◌, ◌==◌, ℕ, IsTrue, None, Some, IfSome, IfNone, slice_index};
ghost use Rattle.dsn_filter.specs.declared.dsn.Dsn.{Dsn as DsnOf};
ghost use Rattle.dsn_filter.specs.Dsn.{IsDsn};
ghost use Rattle.vol_label.specs.CodePage.{ascii_of};
ghost use Rattle.volume_model.specs.Pinned.{IsNameOf};
ghost use Rattle.vtoc_core.specs.Named.{IsByteOf};

use dsn_filter::Dsn;
use vol_label::{BLANK, to_ascii};

/// Whether a byte is the character of a name at a place, or a blank behind it.
fn is_byte_of(byte: u8, name: Dsn, place: usize) -> bool
    requires { place < 44 }
    ensures { IsTrue result ↔ IsByteOf name place byte }
{
    if place < usize::from(name.len) {
        to_ascii(byte) == Some(name.text[place])
    } else {
        byte == BLANK
    }
}

/// Whether 44 bytes are a name in the code page, filled up with blanks.
pub fn is_named(bytes: &[u8; 44], name: Dsn) -> bool
    requires { name.len ≤ 44 }
    ensures { IsTrue result ↔ IsNameOf name bytes.now }
{
    for place in 0..44 {
        if !is_byte_of(bytes[place], name, place) {
            return false;
        }
    }
    true
}

/// How many bytes stand ahead of the blanks that fill a name.
fn name_len(name: &[u8; 44]) -> usize
    ensures within { result ≤ 44 }
    ensures blanks { (k : ℕ) → result ≤ k → k < 44 → slice_index name.now k ≡ 0x40 }
    ensures last { 0 < result → slice_index name.now (result - 1) ≢ 0x40 }
{
    let mut len = 0;
    for (place, byte) in name.iter().enumerate() {
        if *byte != BLANK {
            len = place + 1;
        }
    }
    len
}

/// The characters of so many bytes, with zeros behind them.
fn characters_of(name: &[u8; 44], len: usize) -> Option<[u8; 44]>
    requires { len ≤ 44 }
    ensures found { IfSome result (λ text. (k : ℕ) → k < len → ascii_of (slice_index name.now k) ≡ Some (slice_index text k)) }
    ensures none { IfNone result ((k : ℕ) × (k < len) × (ascii_of (slice_index name.now k) ≡ None)) }
{
    let mut text = [0; 44];
    for place in 0..len {
        let Some(character) = to_ascii(name[place]) else {
            return None;
        };
        text[place] = character;
    }
    Some(text)
}

/// The data set name that 44 bytes are in the code page, if they are one.
pub fn dsn_of(name: &[u8; 44]) -> Option<Dsn>
    ensures found { IfSome result (λ dsn. IsDsn dsn × IsNameOf dsn name.now) }
    ensures none { IfNone result ((dsn : DsnOf) → IsDsn dsn → ¬ IsNameOf dsn name.now) }
{
    let len = name_len(name);
    let text = characters_of(name, len)?;
    Dsn::read(&text[..len]).ok()
}
