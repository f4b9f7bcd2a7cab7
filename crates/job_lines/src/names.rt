//! Names of the code page as they are printed.

ghost use Rattle.std.specs.Prelude.{◌≡◌, ◌<◌, ◌≤◌, nat_lt, if◌then◌else◌, IfOk, length, string_bytes, unwrap_or};
ghost use Rattle.vol_label.specs.CodePage.{ascii_of};
ghost use Rattle.job_lines.specs.Names.{dd_text, trimmed as trimmed_bytes, printed};

use dd_names::DdName;
use std::alloc::{AllocError, Global};
use vol_label::{BLANK, to_ascii};

/// The bytes without trailing blanks.
pub fn trimmed(bytes: &[u8]) -> &[u8]
    ensures text { result.now ≡ trimmed_bytes bytes.now }
    ensures short { length result.now ≤ length bytes.now }
{
    let mut end = bytes.len();
    while end > 0 && bytes[end - 1] == BLANK {
        end -= 1;
    }
    &bytes[..end]
}

/// A byte of the code page in ASCII; a question mark for what the code page lacks.
pub fn printed_byte(byte: u8) -> u8
    ensures value { result ≡ unwrap_or (ascii_of byte) 63 }
    ensures ascii { result < 128 }
{
    to_ascii(byte).unwrap_or(b'?')
}

/// The same as a character.
fn printed_character(byte: u8) -> char
    ensures value { result ≡ unwrap_or (ascii_of byte) 63 }
    ensures ascii { result < 128 }
{
    char::from(printed_byte(byte))
}

/// A name in the code page as it is printed.
pub(crate) fn printed_name(alloc: Global, bytes: &[u8]) -> Result<String, AllocError>
    ensures { IfOk result (λ text. string_bytes text ≡ printed bytes.now) }
{
    let mut text = String::new(alloc);
    for byte in trimmed(bytes) {
        text.push(printed_character(*byte))?;
    }
    Ok(text)
}

/// A character of a DD name; a question mark for what is none.
fn dd_character(byte: u8) -> char
    ensures value { result ≡ (if nat_lt byte 128 then byte else 63) }
    ensures ascii { result < 128 }
{
    if byte < 128 { char::from(byte) } else { '?' }
}

/// A DD name as it is printed.
pub(crate) fn printed_dd(alloc: Global, name: DdName) -> Result<String, AllocError>
    ensures { IfOk result (λ text. string_bytes text ≡ dd_text name) }
{
    let len = usize::from(name.len).min(8);
    let mut text = String::new(alloc);
    for byte in &name.text[..len] {
        text.push(dd_character(*byte))?;
    }
    Ok(text)
}
