//! Volume serials.

ghost use Rattle.std.specs.Prelude.{◌≡◌, ℕ, ◌<◌, ◌≤◌, ◌↔◌, Some, IsTrue, IfSome, IfNone, IfOk, IfErr, slice_index};
ghost use Rattle.vol_label.specs.CodePage.{ascii_of};
ghost use Rattle.vol_label.specs.Serial.{IsSerialCharacter, IsSerialByte, IsSerialName, Spells, IsSerial, IsSerialFault};

use crate::code_page::{to_ascii, to_ebcdic};
use crate::fault::{LabelFault, LabelRule, broken};

/// A volume serial in the code page, filled up with blanks.
#[derive(Clone, Copy, Debug, PartialEq, Eq)]
pub struct Serial {
    pub text: [u8; 6],
}

impl Serial {
    /// Reads one to six ASCII characters, capitals and without blanks.
    pub fn read(text: &[u8]) -> Result<Serial, LabelFault>
        ensures read { IfOk result (λ serial. IsSerialName text.now × Spells text.now serial.text) }
        ensures refused { IfErr result (IsSerialFault text.now) }
    {
        if text.is_empty() || text.len() > 6 {
            return Err(broken(LabelRule::Serial));
        }
        let mut serial = [0x40; 6];
        for (place, byte) in text.iter().enumerate() {
            let Some(code) = code_of(*byte) else {
                return Err(broken(LabelRule::Serial));
            };
            serial[place] = code;
        }
        Ok(Serial { text: serial })
    }
}

/// Whether a character may stand in a serial.
fn is_serial_character(c: u8) -> bool
    ensures { IsTrue result ↔ IsSerialCharacter c }
{
    matches!(c, b'A'..=b'Z' | b'0'..=b'9' | b'$' | b'#' | b'@' | b'-')
}

/// The byte of a character that may stand in a serial.
fn code_of(c: u8) -> Option<u8>
    ensures found { IfSome result (λ code. IsSerialCharacter c × (ascii_of code ≡ Some c)) }
    ensures none { IfNone result (¬ IsSerialCharacter c) }
{
    if !is_serial_character(c) {
        return None;
    }
    to_ebcdic(c)
}

/// Whether a byte of the code page may stand in a serial.
fn is_serial_byte(byte: u8) -> bool
    ensures { IsTrue result ↔ IsSerialByte byte }
{
    match to_ascii(byte) {
        Some(c) => is_serial_character(c),
        None => false,
    }
}

/// How many bytes from the front may stand in a serial.
fn characters_of(text: &[u8; 6]) -> usize
    ensures within { result ≤ 6 }
    ensures characters { (k : ℕ) → k < result → IsSerialByte (slice_index text.now k) }
    ensures ended { result < 6 → ¬ IsSerialByte (slice_index text.now result) }
{
    for (place, byte) in text.iter().enumerate() {
        if !is_serial_byte(*byte) {
            return place;
        }
    }
    6
}

/// Whether blanks stand from a place on.
fn is_blank_from(text: &[u8; 6], start: usize) -> bool
    requires { start ≤ 6 }
    ensures { IsTrue result ↔ ((k : ℕ) → start ≤ k → k < 6 → slice_index text.now k ≡ 0x40) }
{
    for place in start..6 {
        if text[place] != 0x40 {
            return false;
        }
    }
    true
}

/// Whether six bytes are a serial.
pub fn is_serial(text: &[u8; 6]) -> bool
    ensures { IsTrue result ↔ IsSerial text.now }
{
    let count = characters_of(text);
    count > 0 && is_blank_from(text, count)
}
