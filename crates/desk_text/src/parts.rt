//! Parts of JSON texts (RFC 8259).

ghost use Rattle.std.specs.Prelude.{◌≡◌, ◌≤◌, ◌++◌, OnOk};
ghost use Rattle.std.specs.Fmt.{decimal};
ghost use Rattle.std.specs.Char.{digit_char};
ghost use Rattle.desk_text.specs.Pieces.{Adds};
ghost use Rattle.json.specs.Print.{escape_byte, escape_letter, quoted};

use ckd_image::{Bytes, NoMemory};
use itoa::Buffer;

/// Adds a piece.
pub(crate) fn push_text(out: &mut Bytes, piece: &[u8]) -> Result<(), NoMemory>
    ensures { OnOk result (Adds out.old out.new piece.now) }
{
    out.extend_from_slice(piece)?;
    Ok(())
}

/// A digit of base 16.
fn digit(value: u8) -> u8
    requires { value ≤ 15 }
    ensures { result ≡ digit_char value }
{
    if value < 10 {
        b'0' + value
    } else {
        b'a' + (value - 10)
    }
}

/// The letter of a short escape, or 0.
fn letter(byte: u8) -> u8
    ensures { result ≡ escape_letter byte }
{
    match byte {
        b'"' | b'\\' => byte,
        8 => b'b',
        12 => b'f',
        b'\n' => b'n',
        b'\r' => b'r',
        b'\t' => b't',
        _ => 0,
    }
}

/// Adds what stands in a string for a byte (RFC 8259, 7).
fn push_byte(out: &mut Bytes, byte: u8) -> Result<(), NoMemory>
    ensures { OnOk result (out.new ≡ out.old ++ escape_byte byte) }
{
    let short = letter(byte);
    if short > 0 {
        return out.extend_from_slice(&[b'\\', short]);
    }
    if byte < 32 {
        return out.extend_from_slice(&[
            b'\\',
            b'u',
            b'0',
            b'0',
            digit(byte / 16),
            digit(byte % 16),
        ]);
    }
    out.push(byte)
}

/// Adds a text as a string.
pub(crate) fn push_string(out: &mut Bytes, text: &[u8]) -> Result<(), NoMemory>
    ensures { OnOk result (Adds out.old out.new (quoted text.now)) }
{
    out.push(b'"')?;
    for &byte in text {
        push_byte(out, byte)?;
    }
    out.push(b'"')?;
    Ok(())
}

/// Adds a number.
pub(crate) fn push_number(out: &mut Bytes, number: u32) -> Result<(), NoMemory>
    ensures { OnOk result (Adds out.old out.new (decimal number)) }
{
    push_text(out, Buffer::new().format(number).as_bytes())?;
    Ok(())
}
