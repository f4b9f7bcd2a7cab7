//! Numbers in a dump, the highest byte first.

ghost use Rattle.std.specs.Prelude.{◌≡◌, ◌<◌, ◌-◌, ◌++◌, length, IfSome, IfNone, replicate};
ghost use Rattle.byteorder.specs.Endian.{big_bytes};

use byteorder::{BigEndian, ByteOrder};
use ckd_image::text::put;

/// The four bytes of a number.
pub(crate) fn number_text(number: u32) -> [u8; 4]
    ensures { result ≡ big_bytes 4 number }
{
    number.to_be_bytes()
}

/// The number of four bytes, and the bytes behind them.
pub(crate) fn number_in(bytes: &[u8]) -> Option<(u32, &[u8])>
    ensures found { IfSome result (λ x. bytes.now ≡ big_bytes 4 x.0 ++ x.1.now) }
    ensures short { IfNone result (length bytes.now < 4) }
{
    if bytes.len() < 4 {
        return None;
    }
    let (front, rest) = bytes.split_at(4);
    Some((BigEndian::read_u32(front), rest))
}

/// Two numbers of two bytes each, and the bytes behind them.
pub(crate) fn pair_in(bytes: &[u8]) -> Option<(u16, u16, &[u8])>
    ensures found { IfSome result (λ x. bytes.now ≡ (big_bytes 2 x.0 ++ big_bytes 2 x.1) ++ x.2.now) }
    ensures short { IfNone result (length bytes.now < 4) }
{
    if bytes.len() < 4 {
        return None;
    }
    let (front, rest) = bytes.split_at(4);
    Some((
        BigEndian::read_u16(front),
        BigEndian::read_u16(&front[2..]),
        rest,
    ))
}

/// The number of four bytes.
fn from_big_bytes(text: &[u8; 4]) -> u32
    ensures { big_bytes 4 result ≡ text.now }
{
    u32::from_be_bytes(*text)
}

/// Fewer than four bytes, and zeros.
fn filled_up(bytes: &[u8]) -> [u8; 4]
    requires { length bytes.now < 4 }
    ensures { result ≡ bytes.now ++ replicate (4 - length bytes.now) 0 }
{
    let mut text = [0; 4];
    put(&mut text, 0, bytes);
    text
}

/// The number of fewer than four bytes and zeros behind them.
pub(crate) fn padded(bytes: &[u8]) -> u32
    requires { length bytes.now < 4 }
    ensures { big_bytes 4 result ≡ bytes.now ++ replicate (4 - length bytes.now) 0 }
{
    from_big_bytes(&filled_up(bytes))
}
