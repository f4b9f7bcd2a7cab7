//! Code page 037, the part that names and serials are written in.

ghost use Rattle.std.specs.Prelude.{◌≡◌, ℕ, Some, IfSome, IfNone};
ghost use Rattle.vol_label.specs.CodePage.{ascii_of};

/// The blank, which fills names and serials.
pub const BLANK: u8 = 0x40;

/// The ASCII character of a byte of the code page.
pub fn to_ascii(byte: u8) -> Option<u8>
    ensures { result ≡ ascii_of byte }
{
    match byte {
        0xc1..=0xc9 => Some(b'A' + (byte - 0xc1)),
        0xd1..=0xd9 => Some(b'J' + (byte - 0xd1)),
        0xe2..=0xe9 => Some(b'S' + (byte - 0xe2)),
        0xf0..=0xf9 => Some(b'0' + (byte - 0xf0)),
        0x5b => Some(b'$'),
        0x7b => Some(b'#'),
        0x7c => Some(b'@'),
        0x4b => Some(b'.'),
        0x60 => Some(b'-'),
        0x40 => Some(b' '),
        _ => None,
    }
}

/// The byte of the code page that an ASCII character has.
pub fn to_ebcdic(byte: u8) -> Option<u8>
    ensures found { IfSome result (λ code. ascii_of code ≡ Some byte) }
    ensures none { IfNone result ((code : ℕ) → ¬ (ascii_of code ≡ Some byte)) }
{
    match byte {
        b'A'..=b'I' => Some(0xc1 + (byte - b'A')),
        b'J'..=b'R' => Some(0xd1 + (byte - b'J')),
        b'S'..=b'Z' => Some(0xe2 + (byte - b'S')),
        b'0'..=b'9' => Some(0xf0 + (byte - b'0')),
        b'$' => Some(0x5b),
        b'#' => Some(0x7b),
        b'@' => Some(0x7c),
        b'.' => Some(0x4b),
        b'-' => Some(0x60),
        b' ' => Some(0x40),
        _ => None,
    }
}
