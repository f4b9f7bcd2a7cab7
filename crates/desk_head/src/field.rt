//! The fields of a head by their names.

ghost use Rattle.std.specs.Prelude.{◌≡◌, ◌<◌, ◌≤◌, length, map, min, All, IfSome, IfNone};
ghost use Rattle.httparse.specs.Spans.{IsHeaderWithin, header_bytes};
ghost use Rattle.desk_head.specs.Fields.{IsFound, IsNumber, number, values_of};

use httparse::spans::{HeaderSpan, Span};

/// What is found of a name among fields: none, the place of the value of the only one, or more than one.
#[derive(Clone, Copy, Debug, PartialEq, Eq)]
pub enum Found {
    None,
    One(Span),
    Several,
}

/// Looks for the fields of a name, in which small letters are as capitals (RFC 9110, 5.1). Values are without the blanks around them.
pub fn find_field(input: &[u8], headers: &[HeaderSpan], name: &[u8]) -> Found
    requires { All (IsHeaderWithin (length input.now)) headers.now }
    ensures { IsFound input.now (values_of name.now (map (header_bytes input.now) headers.now)) result }
{
    let mut found = Found::None;
    for header in headers {
        if !header.name.of(input).eq_ignore_ascii_case(name) {
            continue;
        }
        match found {
            Found::None => found = Found::One(header.value),
            _ => return Found::Several,
        }
    }
    found
}

/// The number that digits say (a length of RFC 9110, 8.6, where leading zeros may stand), but no more than a limit; none where something else stands.
pub fn number_of(text: &[u8], limit: u32) -> Option<u32>
    requires { limit < 100000000 }
    ensures digits { IfSome result (λ n. IsNumber text.now) }
    ensures value { IfSome result (λ n. n ≡ min (number text.now) limit) }
    ensures none { IfNone result (¬ IsNumber text.now) }
{
    if text.is_empty() {
        return None;
    }
    let mut value = 0u32;
    for &byte in text {
        if !byte.is_ascii_digit() {
            return None;
        }
        value = (value * 10 + u32::from(byte - b'0')).min(limit);
    }
    Some(value)
}
