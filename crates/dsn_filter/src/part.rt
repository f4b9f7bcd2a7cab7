//! The qualifiers of a text, read byte by byte.

ghost use Rattle.std.specs.Prelude.{◌≡◌, ◌<◌, ◌≤◌, ◌+◌, ◌-◌, ◌↔◌, ◌⊎◌, [], ◌∷◌, ◌++◌, length, take, drop, replicate, IsTrue, IfOk, IfErr};
ghost use Rattle.dsn_filter.specs.Text.{capitals, IsText, IsFirstWrong};
ghost use Rattle.dsn_filter.specs.Qualifier.{IsLetter, IsInner, IsWild, IsQualifier, IsPatternPart};
ghost use Rattle.dsn_filter.specs.Scan.{form_of, Continues};

use ckd_image::text::{same, tail};

/// What a text is read as.
#[derive(Clone, Copy, Debug, PartialEq, Eq)]
pub(crate) enum Kind {
    Name,
    Pattern,
}

fn is_letter(byte: u8) -> bool
    ensures { IsTrue result ↔ IsLetter byte }
{
    matches!(byte, b'A'..=b'Z' | b'$' | b'#' | b'@')
}

fn is_inner(byte: u8) -> bool
    ensures { IsTrue result ↔ IsInner byte }
{
    is_letter(byte) || matches!(byte, b'0'..=b'9' | b'-')
}

fn is_wild(byte: u8) -> bool
    ensures { IsTrue result ↔ IsWild byte }
{
    matches!(byte, b'*' | b'%')
}

fn is_pattern_byte(byte: u8) -> bool
    ensures { IsTrue result ↔ IsInner byte ⊎ IsWild byte }
{
    is_inner(byte) || is_wild(byte)
}

/// Whether a begun qualifier of a name may go on with this byte.
pub(crate) fn name_goes_on(part: &[u8], byte: u8) -> bool
    requires { (part.now ≡ []) ⊎ IsQualifier part.now }
    ensures { IsTrue result ↔ IsQualifier (part.now ++ (byte ∷ [])) }
{
    if part.is_empty() {
        return is_letter(byte);
    }
    if part.len() >= 8 {
        return false;
    }
    is_inner(byte)
}

/// Whether a begun qualifier of a pattern may go on with this byte.
fn pattern_goes_on(part: &[u8], byte: u8) -> bool
    requires { (part.now ≡ []) ⊎ IsPatternPart part.now }
    ensures { IsTrue result ↔ IsPatternPart (part.now ++ (byte ∷ [])) }
{
    if part.is_empty() {
        return is_letter(byte) || is_wild(byte);
    }
    if part[part.len() - 1] == b'*' && byte == b'*' {
        return part.len() == 1;
    }
    if same(part, b"**") || part.len() >= 8 {
        return false;
    }
    is_pattern_byte(byte)
}

fn goes_on(kind: Kind, part: &[u8], byte: u8) -> bool
    requires { (part.now ≡ []) ⊎ form_of kind part.now }
    ensures { IsTrue result ↔ form_of kind (part.now ++ (byte ∷ [])) }
{
    match kind {
        Kind::Name => name_goes_on(part, byte),
        Kind::Pattern => pattern_goes_on(part, byte),
    }
}

/// Whether this byte may stand behind so many, the last of which begin a qualifier.
fn continues(kind: Kind, part: &[u8], before: usize, byte: u8) -> bool
    requires { (part.now ≡ []) ⊎ form_of kind part.now }
    ensures { IsTrue result ↔ Continues (form_of kind) part.now before byte }
{
    if byte == b'.' {
        return !part.is_empty() && before < 43;
    }
    before < 44 && goes_on(kind, part, byte)
}

/// The bytes from a place up to another.
pub(crate) fn between(bytes: &[u8], start: usize, end: usize) -> &[u8]
    requires ordered { start ≤ end }
    requires within { end ≤ length bytes.now }
    ensures { result.now ≡ drop start (take end bytes.now) }
{
    tail(&bytes[..end], start)
}

/// The capitals of a text of this kind, and its length; or the place at which it is wrong.
pub(crate) fn scan(kind: Kind, text: &[u8], capital: &mut [u8; 44]) -> Result<u8, u32>
    requires { capital.old ≡ replicate 44 0 }
    ensures read { IfOk result (λ len. IsText (form_of kind) text.now × (len ≡ length text.now) × (capital.new ≡ capitals text.now ++ replicate (44 - length text.now) 0)) }
    ensures refused { IfErr result (IsFirstWrong (IsText (form_of kind)) text.now) }
{
    let mut start = 0;
    for (place, byte) in text.iter().enumerate() {
        let byte = byte.to_ascii_uppercase();
        if !continues(kind, between(capital, start, place), place, byte) {
            return Err(place as u32);
        }
        capital[place] = byte;
        if byte == b'.' {
            start = place + 1;
        }
    }
    if start == text.len() {
        return Err(text.len() as u32);
    }
    Ok(text.len() as u8)
}
