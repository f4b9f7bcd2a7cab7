//! Reading what stands behind the mark of a part.

ghost use Rattle.std.specs.Prelude.{◌≡◌, ◌<◌, ◌≤◌, ◌-◌, ◌+◌, ◌++◌, ◌∷◌, [], length, take, replicate, ◌↔◌, IsTrue, IfOk, IfErr, List, ℕ};
ghost use Rattle.byteorder.specs.Endian.{big_bytes};
ghost use Rattle.std.specs.Option.{option_copied};
ghost use Rattle.dump_read.specs.Header.{BeginsFixed};
ghost use Rattle.dump_read.specs.PartText.{place_of, length_of, why_of, IsKind, IsNextName, IsBehind, IsPartStop, Stops, BeginsName, BeginsTracks, BeginsKind, ZerosStop, IsPartRead};

use crate::number::{number_in, padded};
use ckd_image::text::{put, split, tail};

/// The fields behind the mark of a part that may be wrong. The extents and the pointer behind them are judged byte by byte.
#[derive(Clone, Copy, Debug, PartialEq, Eq)]
pub enum PartField {
    Name,
    Format,
    Count,
    Extents(u8),
    Tracks,
    Kind,
}

impl PartField {
    /// Where the field is behind the mark.
    pub fn place(self) -> u64
        ensures { result ≡ place_of self }
    {
        match self {
            PartField::Name => 0,
            PartField::Format => 44,
            PartField::Count => 59,
            PartField::Extents(k) => 105 + u64::from(k),
            PartField::Tracks => 140,
            PartField::Kind => 144,
        }
    }

    /// The number of the refusal: 8 the order of names, 6 the rest of the part.
    pub fn why(self) -> u8
        ensures { result ≡ why_of self }
    {
        match self {
            PartField::Name => 8,
            _ => 6,
        }
    }
}

/// Why no part is read: a field is wrong, or the bytes end before the part does.
#[derive(Clone, Copy, Debug, PartialEq, Eq)]
pub enum PartStop {
    Wrong(PartField),
    Cut,
}

/// Whether a name may stand behind this one.
fn is_behind(before: Option<&[u8; 44]>, name: &[u8]) -> bool
    ensures { IsTrue result ↔ IsBehind (option_copied before.entry) name.now }
{
    match before {
        Some(before) => before.as_slice().cmp(name).is_lt(),
        None => true,
    }
}

/// Whether any name may stand behind this one.
pub fn is_name_left(before: Option<&[u8; 44]>) -> bool
    ensures { IsTrue result ↔ ((name : List ℕ) × IsNextName (option_copied before.entry) name) }
{
    is_behind(before, &[0xff; 44])
}

/// Fewer than 44 bytes, and the highest bytes.
fn filled_up(bytes: &[u8]) -> [u8; 44]
    requires { length bytes.now < 44 }
    ensures { result ≡ bytes.now ++ replicate (44 - length bytes.now) 0xFF }
{
    let mut text = [0xff; 44];
    put(&mut text, 0, bytes);
    text
}

/// What is to be said of fewer than 44 bytes: the highest bytes behind them make a name where anything does.
fn cut_name(before: Option<&[u8; 44]>, bytes: &[u8]) -> PartStop
    requires { length bytes.now < 44 }
    ensures { Stops PartField.Name (BeginsName (option_copied before.entry)) bytes.now result }
{
    if is_behind(before, &filled_up(bytes)) {
        return PartStop::Cut;
    }
    PartStop::Wrong(PartField::Name)
}

/// The name, and the bytes behind it.
fn name_in<'a>(before: Option<&[u8; 44]>, bytes: &'a [u8]) -> Result<(&'a [u8], &'a [u8]), PartStop>
    ensures found { IfOk result (λ x. IsNextName (option_copied before.entry) x.0.now × (bytes.now ≡ x.0.now ++ x.1.now)) }
    ensures stops { IfErr result (Stops PartField.Name (BeginsName (option_copied before.entry)) bytes.now) }
{
    let Some((name, rest)) = split(bytes, 44) else {
        return Err(cut_name(before, bytes));
    };
    if !is_behind(before, name) {
        return Err(PartStop::Wrong(PartField::Name));
    }
    Ok((name, rest))
}

/// The bytes behind a byte that is the right one.
fn byte_in(field: PartField, bytes: &[u8], right: u8) -> Result<&[u8], PartStop>
    requires { length_of field ≡ 1 }
    ensures found { IfOk result (λ rest. bytes.now ≡ right ∷ rest.now) }
    ensures stops { IfErr result (Stops field (BeginsFixed (right ∷ [])) bytes.now) }
{
    let Some((byte, rest)) = bytes.split_first() else {
        return Err(PartStop::Cut);
    };
    if *byte != right {
        return Err(PartStop::Wrong(field));
    }
    Ok(rest)
}

/// So many bytes, and those behind them.
fn some_in(bytes: &[u8], count: usize) -> Result<(&[u8], &[u8]), PartStop>
    ensures found { IfOk result (λ x. (length x.0.now ≡ count) × (bytes.now ≡ x.0.now ++ x.1.now)) }
    ensures stops { IfErr result (λ stop. (stop ≡ PartStop.Cut) × (length bytes.now < count)) }
{
    let Some(found) = split(bytes, count) else {
        return Err(PartStop::Cut);
    };
    Ok(found)
}

/// The number of tracks, and the bytes behind it.
fn tracks_in(bytes: &[u8]) -> Result<(u32, &[u8]), PartStop>
    ensures found { IfOk result (λ x. (x.0 ≤ 65535) × (bytes.now ≡ big_bytes 4 x.0 ++ x.1.now)) }
    ensures stops { IfErr result (Stops PartField.Tracks BeginsTracks bytes.now) }
{
    let Some((tracks, rest)) = number_in(bytes) else {
        if padded(bytes) <= 65_535 {
            return Err(PartStop::Cut);
        }
        return Err(PartStop::Wrong(PartField::Tracks));
    };
    if tracks > 65_535 {
        return Err(PartStop::Wrong(PartField::Tracks));
    }
    Ok((tracks, rest))
}

/// The type of the extents, and the bytes behind it.
fn kind_in(bytes: &[u8]) -> Result<(u8, &[u8]), PartStop>
    ensures found { IfOk result (λ x. IsKind x.0 × (bytes.now ≡ x.0 ∷ x.1.now)) }
    ensures stops { IfErr result (Stops PartField.Kind BeginsKind bytes.now) }
{
    let Some((kind, rest)) = bytes.split_first() else {
        return Err(PartStop::Cut);
    };
    if *kind != 0x01 && *kind != 0x81 {
        return Err(PartStop::Wrong(PartField::Kind));
    }
    Ok((*kind, rest))
}

/// The bytes behind 35 zeros: the extents and the pointer behind them, which stand for no place in a dump.
fn zeros_in(bytes: &[u8]) -> Result<&[u8], PartStop>
    ensures found { IfOk result (λ rest. bytes.now ≡ replicate 35 0 ++ rest.now) }
    ensures stops { IfErr result (ZerosStop 35 bytes.now) }
{
    for k in 0..35u8 {
        let Some(byte) = bytes.get(usize::from(k)) else {
            return Err(PartStop::Cut);
        };
        if *byte != 0 {
            return Err(PartStop::Wrong(PartField::Extents(k)));
        }
    }
    Ok(tail(bytes, 35))
}

/// A part as it begins: its format 1 without its place, the number of its tracks, and the type of its extents.
#[derive(Clone, Copy, Debug, PartialEq, Eq)]
pub struct PartHead {
    pub f1: [u8; 140],
    pub tracks: u32,
    pub kind: u8,
}

/// The format 1 at the front.
fn front_of(bytes: &[u8]) -> [u8; 140]
    requires { 140 ≤ length bytes.now }
    ensures { result ≡ take 140 bytes.now }
{
    let mut f1 = [0; 140];
    f1.copy_from_slice(&bytes[..140]);
    f1
}

/// Reads what stands behind the mark of a part from 145 bytes, or from all where there are fewer. The part before it has this name.
pub fn read_part(bytes: &[u8], before: Option<&[u8; 44]>) -> Result<PartHead, PartStop>
    requires { (name : List ℕ) × IsNextName (option_copied before) name }
    ensures read { IfOk result (λ part. IsPartRead (option_copied before.entry) bytes.now part) }
    ensures stops { IfErr result (IsPartStop (option_copied before.entry) bytes.now) }
{
    let (_name, rest) = name_in(before, bytes)?;
    let format = byte_in(PartField::Format, rest, 0xf1)?;
    let (_first, count) = some_in(format, 14)?;
    let middle = byte_in(PartField::Count, count, 0)?;
    let (_middle, extents) = some_in(middle, 45)?;
    let number = zeros_in(extents)?;
    let (tracks, behind) = tracks_in(number)?;
    let (kind, _end) = kind_in(behind)?;
    Ok(PartHead {
        f1: front_of(bytes),
        tracks,
        kind,
    })
}
