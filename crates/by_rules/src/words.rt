//! What words say.

ghost use Rattle.std.specs.Prelude.{◌≡◌, ◌<◌, ◌≤◌, IfSome};
ghost use Rattle.by_rules.specs.Words as words;

use crate::criterion::{Key, Op, Organization, Value, When};
use crate::day::Day;
use crate::row::AllocKind;

/// The largest number of extents or of tracks.
const MOST_COUNTED: u32 = 65_535;

/// How many days from today a date lies at most.
const FARTHEST: u32 = 36_500;

pub(crate) fn key_of(word: &[u8]) -> Option<Key>
    ensures { result ≡ words.key_of word.now }
{
    match word {
        b"DSORG" => Some(Key::Organization),
        b"CREDT" => Some(Key::Created),
        b"EXPDT" => Some(Key::Expires),
        b"REFDT" => Some(Key::Referred),
        b"EXTNT" => Some(Key::Extents),
        b"FSIZE" => Some(Key::Tracks),
        b"DSCHA" => Some(Key::Changed),
        b"ALLOC" => Some(Key::Allocation),
        b"MULTI" => Some(Key::Multivolume),
        _ => None,
    }
}

/// The comparison that a word of capitals names.
pub fn op_of(word: &[u8]) -> Option<Op>
    ensures { result ≡ words.op_of word.now }
{
    match word {
        b"EQ" => Some(Op::Equal),
        b"NE" => Some(Op::NotEqual),
        b"GT" => Some(Op::Greater),
        b"LT" => Some(Op::Less),
        b"GE" => Some(Op::GreaterOrEqual),
        b"LE" => Some(Op::LessOrEqual),
        _ => None,
    }
}

pub(crate) fn value_of(key: Key, word: &[u8]) -> Option<Value>
    ensures { result ≡ words.value_of key word.now }
{
    match key {
        Key::Organization => Some(Value::Organization(organization_of(word)?)),
        Key::Created | Key::Expires | Key::Referred => Some(Value::Date(When::On(date_of(word)?))),
        Key::Extents | Key::Tracks => Some(Value::Number(number_up_to(MOST_COUNTED, word)? as u16)),
        Key::Changed | Key::Multivolume => Some(Value::Flag(flag_of(word)?)),
        Key::Allocation => Some(Value::Allocation(allocation_of(word)?)),
    }
}

fn organization_of(word: &[u8]) -> Option<Organization>
    ensures { result ≡ words.organization_of word.now }
{
    match word {
        b"PS" | b"SAM" => Some(Organization::Sequential),
        b"DA" | b"BDAM" => Some(Organization::Direct),
        b"PO" | b"PAM" | b"PDS" => Some(Organization::Partitioned),
        b"IS" | b"ISAM" => Some(Organization::IndexedSequential),
        b"VSAM" => Some(Organization::Vsam),
        _ => None,
    }
}

fn flag_of(word: &[u8]) -> Option<bool>
    ensures { result ≡ words.flag_of word.now }
{
    match word {
        b"YES" => Some(true),
        b"NO" => Some(false),
        _ => None,
    }
}

fn allocation_of(word: &[u8]) -> Option<AllocKind>
    ensures { result ≡ words.allocation_of word.now }
{
    match word {
        b"ABSTR" => Some(AllocKind::Absolute),
        b"BLK" => Some(AllocKind::Blocks),
        b"TRK" => Some(AllocKind::Tracks),
        b"CYL" => Some(AllocKind::Cylinders),
        _ => None,
    }
}

fn date_of(word: &[u8]) -> Option<Day>
    ensures { result ≡ words.date_of word.now }
{
    match word.len() {
        7 => {
            let number = number_up_to(9_999_999, word)?;
            dated((number / 1000) as u16, (number % 1000) as u16)
        }
        5 => {
            let number = number_up_to(99_999, word)?;
            dated(full_year((number / 1000) as u16), (number % 1000) as u16)
        }
        _ => None,
    }
}

fn full_year(year: u16) -> u16
    requires { year < 100 }
    ensures { result ≡ words.full_year year }
{
    if year >= 50 { 1900 + year } else { 2000 + year }
}

fn dated(year: u16, day: u16) -> Option<Day>
    ensures { result ≡ words.dated year day }
{
    if day <= 366 || day == 999 {
        Some(Day { year, day })
    } else {
        None
    }
}

pub(crate) fn shift_of(word: &[u8]) -> Option<i32>
    ensures { result ≡ words.shift_of word.now }
{
    let (first, rest) = word.split_first()?;
    if *first == b'-' {
        let days = number_up_to(FARTHEST, rest)?;
        return Some(-(days as i32));
    }
    let days = number_up_to(FARTHEST, word)?;
    Some(days as i32)
}

/// The number that a word of decimal digits spells, where it is at most the limit; leading zeros may stand.
pub fn number_up_to(limit: u32, word: &[u8]) -> Option<u32>
    ensures number { result ≡ words.number_up_to limit word.now }
    ensures limit { IfSome result (λ number. number ≤ limit) }
{
    if word.is_empty() {
        return None;
    }
    let mut number = 0u64;
    for byte in word {
        if !byte.is_ascii_digit() {
            return None;
        }
        number = 10 * number + (byte - b'0') as u64;
        if number > limit as u64 {
            return None;
        }
    }
    Some(number as u32)
}
