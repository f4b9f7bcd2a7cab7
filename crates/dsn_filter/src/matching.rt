//! Whether a pattern stands for a name, by a row of answers that is rewritten for each part of the pattern.

ghost use Rattle.std.specs.Prelude.{◌≡◌, ◌<◌, ◌≤◌, ◌+◌, ◌↔◌, ◌⊎◌, ◌∷◌, [], length, IsTrue, All};
ghost use Rattle.std.specs.List.{slice_index_or};
ghost use Rattle.dsn_filter.specs.Text.{qualifiers};
ghost use Rattle.dsn_filter.specs.Matching.{MatchesQualifier, Matches};
ghost use Rattle.dsn_filter.specs.Rows.{qualifiers_behind, IsSpread, IsStepped};

use ckd_image::Bytes;
use ckd_image::text::{same, tail};

/// The first qualifier of a text, and the text behind its dot.
pub(crate) fn first_part(text: &[u8]) -> (&[u8], Option<&[u8]>)
    ensures { qualifiers text.now ≡ result.0.now ∷ qualifiers_behind result.1 }
{
    for (place, byte) in text.iter().enumerate() {
        if *byte == b'.' {
            return (&text[..place], Some(tail(text, place + 1)));
        }
    }
    (text, None)
}

fn count_parts(text: &[u8]) -> usize
    requires { length (qualifiers text.now) ≤ 22 }
    ensures { result ≡ length (qualifiers text.now) }
{
    let mut count = 0;
    let mut rest = Some(text);
    while let Some(text) = rest {
        let (_, behind) = first_part(text);
        count += 1;
        rest = behind;
    }
    count
}

/// Any number of things may be left out: each rest is right where it or a later one was.
fn spread(row: &mut [bool])
    requires { 0 < length row.old }
    ensures { IsSpread row.old row.new }
{
    for place in (0..row.len() - 1).rev() {
        if row[place + 1] {
            row[place] = true;
        }
    }
}

fn fits_byte(wanted: u8, byte: u8) -> bool
    ensures { IsTrue result ↔ ((wanted ≡ 37) ⊎ (wanted ≡ byte)) }
{
    wanted == b'%' || wanted == byte
}

/// One character stands for one: each rest is right where its first character fits, and the next rest was.
fn step_byte(row: &mut [bool], wanted: u8, part: &[u8])
    requires { length row.old ≡ length part.now + 1 }
    ensures { IsStepped (λ place. (wanted ≡ 37) ⊎ (wanted ≡ slice_index_or part.now place 0)) row.old row.new }
{
    for (place, byte) in part.iter().enumerate() {
        row[place] = row[place + 1] && fits_byte(wanted, *byte);
    }
    row[part.len()] = false;
}

/// Whether a part of a pattern, other than `**`, stands for a qualifier.
fn fits_part(mask: &[u8], part: &[u8]) -> bool
    requires { length part.now ≤ 8 }
    ensures { IsTrue result ↔ MatchesQualifier mask.now part.now }
{
    let mut table = [false; 9];
    let row = &mut table[..part.len() + 1];
    row[part.len()] = true;
    for place in (0..mask.len()).rev() {
        let wanted = mask[place];
        if wanted == b'*' {
            spread(row);
        } else {
            step_byte(row, wanted, part);
        }
    }
    row[0]
}

/// One part stands for one qualifier: each rest is right where its first qualifier fits, and the next rest was.
fn step_part(row: &mut [bool], mask: &[u8], name: &[u8])
    requires whole { length row.old ≡ length (qualifiers name.now) + 1 }
    requires short { All (λ part. length part ≤ 8) (qualifiers name.now) }
    ensures { IsStepped (λ place. MatchesQualifier mask.now (slice_index_or (qualifiers name.now) place [])) row.old row.new }
{
    let mut place = 0;
    let mut rest = Some(name);
    while let Some(text) = rest {
        let (part, behind) = first_part(text);
        row[place] = row[place + 1] && fits_part(mask, part);
        place += 1;
        rest = behind;
    }
    row[place] = false;
}

/// Whether the parts of a pattern stand for the qualifiers of a name.
pub(crate) fn fits_name(parts: &[Bytes], name: &[u8]) -> bool
    requires few { length (qualifiers name.now) ≤ 22 }
    requires short { All (λ part. length part ≤ 8) (qualifiers name.now) }
    ensures { IsTrue result ↔ Matches parts.now (qualifiers name.now) }
{
    let count = count_parts(name);
    let mut table = [false; 23];
    let row = &mut table[..count + 1];
    row[count] = true;
    for place in (0..parts.len()).rev() {
        let part = parts[place].as_slice();
        if same(part, b"**") {
            spread(row);
        } else {
            step_part(row, part, name);
        }
    }
    row[0]
}
