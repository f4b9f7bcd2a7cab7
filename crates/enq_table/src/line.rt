//! The lines of a text of holds.

ghost use Rattle.std.specs.Prelude.{◌≡◌, ◌≢◌, ◌<◌, ◌≤◌, ◌⊎◌, ℕ, List, ◌∷◌, ◌++◌, [], length, take, slice_index, IfSome, IfOk, IfErr};
ghost use Rattle.std.specs.Char.{to_ascii_uppercase};
ghost use Rattle.std.specs.List.{AllByRecursion};
ghost use Rattle.dsn_filter.specs.Text.{capitals, IsFirstWrong};
ghost use Rattle.dsn_filter.specs.Dsn.{dsn_of, IsNameText};
ghost use Rattle.dsn_filter.specs.OneQualifier.{IsQualifierText};
ghost use Rattle.enq_table.specs.Holder.{holder_of};
ghost use Rattle.enq_table.specs.HeldText.{lines_of, IsHoldLine, IsLine};
ghost use Rattle.enq_table.specs.Lines.{lines_behind, IsModeAnd, IsHoldTail, IsTail, IsCut};

use crate::hold::{Hold, Mode};
use crate::holder::Holder;
use ckd_image::text::tail;
use dsn_filter::{Dsn, NameFault};

/// The first line of a text, and the text behind its end.
pub(crate) fn first_line(text: &[u8]) -> (&[u8], Option<&[u8]>)
    ensures lines { lines_of text.now ≡ result.0.now ∷ lines_behind result.1 }
    ensures short { length result.0.now ≤ length text.now }
    ensures behind { IfSome result.1 (λ rest. length rest.now < length text.now) }
{
    for (place, byte) in text.iter().enumerate() {
        if *byte == b'\n' {
            return (without_return(&text[..place]), Some(tail(text, place + 1)));
        }
    }
    (text, None)
}

/// A line without the CR that belongs to its end.
fn without_return(line: &[u8]) -> &[u8]
    ensures { (line.now ≡ result.now ++ (13 ∷ [])) ⊎ ((line.now ≡ result.now) × ((front : List ℕ) → line.now ≢ front ++ (13 ∷ []))) }
{
    match line.split_last() {
        Some((b'\r', front)) => front,
        _ => line,
    }
}

/// What a line that isn't empty holds, or the place at which it is wrong.
pub(crate) fn hold_of(line: &[u8]) -> Result<Hold, u32>
    requires some { 0 < length line.now }
    requires short { length line.now ≤ 1048576 }
    ensures read { IfOk result (IsHoldLine line.now) }
    ensures refused { IfErr result (IsFirstWrong IsLine line.now) }
{
    let (mode, rest) = mode_of(line)?;
    match tail_of(mode, rest) {
        Ok(hold) => Ok(hold),
        Err(place) => Err(4 + place),
    }
}

/// The mode of a line, and what stands behind the blank behind it.
fn mode_of(line: &[u8]) -> Result<(Mode, &[u8]), u32>
    requires { 0 < length line.now }
    ensures read { IfOk result (λ x. IsModeAnd line.now x.0 x.1.now) }
    ensures refused { IfErr result (IsFirstWrong IsLine line.now) }
{
    let mode = match line[0].to_ascii_uppercase() {
        b'S' => Mode::Shared,
        b'E' => Mode::Exclusive,
        _ => return Err(0),
    };
    let right = right_len(line, &mode.word());
    if right < 4 {
        return Err(right as u32);
    }
    Ok((mode, tail(line, 4)))
}

/// How many bytes of a text, read as capitals, are those of a word.
fn right_len(text: &[u8], word: &[u8]) -> usize
    ensures within { result ≤ length text.now }
    ensures word { result ≤ length word.now }
    ensures same { capitals (take result text.now) ≡ take result word.now }
    ensures other { result < length word.now → result < length text.now → to_ascii_uppercase (slice_index text.now result) ≢ slice_index word.now result }
{
    for (place, byte) in text.iter().enumerate() {
        if place == word.len() || byte.to_ascii_uppercase() != word[place] {
            return place;
        }
    }
    text.len()
}

/// The hold of this mode whose name and holder a text is, or the place at which it is wrong.
fn tail_of(mode: Mode, text: &[u8]) -> Result<Hold, u32>
    requires { length text.now ≤ 1048576 }
    ensures read { IfOk result (λ hold. IsHoldTail text.now hold × (hold.mode ≡ mode)) }
    ensures refused { IfErr result (IsFirstWrong IsTail text.now) }
{
    let (word, behind) = first_word(text);
    let name = name_of(word)?;
    let Some(rest) = behind else {
        return Err(text.len() as u32);
    };
    match read_holder(rest) {
        Ok(holder) => Ok(Hold { name, mode, holder }),
        Err(place) => Err(word.len() as u32 + 1 + place),
    }
}

fn read_holder(word: &[u8]) -> Result<Holder, u32>
    ensures read { IfOk result (λ holder. IsQualifierText word.now × (holder ≡ holder_of word.now)) }
    ensures refused { IfErr result (IsFirstWrong IsQualifierText word.now) }
{
    match Holder::read(word) {
        Ok(holder) => Ok(holder),
        Err(NameFault::BadName(place)) => Err(place),
        Err(_) => unreachable!(),
    }
}

fn name_of(word: &[u8]) -> Result<Dsn, u32>
    ensures read { IfOk result (λ name. IsNameText word.now × (name ≡ dsn_of word.now)) }
    ensures refused { IfErr result (IsFirstWrong IsNameText word.now) }
{
    match Dsn::read(word) {
        Ok(name) => Ok(name),
        Err(NameFault::BadName(place)) => Err(place),
        Err(_) => unreachable!(),
    }
}

/// A text up to its first blank, and what stands behind that.
fn first_word(text: &[u8]) -> (&[u8], Option<&[u8]>)
    ensures word { AllByRecursion (λ byte. byte ≢ 32) result.0.now }
    ensures cut { IsCut text.now result.0.now result.1 }
{
    for (place, byte) in text.iter().enumerate() {
        if *byte == b' ' {
            return (&text[..place], Some(tail(text, place + 1)));
        }
    }
    (text, None)
}
