//! Numbers.

ghost use Rattle.std.specs.Prelude.{◌≡◌};
ghost use Rattle.sysin_words.specs.Number as spec;

use by_rules::number_up_to;

/// The number that a word of decimal digits spells, where it is within these limits; leading zeros may stand.
pub fn number_between(least: u32, most: u32, word: &[u8]) -> Option<u32>
    ensures { result ≡ spec.number_between least most word.now }
{
    let number = number_up_to(most, word)?;
    if number < least {
        return None;
    }
    Some(number)
}
