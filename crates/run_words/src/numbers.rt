//! Options whose value is a number.

ghost use Rattle.std.specs.Prelude.{ℕ, IfSome, IfNone};
ghost use Rattle.run_words.specs.Words.{values_of, IsNumber};
ghost use Rattle.run_words.specs.Parts.{Judged};

use crate::fault::WordsFault;
use crate::given::Given;
use crate::name::Name;
use crate::values::values_of;
use by_rules::number_up_to;
use ckd_image::Word;
use std::alloc::Global;

/// The one value, where it is a number of a range.
fn only_number(values: &[Word], least: u32, most: u32) -> Option<u32>
    ensures found { IfSome result (IsNumber least most values.now) }
    ensures none { IfNone result ((number : ℕ) → ¬ IsNumber least most values.now number) }
{
    let [digits] = values else {
        return None;
    };
    let number = number_up_to(most, digits.as_str().as_bytes())?;
    if number < least {
        return None;
    }
    Some(number)
}

/// The number of a range that a name is given once.
pub(crate) fn number_given(
    alloc: Global,
    options: &[Given],
    name: Name,
    least: u32,
    most: u32,
) -> Result<u32, WordsFault>
    ensures { Judged (IsNumber least most (values_of name options.now)) result }
{
    let values = values_of(alloc, options, name)?;
    match only_number(values.as_slice(), least, most) {
        Some(number) => Ok(number),
        None => Err(WordsFault::Words),
    }
}
