//! The values that options give to a name.

ghost use Rattle.std.specs.Prelude.{◌≡◌, ◌↔◌, [], IsTrue, IfOk};
ghost use Rattle.run_words.specs.Words.{values_of};

use crate::given::Given;
use crate::name::Name;
use ckd_image::{Listed, NoMemory, Word};
use std::alloc::Global;

/// The values that a name is given, in their order.
pub(crate) fn values_of(
    alloc: Global,
    options: &[Given],
    name: Name,
) -> Result<Listed<Word>, NoMemory>
    ensures { IfOk result (λ values. values ≡ values_of name options.now) }
{
    let mut values = Listed::new(alloc);
    for option in options {
        if name.is_same(option.name) {
            values.push(Word::copy_of(alloc, option.value.as_str())?)?;
        }
    }
    Ok(values)
}

/// Whether a name is given no value.
pub(crate) fn is_missing(options: &[Given], name: Name) -> bool
    ensures { IsTrue result ↔ (values_of name options.now ≡ []) }
{
    for option in options {
        if name.is_same(option.name) {
            return false;
        }
    }
    true
}
