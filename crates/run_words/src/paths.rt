//! Options whose value is a path.

ghost use Rattle.std.specs.Prelude.{ℕ, List, IfSome, IfNone};
ghost use Rattle.run_words.specs.Words.{values_of, IsPath, IsPathOrNone};
ghost use Rattle.run_words.specs.Parts.{Judged};
ghost use Rattle.run_words.specs.declared.name.Name.TheVariants as names;

use crate::fault::WordsFault;
use crate::given::Given;
use crate::name::Name;
use crate::values::{is_missing, values_of};
use ckd_image::Word;
use std::alloc::Global;

/// The one value, where it is a path.
fn only_path(values: &[Word]) -> Option<&Word>
    ensures found { IfSome result (λ path. IsPath values.now path.now) }
    ensures none { IfNone result ((path : List ℕ) → ¬ IsPath values.now path) }
{
    let [path] = values else {
        return None;
    };
    if path.as_str().is_empty() {
        return None;
    }
    Some(path)
}

/// The path that a name is given once.
pub(crate) fn path_of(alloc: Global, options: &[Given], name: Name) -> Result<Word, WordsFault>
    ensures { Judged (IsPath (values_of name options.now)) result }
{
    let values = values_of(alloc, options, name)?;
    match only_path(values.as_slice()) {
        Some(path) => Ok(Word::copy_of(alloc, path.as_str())?),
        None => Err(WordsFault::Words),
    }
}

/// The path of the held text, where one is given.
pub(crate) fn held_of(alloc: Global, options: &[Given]) -> Result<Option<Word>, WordsFault>
    ensures { Judged (IsPathOrNone (values_of names.Held options.now)) result }
{
    if is_missing(options, Name::Held) {
        return Ok(None);
    }
    let path = path_of(alloc, options, Name::Held)?;
    Ok(Some(path))
}
