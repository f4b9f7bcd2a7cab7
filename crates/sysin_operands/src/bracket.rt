//! What stands behind a keyword.

ghost use Rattle.std.specs.Prelude.{◌≡◌};
ghost use Rattle.sysin_operands.specs.Bracket as spec;

use sysin_forms::Operand;
use sysin_words::{Keyword, Verb};

/// What one word in brackets says.
#[derive(Clone, Copy, Debug, PartialEq, Eq)]
pub enum Single {
    /// The volume that is read.
    Unit,
    /// The same, of a command that works on data sets.
    LogicalUnit,
    /// The dump that is read.
    Input,
    /// The volume that is written.
    Target,
    Index,
    Limit,
    Tolerate,
    Optimize,
}

/// What stands in the brackets of a keyword.
#[derive(Clone, Copy, Debug, PartialEq, Eq)]
pub enum Bracket {
    Single(Single),
    Include,
    Exclude,
    By,
    Outputs,
    Rename,
    Wait,
}

/// The operand that a keyword is alone, if it has no brackets.
pub fn alone_of(keyword: Keyword) -> Option<Operand>
    ensures { result ≡ spec.alone_of keyword }
{
    match keyword {
        Keyword::Vtoc => Some(Operand::Vtoc),
        Keyword::Full => Some(Operand::Full),
        Keyword::Delete => Some(Operand::Delete),
        Keyword::Purge => Some(Operand::Purge),
        Keyword::Reset => Some(Operand::Reset),
        Keyword::Replace => Some(Operand::Replace),
        _ => None,
    }
}

fn input_of(verb: Verb) -> Single
    ensures { result ≡ spec.input_of verb }
{
    match verb {
        Verb::Restore => Single::Input,
        _ => Single::Unit,
    }
}

fn output_of(verb: Verb) -> Bracket
    ensures { result ≡ spec.output_of verb }
{
    match verb {
        Verb::Dump => Bracket::Outputs,
        _ => Bracket::Single(Single::Target),
    }
}

/// What stands in a keyword's brackets in a command with this verb, if it has some. Those of DATASET hold operands, and are none of these.
pub fn bracket_of(verb: Verb, keyword: Keyword) -> Option<Bracket>
    ensures { result ≡ spec.bracket_of verb keyword }
{
    match keyword {
        Keyword::Input => Some(Bracket::Single(input_of(verb))),
        Keyword::LogicalInput => Some(Bracket::Single(Single::LogicalUnit)),
        Keyword::Output => Some(output_of(verb)),
        Keyword::Include => Some(Bracket::Include),
        Keyword::Exclude => Some(Bracket::Exclude),
        Keyword::By => Some(Bracket::By),
        Keyword::Index => Some(Bracket::Single(Single::Index)),
        Keyword::Limit => Some(Bracket::Single(Single::Limit)),
        Keyword::Rename => Some(Bracket::Rename),
        Keyword::Tolerate => Some(Bracket::Single(Single::Tolerate)),
        Keyword::Wait => Some(Bracket::Wait),
        Keyword::Optimize => Some(Bracket::Single(Single::Optimize)),
        _ => None,
    }
}
