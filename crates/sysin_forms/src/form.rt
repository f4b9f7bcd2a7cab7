//! The forms of commands: which operands they may have, and which they need.

ghost use Rattle.std.specs.Prelude.{◌≡◌};
ghost use Rattle.std.specs.List.{list_all};
ghost use Rattle.sysin_forms.specs.Operand.{name_of};
ghost use Rattle.sysin_forms.specs.Form as spec;
ghost use Rattle.sysin_forms.specs.declared.form.Form.TheVariants as forms;

use crate::operand::{Operand, operand_number};
use sysin_words::{Keyword, Verb};

/// A command with the operands that it may have.
#[derive(Clone, Copy, Debug, PartialEq, Eq)]
pub enum Form {
    Print,
    Release,
    Consolidate,
    Defrag,
    Copy,
    DumpDataset,
    DumpFull,
    RestoreDataset,
    RestoreFull,
}

/// The forms of a verb.
pub fn forms_of(verb: Verb) -> &'static [Form]
    ensures { result.now ≡ spec.forms_of verb }
{
    match verb {
        Verb::Print => &[Form::Print],
        Verb::Release => &[Form::Release],
        Verb::Consolidate => &[Form::Consolidate],
        Verb::Defrag => &[Form::Defrag],
        Verb::Copy => &[Form::Copy],
        Verb::Dump => &[Form::DumpDataset, Form::DumpFull],
        Verb::Restore => &[Form::RestoreDataset, Form::RestoreFull],
    }
}

impl Form {
    /// The keywords of the operands that it may have.
    pub fn keywords(self) -> &'static [Keyword]
        ensures { result.now ≡ spec.keywords_of self }
    {
        match self {
            Form::Print => &[Keyword::Vtoc, Keyword::Input, Keyword::Wait],
            Form::Release => &[
                Keyword::Dataset,
                Keyword::Include,
                Keyword::Exclude,
                Keyword::By,
                Keyword::Input,
                Keyword::Wait,
            ],
            Form::Consolidate => &[Keyword::Dataset, Keyword::Input, Keyword::Wait],
            Form::Defrag => &[
                Keyword::Input,
                Keyword::Index,
                Keyword::Limit,
                Keyword::Wait,
            ],
            Form::Copy => copy_keywords(),
            Form::DumpDataset => dump_keywords(),
            Form::DumpFull => full_dump_keywords(),
            Form::RestoreDataset => restore_keywords(),
            Form::RestoreFull => full_restore_keywords(),
        }
    }

    /// Whether it may have an operand with this keyword.
    pub fn takes(self, keyword: Keyword) -> bool
        ensures { result ≡ spec.is_one_of (spec.keywords_of self) keyword }
    {
        self.keywords()
            .iter()
            .any(|other| place_of(*other) == place_of(keyword))
    }
}

fn copy_keywords() -> &'static [Keyword]
    ensures { result.now ≡ spec.keywords_of forms.Copy }
{
    &[
        Keyword::Dataset,
        Keyword::Input,
        Keyword::LogicalInput,
        Keyword::Output,
        Keyword::Delete,
        Keyword::Purge,
        Keyword::Replace,
        Keyword::Rename,
        Keyword::Tolerate,
        Keyword::Wait,
    ]
}

fn dump_keywords() -> &'static [Keyword]
    ensures { result.now ≡ spec.keywords_of forms.DumpDataset }
{
    &[
        Keyword::Dataset,
        Keyword::Input,
        Keyword::LogicalInput,
        Keyword::Output,
        Keyword::Reset,
        Keyword::Delete,
        Keyword::Purge,
        Keyword::Tolerate,
        Keyword::Wait,
        Keyword::Optimize,
    ]
}

fn full_dump_keywords() -> &'static [Keyword]
    ensures { result.now ≡ spec.keywords_of forms.DumpFull }
{
    &[
        Keyword::Full,
        Keyword::Input,
        Keyword::Output,
        Keyword::Wait,
        Keyword::Optimize,
    ]
}

fn restore_keywords() -> &'static [Keyword]
    ensures { result.now ≡ spec.keywords_of forms.RestoreDataset }
{
    &[
        Keyword::Dataset,
        Keyword::Input,
        Keyword::Output,
        Keyword::Purge,
        Keyword::Replace,
        Keyword::Rename,
        Keyword::Wait,
    ]
}

fn full_restore_keywords() -> &'static [Keyword]
    ensures { result.now ≡ spec.keywords_of forms.RestoreFull }
{
    &[
        Keyword::Full,
        Keyword::Input,
        Keyword::Output,
        Keyword::Purge,
        Keyword::Wait,
    ]
}

/// The number of a keyword, each with its own.
fn place_of(keyword: Keyword) -> u8
    ensures { result ≡ spec.place_of keyword }
{
    match keyword {
        Keyword::LogicalInput => 0,
        _ => operand_number(keyword),
    }
}

/// Whether a form may have all of these operands.
pub fn fits(form: Form, operands: &[Operand]) -> bool
    ensures { result ≡ list_all (λ operand. spec.is_one_of (spec.keywords_of form) (name_of operand)) operands.now }
{
    operands.iter().all(|operand| form.takes(operand.name()))
}
