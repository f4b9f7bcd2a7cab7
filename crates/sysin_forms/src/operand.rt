//! The operands of commands.

ghost use Rattle.std.specs.Prelude.{◌≡◌};
ghost use Rattle.std.specs.List.{list_any};
ghost use Rattle.sysin_forms.specs.Operand as spec;

use by_rules::Criteria;
use dd_names::DdName;
use dsn_filter::Rename;
use sysin_lang::{DdNames, Filter, Patterns};
use sysin_words::Keyword;
use vol_label::Serial;

/// An operand of a command.
#[derive(Debug, Drop)]
pub enum Operand {
    Vtoc,
    Full,
    /// The volume that is read.
    Unit(Serial),
    /// The same, of a command that works on data sets.
    LogicalUnit(Serial),
    /// The dump that is read.
    Input(DdName),
    /// The volume that is written.
    Target(Serial),
    /// The dumps that are written.
    Outputs(DdNames),
    Dataset(Filter),
    Include(Patterns),
    Exclude(Patterns),
    By(Criteria),
    /// The least fragmentation index from which on something is done.
    Index(u32),
    /// The greatest number of tracks that are moved.
    Limit(u32),
    Delete,
    Purge,
    Reset,
    Replace,
    Rename(Rename),
    Tolerate,
    Wait,
    Optimize,
}

impl Operand {
    /// The keyword that it is spelled with.
    pub fn name(&self) -> Keyword
        ensures { result ≡ spec.name_of self.now }
    {
        match self {
            Operand::Vtoc => Keyword::Vtoc,
            Operand::Full => Keyword::Full,
            Operand::Unit(_) => Keyword::Input,
            Operand::LogicalUnit(_) => Keyword::LogicalInput,
            Operand::Input(_) => Keyword::Input,
            Operand::Target(_) => Keyword::Output,
            Operand::Outputs(_) => Keyword::Output,
            Operand::Dataset(_) => Keyword::Dataset,
            Operand::Include(_) => Keyword::Include,
            Operand::Exclude(_) => Keyword::Exclude,
            Operand::By(_) => Keyword::By,
            Operand::Index(_) => Keyword::Index,
            Operand::Limit(_) => Keyword::Limit,
            Operand::Delete => Keyword::Delete,
            Operand::Purge => Keyword::Purge,
            Operand::Reset => Keyword::Reset,
            Operand::Replace => Keyword::Replace,
            Operand::Rename(_) => Keyword::Rename,
            Operand::Tolerate => Keyword::Tolerate,
            Operand::Wait => Keyword::Wait,
            Operand::Optimize => Keyword::Optimize,
        }
    }
}

/// The number of the operand that a keyword is of.
pub fn operand_number(keyword: Keyword) -> u8
    ensures { result ≡ spec.operand_number keyword }
{
    match keyword {
        Keyword::Vtoc => 1,
        Keyword::Full => 2,
        Keyword::Input => 3,
        Keyword::LogicalInput => 3,
        Keyword::Output => 4,
        Keyword::Dataset => 5,
        Keyword::Include => 6,
        Keyword::Exclude => 7,
        Keyword::By => 8,
        Keyword::Index => 9,
        Keyword::Limit => 10,
        Keyword::Delete => 11,
        Keyword::Purge => 12,
        Keyword::Reset => 13,
        Keyword::Replace => 14,
        Keyword::Rename => 15,
        Keyword::Tolerate => 16,
        Keyword::Wait => 17,
        Keyword::Optimize => 18,
    }
}

/// Whether a keyword is of a part of a filter.
pub fn is_part(keyword: Keyword) -> bool
    ensures { result ≡ spec.is_part keyword }
{
    matches!(keyword, Keyword::Include | Keyword::Exclude | Keyword::By)
}

fn is_dataset(keyword: Keyword) -> bool
    ensures { result ≡ spec.is_dataset keyword }
{
    matches!(keyword, Keyword::Dataset)
}

/// Whether these two don't stand in one command.
fn clash(left: Keyword, right: Keyword) -> bool
    ensures { result ≡ spec.clash left right }
{
    operand_number(left) == operand_number(right)
        || (is_dataset(left) && is_part(right))
        || (is_part(left) && is_dataset(right))
}

/// Whether an operand stands with which this one doesn't.
pub fn clashes(operands: &[Operand], keyword: Keyword) -> bool
    ensures { result ≡ list_any (λ operand. spec.clash (spec.name_of operand) keyword) operands.now }
{
    operands
        .iter()
        .any(|operand| clash(operand.name(), keyword))
}

/// Whether an operand stands.
pub fn has(operands: &[Operand], keyword: Keyword) -> bool
    ensures { result ≡ spec.has keyword operands.now }
{
    operands.iter().any(|operand| operand_number(operand.name()) == operand_number(keyword))
}
