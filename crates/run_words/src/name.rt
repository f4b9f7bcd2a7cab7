//! The names of options.

ghost use Rattle.std.specs.Prelude.{◌≡◌};
ghost use Rattle.run_words.specs.Words.{spelling, is_same};
ghost use Rattle.run_words.specs.Grammar.{bare};

/// The names of all options.
pub const NAMES: [Name; 8] = [
    Name::Unit,
    Name::Journal,
    Name::Sysin,
    Name::Held,
    Name::Out,
    Name::In,
    Name::FormatJournal,
    Name::Make,
];

/// The name of an option.
#[derive(Clone, Copy, Debug, PartialEq, Eq)]
pub enum Name {
    Unit,
    Journal,
    Sysin,
    Held,
    Out,
    In,
    FormatJournal,
    Make,
}

impl Name {
    /// The name as it is written.
    pub fn spelling(self) -> &'static str
        ensures { result.now ≡ spelling self }
    {
        match self {
            Name::Unit => "--unit",
            Name::Journal => "--journal",
            Name::Sysin => "--sysin",
            Name::Held => "--held",
            Name::Out => "--out",
            Name::In => "--in",
            Name::FormatJournal => "--format-journal",
            Name::Make => "--make",
        }
    }

    /// The name without the hyphens before it, for as long as a command wants it.
    pub(crate) fn bare<'a>(self) -> &'a str
        ensures { result.now ≡ bare self }
    {
        match self {
            Name::Unit => "unit",
            Name::Journal => "journal",
            Name::Sysin => "sysin",
            Name::Held => "held",
            Name::Out => "out",
            Name::In => "in",
            Name::FormatJournal => "format-journal",
            Name::Make => "make",
        }
    }

    pub(crate) fn is_same(self, other: Name) -> bool
        ensures { result ≡ is_same self other }
    {
        self.spelling() == other.spelling()
    }
}
