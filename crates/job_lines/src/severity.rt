//! How grave a message is.

ghost use Rattle.std.specs.Prelude.{◌≡◌};
ghost use Rattle.job_lines.specs.Severity.{code_of};

/// How grave a message is.
#[derive(Clone, Copy, Debug, PartialEq, Eq)]
pub enum Severity {
    Information,
    Warning,
    Error,
    /// The statement or the run ends with it.
    Ending,
}

impl Severity {
    /// The condition code that a message of this severity gives: 0, 4, 8 or 12.
    pub fn code(self) -> u8
        ensures { result ≡ code_of self }
    {
        match self {
            Severity::Information => 0,
            Severity::Warning => 4,
            Severity::Error => 8,
            Severity::Ending => 12,
        }
    }
}
