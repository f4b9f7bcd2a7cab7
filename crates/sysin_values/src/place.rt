//! What stands before a token of pairs of names, and of the numbers of WAIT.

use dsn_filter::Dsn;

/// What stands before a token of pairs of names.
#[derive(Clone, Copy, Debug, PartialEq, Eq)]
pub enum PairPlace {
    /// Nothing, or a comma between two pairs.
    Before,
    /// A pair's first bracket.
    Opened,
    Old(Dsn),
    /// A pair's comma.
    Middle(Dsn),
    New(Dsn, Dsn),
    /// A pair.
    Behind,
}

/// What stands before a token of the numbers of WAIT.
#[derive(Clone, Copy, Debug, PartialEq, Eq)]
pub enum WaitPlace {
    /// Nothing.
    First,
    /// A number.
    Between,
    /// A number and a comma.
    Second,
    /// Both numbers.
    Ended,
}
