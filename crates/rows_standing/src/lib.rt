//! A desk in memory that tests ask, and what it answers.
#![tactic(auto)]

mod standing;

pub use standing::{End, Row, Script, Standing, first_wrong_of, wanted};
