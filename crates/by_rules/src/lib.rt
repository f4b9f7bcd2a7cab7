//! The criteria of BY(..): tests on facts of a data set's row.
#![tactic(auto)]

mod criteria;
mod criterion;
mod day;
mod fault;
mod laws;
mod reading;
mod row;
mod state;
mod token;
mod words;

pub use criteria::Criteria;
pub use criterion::{Criterion, Key, Op, Organization, Value, When};
pub use day::Day;
pub use fault::ByFault;
pub use laws::{criteria_laws, day_laws, reading_laws, token_laws};
pub use reading::Reading;
pub use row::{AllocKind, RowFacts};
pub use token::Token;
pub use words::{number_up_to, op_of};
