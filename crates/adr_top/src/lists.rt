//! The outputs and inputs of a run, and its day.

pub use by_rules::Day;
pub use dump_fmt::{InDd, OutDd, OutState};
