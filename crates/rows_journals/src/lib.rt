//! Tests: pools in memory and over files, and a slide in the journal.
#![tactic(auto)]

#[cfg(test)]
mod journal;
#[cfg(test)]
mod pool;
