//! Tests: what slides ask of a VTOC, and how many runs are free behind one.
#![tactic(auto)]

#[cfg(test)]
mod plans;
#[cfg(test)]
mod slides;
