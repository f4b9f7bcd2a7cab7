//! Tests: requests that are refused, and those at the limits, byte by byte.
#![tactic(auto)]

#[cfg(test)]
mod limits;
#[cfg(test)]
mod refusals;
