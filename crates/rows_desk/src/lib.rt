//! Tests: jobs, holds and runs of the desk byte by byte, the bytes of their answers, and connections that fail.
#![tactic(auto)]

#[cfg(test)]
mod answers;
#[cfg(test)]
mod links;
#[cfg(test)]
mod runs;
