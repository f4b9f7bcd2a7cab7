//! Tests: what no run shows of the language, of holds, and of printed lines.
#![tactic(auto)]

#[cfg(test)]
mod criteria;
#[cfg(test)]
mod holds;
#[cfg(test)]
mod lines;
#[cfg(test)]
mod names;
#[cfg(test)]
mod texts;
