//! Tests of runs that no run of the program shows: calls, reads and writes that fail, steps, and each stop of a journal's making.
#![tactic(auto)]

#[cfg(test)]
mod copies;
#[cfg(test)]
mod dumps;
#[cfg(test)]
mod making;
#[cfg(test)]
mod outputs;
#[cfg(test)]
mod releases;
#[cfg(test)]
mod runs;
#[cfg(test)]
mod words;
