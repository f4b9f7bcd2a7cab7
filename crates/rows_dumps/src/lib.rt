//! Tests: dumps as bytes, written, read, and copied.
#![tactic(auto)]

#[cfg(test)]
mod copied;
#[cfg(test)]
mod copies;
#[cfg(test)]
mod full;
#[cfg(test)]
mod outputs;
#[cfg(test)]
mod parts;
#[cfg(test)]
mod reads;
#[cfg(test)]
mod texts;
#[cfg(test)]
mod writes;
