//! Tests: tracks, DSCBs, labels, free tracks, and data sets fitted to another device, byte by byte.
#![tactic(auto)]

#[cfg(test)]
mod dscbs;
#[cfg(test)]
mod free;
#[cfg(test)]
mod labels;
#[cfg(test)]
mod refit;
#[cfg(test)]
mod tracks;
