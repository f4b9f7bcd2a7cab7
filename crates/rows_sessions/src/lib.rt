//! Tests: sessions over two volumes, and steps and statements whose pool fails.
#![tactic(auto)]

#[cfg(test)]
mod ground;
#[cfg(test)]
mod parts;
#[cfg(test)]
mod session;
#[cfg(test)]
mod statements;
