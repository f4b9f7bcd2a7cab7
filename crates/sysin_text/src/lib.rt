//! The lines of a SYSIN text and their tokens.
#![tactic(auto)]

mod line;
mod token;
mod tokens;

pub use token::{Letters, Placed, Token, is_word_byte};
pub use tokens::Tokens;
