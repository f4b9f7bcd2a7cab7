//! The words of the SYSIN language: their spellings, and what they say.
#![tactic(auto)]

mod code;
mod keyword;
mod lead;
mod number;

pub use code::{Which, code_of, op_of, which_of};
pub use keyword::{Keyword, keyword_of};
pub use lead::{Lead, Verb, is_else, is_end, is_then, lead_of};
pub use number::number_between;
