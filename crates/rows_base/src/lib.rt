//! What tests of whole runs stand on: runs over volumes and journals in memory.
#![tactic(auto)]

mod machine;

pub use adr_top::{DdName, Dsn, OutDd, OutState, Run, Step, read_words};
pub use machine::{Failing, LISTING_WORDS, Machine, Outside, Ran, words_of};
pub use rows_bytes::{
    Change, GIVEN, Given, JOURNAL_BLOCK, REGISTERED, REGISTERED_TWO, RowsFault, SLOT, WITH_SET,
    journal, volume,
};
