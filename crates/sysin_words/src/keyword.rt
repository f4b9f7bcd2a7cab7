//! The keywords of operands.

ghost use Rattle.std.specs.Prelude.{◌≡◌};
ghost use Rattle.sysin_words.specs.Keyword as spec;

use crate::lead::is;

/// What an operand says.
#[derive(Clone, Copy, Debug, PartialEq, Eq)]
pub enum Keyword {
    Vtoc,
    Full,
    /// The volume or dump that is read.
    Input,
    /// The same, of a command that works on data sets.
    LogicalInput,
    /// The volume or dumps that are written.
    Output,
    Dataset,
    Include,
    Exclude,
    By,
    /// The least fragmentation index from which on something is done.
    Index,
    /// The greatest number of tracks that are moved.
    Limit,
    Delete,
    Purge,
    Reset,
    Replace,
    Rename,
    Tolerate,
    Wait,
    Optimize,
}

/// What a word says as a keyword, in each of its spellings, in capitals.
pub fn keyword_of(word: &[u8]) -> Option<Keyword>
    ensures { result ≡ spec.keyword_of word.now }
{
    if is(word, b"VTOC") {
        return Some(Keyword::Vtoc);
    }
    if is(word, b"FULL") {
        return Some(Keyword::Full);
    }
    if is(word, b"INDDNAME") {
        return Some(Keyword::Input);
    }
    if is(word, b"INDD") {
        return Some(Keyword::Input);
    }
    if is(word, b"DDNAME") {
        return Some(Keyword::Input);
    }
    if is(word, b"LOGINDDNAME") {
        return Some(Keyword::LogicalInput);
    }
    if is(word, b"OUTDDNAME") {
        return Some(Keyword::Output);
    }
    if is(word, b"OUTDD") {
        return Some(Keyword::Output);
    }
    filter_of(word)
}

/// The same of keywords that say which data sets a command takes.
fn filter_of(word: &[u8]) -> Option<Keyword>
    ensures { result ≡ spec.filter_of word.now }
{
    if is(word, b"DATASET") {
        return Some(Keyword::Dataset);
    }
    if is(word, b"DS") {
        return Some(Keyword::Dataset);
    }
    if is(word, b"INCLUDE") {
        return Some(Keyword::Include);
    }
    if is(word, b"INC") {
        return Some(Keyword::Include);
    }
    if is(word, b"EXCLUDE") {
        return Some(Keyword::Exclude);
    }
    if is(word, b"EXC") {
        return Some(Keyword::Exclude);
    }
    if is(word, b"BY") {
        return Some(Keyword::By);
    }
    change_of(word)
}

/// The same of keywords that say what becomes of data sets.
fn change_of(word: &[u8]) -> Option<Keyword>
    ensures { result ≡ spec.change_of word.now }
{
    if is(word, b"DELETE") {
        return Some(Keyword::Delete);
    }
    if is(word, b"DEL") {
        return Some(Keyword::Delete);
    }
    if is(word, b"PURGE") {
        return Some(Keyword::Purge);
    }
    if is(word, b"RESET") {
        return Some(Keyword::Reset);
    }
    if is(word, b"REPLACEUNCONDITIONAL") {
        return Some(Keyword::Replace);
    }
    if is(word, b"REPU") {
        return Some(Keyword::Replace);
    }
    if is(word, b"RENAMEUNCONDITIONAL") {
        return Some(Keyword::Rename);
    }
    if is(word, b"RENAMEU") {
        return Some(Keyword::Rename);
    }
    option_of(word)
}

/// The same of the other keywords.
fn option_of(word: &[u8]) -> Option<Keyword>
    ensures { result ≡ spec.option_of word.now }
{
    if is(word, b"FRAGMENTATIONINDEX") {
        return Some(Keyword::Index);
    }
    if is(word, b"FRAGI") {
        return Some(Keyword::Index);
    }
    if is(word, b"MOVELIMIT") {
        return Some(Keyword::Limit);
    }
    if is(word, b"TOLERANCE") {
        return Some(Keyword::Tolerate);
    }
    if is(word, b"TOL") {
        return Some(Keyword::Tolerate);
    }
    if is(word, b"WAIT") {
        return Some(Keyword::Wait);
    }
    if is(word, b"OPTIMIZE") {
        return Some(Keyword::Optimize);
    }
    None
}
