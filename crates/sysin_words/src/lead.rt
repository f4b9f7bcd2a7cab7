//! The words with which statements begin and parts of them end.

ghost use Rattle.std.specs.Prelude.{◌≡◌};
ghost use Rattle.std.specs.Str.{bytes_eq};
ghost use Rattle.sysin_words.specs.Lead as spec;

/// What a command does.
#[derive(Clone, Copy, Debug, PartialEq, Eq)]
pub enum Verb {
    Print,
    Release,
    Consolidate,
    Defrag,
    Copy,
    Dump,
    Restore,
}

/// With what a statement begins.
#[derive(Clone, Copy, Debug, PartialEq, Eq)]
pub enum Lead {
    Command(Verb),
    Set,
    If,
    Do,
}

/// What a word begins, in capitals.
pub fn lead_of(word: &[u8]) -> Option<Lead>
    ensures { result ≡ spec.lead_of word.now }
{
    if is(word, b"SET") {
        return Some(Lead::Set);
    }
    if is(word, b"IF") {
        return Some(Lead::If);
    }
    if is(word, b"DO") {
        return Some(Lead::Do);
    }
    let verb = verb_of(word)?;
    Some(Lead::Command(verb))
}

fn verb_of(word: &[u8]) -> Option<Verb>
    ensures { result ≡ spec.verb_of word.now }
{
    if is(word, b"PRINT") {
        return Some(Verb::Print);
    }
    if is(word, b"RELEASE") {
        return Some(Verb::Release);
    }
    if is(word, b"CONSOLIDATE") {
        return Some(Verb::Consolidate);
    }
    if is(word, b"DEFRAG") {
        return Some(Verb::Defrag);
    }
    if is(word, b"COPY") {
        return Some(Verb::Copy);
    }
    if is(word, b"DUMP") {
        return Some(Verb::Dump);
    }
    if is(word, b"RESTORE") {
        return Some(Verb::Restore);
    }
    None
}

pub fn is_then(word: &[u8]) -> bool
    ensures { result ≡ spec.is_then word.now }
{
    is(word, b"THEN")
}

pub fn is_else(word: &[u8]) -> bool
    ensures { result ≡ spec.is_else word.now }
{
    is(word, b"ELSE")
}

pub fn is_end(word: &[u8]) -> bool
    ensures { result ≡ spec.is_end word.now }
{
    is(word, b"END")
}

/// Whether a word has this spelling.
pub(crate) fn is(word: &[u8], spelling: &[u8]) -> bool
    ensures { result ≡ bytes_eq word.now spelling.now }
{
    word == spelling
}
