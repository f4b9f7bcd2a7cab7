//! Condition codes, and how they are compared.

ghost use Rattle.std.specs.Prelude.{◌≡◌};
ghost use Rattle.sysin_words.specs.Code as spec;

use crate::lead::is;
use by_rules::Op;
use sysin_text::Token;

/// One of the two condition codes.
#[derive(Clone, Copy, Debug, PartialEq, Eq)]
pub enum Which {
    /// The code of the command that ran last.
    Last,
    /// The greatest code so far.
    Max,
}

/// The condition code that a word names, in capitals.
pub fn which_of(word: &[u8]) -> Option<Which>
    ensures { result ≡ spec.which_of word.now }
{
    if is(word, b"LASTCC") {
        return Some(Which::Last);
    }
    if is(word, b"MAXCC") {
        return Some(Which::Max);
    }
    None
}

/// The value of a condition code, in its one spelling.
pub fn code_of(word: &[u8]) -> Option<u8>
    ensures { result ≡ spec.code_of word.now }
{
    if is(word, b"0") {
        return Some(0);
    }
    if is(word, b"4") {
        return Some(4);
    }
    if is(word, b"8") {
        return Some(8);
    }
    if is(word, b"12") {
        return Some(12);
    }
    None
}

/// The comparison that a token stands for.
pub fn op_of(token: &Token) -> Option<Op>
    ensures { result ≡ spec.op_of token.now }
{
    match token {
        Token::Equal => Some(Op::Equal),
        Token::NotEqual => Some(Op::NotEqual),
        Token::Greater => Some(Op::Greater),
        Token::Less => Some(Op::Less),
        Token::GreaterOrEqual => Some(Op::GreaterOrEqual),
        Token::LessOrEqual => Some(Op::LessOrEqual),
        Token::Word(word) => by_rules::op_of(word.as_slice()),
        _ => None,
    }
}
