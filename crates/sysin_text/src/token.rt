//! Tokens.

ghost use Rattle.std.specs.Prelude.{◌≡◌, ◌≤◌, ◌+◌, length, IfSome};
ghost use Rattle.sysin_text.specs.Signs as signs;

use std::marker::Model;

/// How many columns of a line are read.
pub(crate) const COLUMNS: usize = 72;

/// The characters of a word, in capitals. Contracts see the list of them.
#[derive(Debug, Drop)]
pub struct Letters {
    len: usize,
    text: [u8; 72],
}

impl Model for Letters {
    ghost use Rattle.std.specs.Prelude.{ℕ, List, take, ◌≤◌};

    ghost Value = { List ℕ };

    ghost view = { λ w. take w.len w.text };

    ghost invariant = { λ w. w.len ≤ 72 };
}

impl Letters {
    pub(crate) fn of(word: &[u8]) -> Letters
        requires { length word.now ≤ 72 }
        ensures { result ≡ word.now }
    {
        let mut text = [0; 72];
        text[..word.len()].copy_from_slice(word);
        Letters {
            len: word.len(),
            text,
        }
    }

    pub fn as_slice(&self) -> &[u8]
        ensures same { result.now ≡ self.now }
        ensures short { length self.now ≤ 72 }
    {
        &self.text[..self.len]
    }
}

/// A token: a sign, a word, or any other byte.
#[derive(Debug, Drop)]
pub enum Token {
    Open,
    Close,
    Comma,
    Equal,
    NotEqual,
    Less,
    Greater,
    LessOrEqual,
    GreaterOrEqual,
    Word(Letters),
    Other(u8),
}

/// A token with its place: lines and columns count from 1.
#[derive(Debug, Drop)]
pub struct Placed {
    pub token: Token,
    pub line: u32,
    pub column: u32,
    /// Whether no token stands before it in its line, and this line goes on from no other.
    pub starts: bool,
}

impl Token {
    /// How many bytes the token has.
    pub fn width(&self) -> usize
        ensures width { result ≡ signs.width_of self.now }
        ensures short { result ≤ 72 }
    {
        match self {
            Token::Word(word) => word.as_slice().len(),
            Token::NotEqual | Token::LessOrEqual | Token::GreaterOrEqual => 2,
            _ => 1,
        }
    }
}

/// The token that stands in front, where the first byte is no blank.
pub(crate) fn front_of(bytes: &[u8]) -> Option<Token>
    requires { length bytes.now ≤ 72 }
    ensures front { result ≡ signs.front_of bytes.now }
    ensures within { IfSome result (λ token. (1 ≤ signs.width_of token) × (signs.width_of token ≤ length bytes.now)) }
{
    let (first, rest) = bytes.split_first()?;
    if is_word_byte(*first) {
        return Some(Token::Word(Letters::of(word_front(bytes))));
    }
    Some(sign_of(*first, rest))
}

/// Whether a byte is one of a word: a capital, a digit, or one of `$ # @ . * % -`.
pub fn is_word_byte(byte: u8) -> bool
    ensures { result ≡ signs.is_word_byte byte }
{
    match byte {
        b'A'..=b'Z' | b'0'..=b'9' => true,
        b'$' | b'#' | b'@' | b'.' | b'*' | b'%' | b'-' => true,
        _ => false,
    }
}

/// The bytes of a word in front, as far as they go.
fn word_front(bytes: &[u8]) -> &[u8]
    ensures word { result.now ≡ signs.word_front bytes.now }
    ensures within { length result.now ≤ length bytes.now }
{
    for (at, byte) in bytes.iter().enumerate() {
        if !is_word_byte(*byte) {
            return &bytes[..at];
        }
    }
    bytes
}

/// The sign of a byte and what stands behind it, as long as it can be.
fn sign_of(byte: u8, rest: &[u8]) -> Token
    ensures sign { result ≡ signs.sign_of byte rest.now }
    ensures wide { 1 ≤ signs.width_of result }
    ensures within { signs.width_of result ≤ length rest.now + 1 }
{
    match (byte, rest) {
        (b'(', _) => Token::Open,
        (b')', _) => Token::Close,
        (b',', _) => Token::Comma,
        (b'=', _) => Token::Equal,
        (b'<', [b'=', ..]) => Token::LessOrEqual,
        (b'<', [b'>', ..]) => Token::NotEqual,
        (b'<', _) => Token::Less,
        (b'>', [b'=', ..]) => Token::GreaterOrEqual,
        (b'>', _) => Token::Greater,
        _ => Token::Other(byte),
    }
}
