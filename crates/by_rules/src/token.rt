//! The tokens of a text.

ghost use Rattle.std.specs.Prelude.{◌≡◌, ◌≢◌, true, false, [], ◌∷◌, ◌++◌, IfSome, IfNone};
ghost use Rattle.std.specs.List.{list_all};
ghost use Rattle.sysin_text.specs.Signs.{is_word_byte};
ghost use Rattle.by_rules.specs.Token.{sign_of, tokens_of, bytes_of, symbol_of, begins_word};

use sysin_text::is_word_byte;

/// A token: a bracket, a comma, a word, or any other byte.
#[derive(Clone, Copy, Debug)]
pub enum Token<'a> {
    Open,
    Close,
    Comma,
    Word(&'a [u8]),
    Other(u8),
}

/// The token at the front, and the text behind it.
pub(crate) fn token_at(text: &[u8]) -> Option<(Token<'_>, &[u8])>
    ensures found { IfSome result (λ x. tokens_of text.now ≡ symbol_of x.0 ∷ tokens_of x.1.now) }
    ensures bytes { IfSome result (λ x. (text.now ≡ bytes_of (symbol_of x.0) ++ x.1.now) × (bytes_of (symbol_of x.0) ≢ [])) }
    ensures none { IfNone result (text.now ≡ []) }
{
    let (first, rest) = text.split_first()?;
    if !is_word_byte(*first) {
        return Some((sign(*first), rest));
    }
    let (word, rest) = split_word(text);
    Some((Token::Word(word), rest))
}

/// The token that a byte is by itself.
fn sign(byte: u8) -> Token<'static>
    ensures { symbol_of result ≡ sign_of byte }
{
    match byte {
        b'(' => Token::Open,
        b')' => Token::Close,
        b',' => Token::Comma,
        _ => Token::Other(byte),
    }
}

/// The bytes of a word that stand at the front, and those behind them.
fn split_word(text: &[u8]) -> (&[u8], &[u8])
    ensures split { text.now ≡ result.0.now ++ result.1.now }
    ensures word { list_all is_word_byte result.0.now ≡ true }
    ensures ends { begins_word result.1.now ≡ false }
{
    for (at, byte) in text.iter().enumerate() {
        if !is_word_byte(*byte) {
            return text.split_at(at);
        }
    }
    (text, &[])
}
