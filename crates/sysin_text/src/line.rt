//! The lines of a text, and what is read of them.

ghost use Rattle.std.specs.Prelude.{◌≡◌, ◌==◌, if◌then◌else◌, true, false, [], ◌≤◌, ◌<◌, ◌∷◌, ◌++◌, length, take, Some, None, IfSome, IfNone};
ghost use Rattle.sysin_text.specs.Lines.{lines_of, without_cr, HasNoFeed};
ghost use Rattle.std.specs.List.{list_all};
ghost use Rattle.sysin_text.specs.Cleaning as cleaning;

use crate::token::COLUMNS;
use ckd_image::text::tail;

/// The first line of a text, and the text behind it.
pub(crate) fn line_at(text: &[u8]) -> Option<(&[u8], &[u8])>
    ensures found { IfSome result (λ x. lines_of text.now ≡ x.0.now ∷ lines_of x.1.now) }
    ensures shorter { IfSome result (λ x. length x.1.now < length text.now) }
    ensures none { IfNone result (text.now ≡ []) }
{
    if text.is_empty() {
        return None;
    }
    match split_feed(text) {
        Some((line, behind)) => Some((without_cr(line), behind)),
        None => Some((text, &[])),
    }
}

/// What stands before the first line feed, and what behind it.
fn split_feed(text: &[u8]) -> Option<(&[u8], &[u8])>
    ensures found { IfSome result (λ x. (text.now ≡ x.0.now ++ (10 ∷ x.1.now)) × HasNoFeed x.0.now) }
    ensures none { IfNone result (HasNoFeed text.now) }
{
    for (at, byte) in text.iter().enumerate() {
        if *byte == b'\n' {
            return Some((&text[..at], &text[at + 1..]));
        }
    }
    None
}

/// A line without a CR at its end.
fn without_cr(line: &[u8]) -> &[u8]
    ensures { result.now ≡ without_cr line.now }
{
    match line.strip_suffix(b"\r") {
        Some(front) => front,
        None => line,
    }
}

/// What is read of a line: its first `len` bytes.
#[derive(Drop)]
pub(crate) struct Line {
    pub len: usize,
    pub text: [u8; 72],
    /// Whether it goes on in the next line.
    pub goes_on: bool,
    ghost within: { len ≤ 72 },
}

impl Line {
    /// No bytes.
    pub(crate) fn empty() -> Line
        ensures len { result.len ≡ 0 }
        ensures ends { result.goes_on ≡ false }
    {
        Line {
            len: 0,
            text: [0; 72],
            goes_on: false,
        }
    }

    pub(crate) fn read(line: &[u8]) -> Line
        ensures text { take result.len result.text ≡ cleaning.read_of line.now }
        ensures goes_on { result.goes_on ≡ cleaning.goes_on line.now }
    {
        let line = first_columns(line);
        let mut text = [0; 72];
        clean(line, &mut text);
        match mark_at(&text[..line.len()]) {
            Some(len) => Line {
                len,
                text,
                goes_on: true,
            },
            None => Line {
                len: line.len(),
                text,
                goes_on: false,
            },
        }
    }
}

fn first_columns(line: &[u8]) -> &[u8]
    ensures columns { result.now ≡ take cleaning.columns line.now }
    ensures within { length result.now ≤ 72 }
{
    if line.len() <= COLUMNS {
        line
    } else {
        &line[..COLUMNS]
    }
}

/// Writes a line as it is read over the bytes in front.
fn clean(line: &[u8], text: &mut [u8; 72])
    requires { length line.now ≤ 72 }
    ensures { take (length line.now) text.new ≡ cleaning.bytes_read 0 line.now }
{
    let mut left = 0;
    for (at, byte) in line.iter().enumerate() {
        let inside = inside(left, tail(line, at));
        text[at] = read_in(inside, *byte);
        left = inside.saturating_sub(1);
    }
}

/// How many bytes in front are of a comment, where so many are of one that began before them.
fn inside(left: usize, bytes: &[u8]) -> usize
    ensures { result ≡ cleaning.inside left bytes.now }
{
    if left == 0 { comment_len(bytes) } else { left }
}

/// How many bytes the comment has that stands in front.
fn comment_len(bytes: &[u8]) -> usize
    ensures { result ≡ cleaning.comment_of bytes.now }
{
    match bytes {
        [b'/', b'*', rest @ ..] => match close_of(rest) {
            Some(len) => len + 2,
            None => 0,
        },
        _ => 0,
    }
}

/// How many bytes there are up to the first `*/` and with it.
fn close_of(bytes: &[u8]) -> Option<usize>
    ensures close { result ≡ cleaning.close_of bytes.now }
    ensures within { IfSome result (λ len. len ≤ length bytes.now) }
{
    for at in 0..bytes.len() {
        if is_close(tail(bytes, at)) {
            return Some(at + 2);
        }
    }
    None
}

fn is_close(bytes: &[u8]) -> bool
    ensures { result ≡ cleaning.begins_with 42 47 bytes.now }
{
    matches!(bytes, [b'*', b'/', ..])
}

/// A byte in front of which so many are of a comment, itself counted.
fn read_in(inside: usize, byte: u8) -> u8
    ensures { result ≡ (if inside == 0 then cleaning.byte_read byte else 32) }
{
    if inside == 0 { byte_read(byte) } else { b' ' }
}

fn byte_read(byte: u8) -> u8
    ensures { result ≡ cleaning.byte_read byte }
{
    if byte == b'\t' {
        b' '
    } else {
        byte.to_ascii_uppercase()
    }
}

/// Where the mark of a line that goes on stands.
fn mark_at(line: &[u8]) -> Option<usize>
    ensures found { IfSome result (λ len. (len ≤ length line.now) × (cleaning.before_mark line.now ≡ take len line.now) × (cleaning.has_mark line.now ≡ true)) }
    ensures none { IfNone result ((cleaning.before_mark line.now ≡ line.now) × (cleaning.has_mark line.now ≡ false)) }
{
    for at in 0..line.len() {
        if is_mark(tail(line, at)) {
            return Some(at);
        }
    }
    None
}

fn is_mark(bytes: &[u8]) -> bool
    ensures { result ≡ cleaning.is_mark bytes.now }
{
    match bytes {
        [b' ', b'-', rest @ ..] => is_blank(rest),
        _ => false,
    }
}

fn is_blank(bytes: &[u8]) -> bool
    ensures { result ≡ list_all (λ byte. byte == 32) bytes.now }
{
    bytes.iter().all(|byte| *byte == b' ')
}
