//! Reading the tokens of a text.

ghost use Rattle.std.specs.Prelude.{◌≡◌, ◌||◌, not, ◌≢◌, ◌≤◌, ◌<◌, ◌+◌, ◌^◌, ℕ, List, [], ◌∷◌, length, slice_index, IfSome, IfNone};
ghost use Rattle.std.specs.Bool.{OnTrue, OnFalse};
ghost use Rattle.sysin_text.specs.Left.{tokens_behind};

use crate::line::{Line, line_at};
use crate::token::{Placed, front_of};
use ckd_image::text::tail;
use std::marker::Model;
use std::mem;

/// The tokens of a text, of which some were taken. Contracts see the list of those that are left.
#[derive(Drop)]
pub struct Tokens<'a> {
    reading: Reading<'a>,
}

impl<'a> Model for Tokens<'a> {
    ghost use Rattle.std.specs.Prelude.{List};
    ghost use Rattle.sysin_text.specs.declared.token.Placed.{Placed};

    ghost Value = { List Placed };

    ghost use Rattle.sysin_text.specs.Reader.{left_of};

    ghost view = { λ t. left_of t.reading };
}

impl<'a> Tokens<'a> {
    ghost use Rattle.sysin_text.specs.Tokens.{tokens_of};

    pub fn of(text: &'a [u8]) -> Tokens<'a>
        requires { length text.now ≤ 1048576 }
        ensures { result ≡ tokens_of text.now }
    {
        Tokens {
            reading: Reading::of(text),
        }
    }

    /// The next token.
    pub fn take(&mut self) -> Option<Placed>
        ensures some { IfSome result (λ token. self.old ≡ token ∷ self.new) }
        ensures none { IfNone result ((self.old ≡ []) × (self.new ≡ [])) }
    {
        self.reading.take()
    }
}

/// Where a text is read: a place in a line, and the text behind the line.
#[derive(Drop)]
pub(crate) struct Reading<'a> {
    rest: &'a [u8],
    number: u32,
    line: Line,
    place: usize,
    /// Whether the next token may start its line.
    starts: bool,
    ghost within: { place ≤ line.len },
    ghost counted: { number + length rest.now < 2 ^ 32 },
}

impl<'a> Reading<'a> {
    ghost use Rattle.sysin_text.specs.Tokens.{tokens_of};
    ghost use Rattle.sysin_text.specs.Reader.{left_of, tokens_here};

    fn of(text: &'a [u8]) -> Reading<'a>
        requires { length text.now ≤ 1048576 }
        ensures { left_of result ≡ tokens_of text.now }
    {
        Reading {
            rest: text,
            number: 0,
            line: Line::empty(),
            place: 0,
            starts: true,
        }
    }

    fn take(&mut self) -> Option<Placed>
        ensures some { IfSome result (λ token. left_of self.old ≡ token ∷ left_of self.new) }
        ensures none { IfNone result ((left_of self.old ≡ []) × (left_of self.new ≡ [])) }
    {
        self.pass_blanks();
        'lines: while self.place == self.line.len {
            if !self.next_line() {
                return None;
            }
            self.pass_blanks();
        }
        self.take_here()
    }

    /// Goes to the first place that is no blank.
    fn pass_blanks(&mut self)
        ensures left { left_of self.new ≡ left_of self.old }
        ensures rest { self.new.rest.now ≡ self.old.rest.now }
        ensures ended { self.new.place ≡ self.new.line.len → tokens_here self.new ≡ [] }
        ensures stands { self.new.place < self.new.line.len → slice_index self.new.line.text self.new.place ≢ 32 }
    {
        self.place = behind_blanks(&self.line.text[..self.line.len], self.place);
    }

    /// Goes to the next line, where there is one.
    fn next_line(&mut self) -> bool
        requires { tokens_here self.old ≡ [] }
        ensures left { left_of self.new ≡ left_of self.old }
        ensures more { OnTrue result (length self.new.rest.now < length self.old.rest.now) }
        ensures none { OnFalse result (left_of self.old ≡ []) }
    {
        let Some((line, rest)) = line_at(self.rest) else {
            return false;
        };
        self.starts = may_start(self.starts, self.line.goes_on);
        self.line = Line::read(line);
        self.number += 1;
        self.place = 0;
        self.rest = rest;
        true
    }

    /// The token that stands here.
    fn take_here(&mut self) -> Option<Placed>
        requires stands { self.old.place < self.old.line.len }
        requires no_blank { slice_index self.old.line.text self.old.place ≢ 32 }
        ensures some { IfSome result (λ token. left_of self.old ≡ token ∷ left_of self.new) }
        ensures none { IfNone result ⊥ }
    {
        let token = front_of(tail(&self.line.text[..self.line.len], self.place))?;
        let placed = Placed {
            line: self.number,
            column: self.place as u32 + 1,
            starts: self.starts,
            token,
        };
        self.place += placed.token.width();
        self.starts = false;
        Some(placed)
    }
}

/// Whether the next token may start its line, behind a line without further tokens.
fn may_start(starts: bool, goes_on: bool) -> bool
    ensures { result ≡ (starts || not goes_on) }
{
    starts || !goes_on
}

/// The first place from here on that is no blank.
fn behind_blanks(bytes: &[u8], place: usize) -> usize
    requires { place ≤ length bytes.now }
    ensures within { result ≤ length bytes.now }
    ensures same { (number : ℕ) → tokens_behind number result bytes.now ≡ tokens_behind number place bytes.now }
    ensures blank { result < length bytes.now → slice_index bytes.now result ≢ 32 }
{
    let mut place = place;
    while place < bytes.len() && bytes[place] == b' ' {
        place += 1;
    }
    place
}
