//! What is known behind each token of a text, and what the next one does.

ghost use Rattle.std.specs.Prelude.{◌≡◌};
ghost use Rattle.by_rules.specs.Token.{symbol_of};
ghost use Rattle.by_rules.specs.Grammar as grammar;
ghost use Rattle.by_rules.specs.Reading as spec;

use crate::criterion::{Key, Op, Value, When};
use crate::token::Token;
use crate::words::{key_of, op_of, shift_of, value_of};

/// A key, and how its fact is compared.
#[derive(Clone, Copy, Debug, PartialEq, Eq)]
pub(crate) struct Test {
    pub key: Key,
    pub op: Op,
}

/// Where a value stands.
#[derive(Clone, Copy, Debug, PartialEq, Eq)]
pub(crate) enum Place {
    Alone,
    InList,
}

/// What was read last.
#[derive(Clone, Copy, Debug, PartialEq, Eq)]
pub(crate) enum State {
    Start,
    /// A comma behind a criterion.
    Comma,
    /// A criterion.
    Ended,
    /// A criterion's first bracket.
    Opened,
    Keyed(Key),
    /// The key's comma.
    Operator(Key),
    Compared(Test),
    /// The operator's comma.
    Operand(Test),
    /// The first bracket of a list of dates, or of one date.
    Bracket(Test),
    /// A list's first bracket, or a comma in it.
    Listing(Test),
    /// A value of a list.
    Member(Test),
    /// All values.
    Whole(Test),
    /// A date's first bracket.
    Today(Test, Place),
    Star(Test, Place),
    /// The star's comma.
    Shift(Test, Place),
    Shifted(Test, Place, i32),
}

/// What a token does.
#[derive(Clone, Copy, Debug, PartialEq, Eq)]
pub(crate) enum Step {
    /// It begins a criterion.
    Begin,
    Go(State),
    /// It ends a value.
    Keep(Value, State),
    /// It ends a criterion.
    End(Test),
}

impl State {
    /// What a token does, where it is right.
    pub(crate) fn step(self, token: Token<'_>) -> Option<Step>
        ensures { result ≡ spec.step_of self (symbol_of token.entry) }
    {
        match self {
            State::Start | State::Comma => open_step(Step::Begin, token),
            State::Ended => ended_step(token),
            State::Opened => key_step(token),
            State::Keyed(key) => comma_step(Step::Go(State::Operator(key)), token),
            State::Operator(key) => op_step(key, token),
            State::Compared(test) => comma_step(Step::Go(State::Operand(test)), token),
            State::Operand(test) => test.operand(token),
            State::Bracket(test) => test.first(token),
            State::Listing(test) => test.listing(token),
            State::Member(test) => test.member(token),
            State::Whole(test) => close_step(Step::End(test), token),
            State::Today(test, place) => test.today(place, token),
            State::Star(test, place) => test.star(place, token),
            State::Shift(test, place) => test.shift(place, token),
            State::Shifted(test, place, days) => close_step(test.from_today(place, days), token),
        }
    }
}

fn open_step(step: Step, token: Token<'_>) -> Option<Step>
    ensures { result ≡ spec.open_step step (symbol_of token.entry) }
{
    match token {
        Token::Open => Some(step),
        _ => None,
    }
}

fn ended_step(token: Token<'_>) -> Option<Step>
    ensures { result ≡ spec.ended_step (symbol_of token.entry) }
{
    match token {
        Token::Open => Some(Step::Begin),
        Token::Comma => Some(Step::Go(State::Comma)),
        _ => None,
    }
}

fn key_step(token: Token<'_>) -> Option<Step>
    ensures { result ≡ spec.key_step (symbol_of token.entry) }
{
    let Token::Word(word) = token else {
        return None;
    };
    let key = key_of(word)?;
    Some(Step::Go(State::Keyed(key)))
}

fn comma_step(step: Step, token: Token<'_>) -> Option<Step>
    ensures { result ≡ spec.comma_step step (symbol_of token.entry) }
{
    match token {
        Token::Comma => Some(step),
        _ => None,
    }
}

fn op_step(key: Key, token: Token<'_>) -> Option<Step>
    ensures { result ≡ spec.op_step key (symbol_of token.entry) }
{
    let Token::Word(word) = token else {
        return None;
    };
    let op = op_of(word)?;
    let test = Test { key, op };
    if test.is_allowed() {
        Some(Step::Go(State::Compared(test)))
    } else {
        None
    }
}

fn close_step(step: Step, token: Token<'_>) -> Option<Step>
    ensures { result ≡ spec.close_step step (symbol_of token.entry) }
{
    match token {
        Token::Close => Some(step),
        _ => None,
    }
}

impl Test {
    fn is_allowed(self) -> bool
        ensures { result ≡ grammar.is_allowed self.key self.op }
    {
        self.key.is_date() || self.key.is_count() || self.op.is_equality()
    }

    fn operand(self, token: Token<'_>) -> Option<Step>
        ensures { result ≡ spec.operand_step self (symbol_of token.entry) }
    {
        match token {
            Token::Word(word) => self.value(Place::Alone, word),
            Token::Open => self.bracket(),
            _ => None,
        }
    }

    fn value(self, place: Place, word: &[u8]) -> Option<Step>
        ensures { result ≡ spec.value_step self place word.now }
    {
        let value = value_of(self.key, word)?;
        Some(Step::Keep(value, self.behind(place)))
    }

    /// The state behind a value.
    fn behind(self, place: Place) -> State
        ensures { result ≡ spec.behind self place }
    {
        match place {
            Place::Alone => State::Whole(self),
            Place::InList => State::Member(self),
        }
    }

    /// A bracket in front of the values.
    fn bracket(self) -> Option<Step>
        ensures { result ≡ spec.bracket_step self }
    {
        match (self.key.is_date(), self.op.is_equality()) {
            (true, true) => Some(Step::Go(State::Bracket(self))),
            (true, false) => Some(Step::Go(State::Today(self, Place::Alone))),
            (false, true) => Some(Step::Go(State::Listing(self))),
            (false, false) => None,
        }
    }

    fn first(self, token: Token<'_>) -> Option<Step>
        ensures { result ≡ spec.first_step self (symbol_of token.entry) }
    {
        match token {
            Token::Word(b"*") => Some(Step::Go(State::Star(self, Place::Alone))),
            Token::Word(word) => self.value(Place::InList, word),
            Token::Open => Some(Step::Go(State::Today(self, Place::InList))),
            _ => None,
        }
    }

    fn listing(self, token: Token<'_>) -> Option<Step>
        ensures { result ≡ spec.listing_step self (symbol_of token.entry) }
    {
        match token {
            Token::Word(word) => self.value(Place::InList, word),
            Token::Open if self.key.is_date() => {
                Some(Step::Go(State::Today(self, Place::InList)))
            }
            _ => None,
        }
    }

    fn member(self, token: Token<'_>) -> Option<Step>
        ensures { result ≡ spec.member_step self (symbol_of token.entry) }
    {
        match token {
            Token::Comma => Some(Step::Go(State::Listing(self))),
            Token::Close => Some(Step::Go(State::Whole(self))),
            _ => None,
        }
    }

    fn today(self, place: Place, token: Token<'_>) -> Option<Step>
        ensures { result ≡ spec.today_step self place (symbol_of token.entry) }
    {
        match token {
            Token::Word(b"*") => Some(Step::Go(State::Star(self, place))),
            _ => None,
        }
    }

    fn star(self, place: Place, token: Token<'_>) -> Option<Step>
        ensures { result ≡ spec.star_step self place (symbol_of token.entry) }
    {
        match token {
            Token::Close => Some(self.from_today(place, 0)),
            Token::Comma => Some(Step::Go(State::Shift(self, place))),
            _ => None,
        }
    }

    fn from_today(self, place: Place, days: i32) -> Step
        ensures { result ≡ spec.days_from_today self place days }
    {
        Step::Keep(Value::Date(When::FromToday(days)), self.behind(place))
    }

    fn shift(self, place: Place, token: Token<'_>) -> Option<Step>
        ensures { result ≡ spec.shift_step self place (symbol_of token.entry) }
    {
        let Token::Word(word) = token else {
            return None;
        };
        let days = shift_of(word)?;
        Some(Step::Go(State::Shifted(self, place, days)))
    }
}

impl Key {
    fn is_date(self) -> bool
        ensures { result ≡ grammar.is_date self }
    {
        matches!(self, Key::Created | Key::Expires | Key::Referred)
    }

    fn is_count(self) -> bool
        ensures { result ≡ grammar.is_count self }
    {
        matches!(self, Key::Extents | Key::Tracks)
    }
}

impl Op {
    fn is_equality(self) -> bool
        ensures { result ≡ grammar.is_equality self }
    {
        matches!(self, Op::Equal | Op::NotEqual)
    }
}
