//! Any operand, DATASET among them, token by token.

ghost use Rattle.std.specs.Prelude.{◌≡◌, ◌↔◌, IsTrue, IfOk, IfErr, IfSome, IfNone};
ghost use Rattle.sysin_forms.specs.declared.operand.Operand.{Operand as OperandOf};
ghost use Rattle.sysin_text.specs.declared.token.Token.TheVariants as tokens;
ghost use Rattle.sysin_values.specs.declared.fault.ValueFault.TheVariants as faults;
ghost use Rattle.sysin_operands.specs.declared.operand.OperandPlace.TheVariants as plains;
ghost use Rattle.sysin_operands.specs.Operand.{OperandIsRead};
ghost use Rattle.sysin_filters.specs.Progress.{CanEnd, FilterStops, FilterIsRead};
ghost use Rattle.sysin_filters.specs.Laws.{start_with};
ghost use Rattle.sysin_commands.specs.AnyOperand.{AnyIsRead, StartsDataset, EndsOrGoes, AnyGoes, AnyStops, AnyGives};
ghost use Rattle.sysin_commands.specs.declared.operand.AnyPlace.TheVariants as places;

use std::alloc::Global;
use sysin_filters::FilterReading;
use sysin_forms::Operand;
use sysin_lang::Filter;
use sysin_operands::{OperandPlace, OperandReading};
use sysin_text::Token;
use sysin_values::ValueFault;
use sysin_words::{Keyword, Verb, keyword_of};

/// What is read of an operand so far.
#[derive(Drop)]
pub enum AnyPlace {
    /// Nothing, or tokens of an operand that isn't DATASET.
    Plain(OperandPlace),
    /// The keyword DATASET.
    Named,
    /// Its first bracket, and the front of a filter.
    Inside(FilterReading),
    /// DATASET with its filter, and the last bracket.
    Whole(Filter),
}

/// Reads any operand of a command with this verb.
#[derive(Drop)]
pub struct AnyReading {
    pub verb: Verb,
    pub place: AnyPlace,
}

impl AnyReading {
    pub fn new(verb: Verb) -> AnyReading
        ensures { result ≡ record { verb = verb; place = places.Plain plains.Start } }
    {
        AnyReading {
            verb,
            place: AnyPlace::Plain(OperandPlace::Start),
        }
    }

    /// What is read with one more token.
    pub fn take(self, alloc: Global, token: &Token) -> Result<AnyReading, ValueFault>
        requires { AnyIsRead self.verb self.place }
        ensures verb { IfOk result (λ new. new.verb ≡ self.verb) }
        ensures taken { IfOk result (λ new. AnyGoes self.verb self.place token.now new.place) }
        ensures read { IfOk result (λ new. AnyIsRead new.verb new.place) }
        ensures refused { IfErr result (AnyStops self.verb self.place token.now) }
    {
        let AnyReading { verb, place } = self;
        let place = step(alloc, verb, place, token)?;
        Ok(AnyReading { verb, place })
    }

    /// The operand, where it is read whole.
    pub fn finish(self) -> Option<Operand>
        ensures some { IfSome result (AnyGives self.place) }
        ensures none { IfNone result ((operand : OperandOf) → ¬ AnyGives self.place operand) }
    {
        let AnyReading { verb, place } = self;
        match place {
            AnyPlace::Plain(place) => OperandReading { verb, place }.finish(),
            AnyPlace::Whole(filter) => Some(Operand::Dataset(filter)),
            AnyPlace::Named | AnyPlace::Inside(_) => None,
        }
    }
}

/// What is behind one more token.
fn step(alloc: Global, verb: Verb, place: AnyPlace, token: &Token) -> Result<AnyPlace, ValueFault>
    requires { AnyIsRead verb place }
    ensures taken { IfOk result (AnyGoes verb place token.now) }
    ensures refused { IfErr result (AnyStops verb place token.now) }
{
    match place {
        AnyPlace::Plain(place) => plain(alloc, verb, place, token),
        AnyPlace::Named => opened(alloc, verb, token),
        AnyPlace::Inside(filter) => inside(alloc, filter, token),
        AnyPlace::Whole(_) => Err(ValueFault::Word),
    }
}

/// Whether DATASET begins here.
fn starts_dataset(place: &OperandPlace, token: &Token) -> bool
    ensures { IsTrue result ↔ StartsDataset place.now token.now }
{
    match (place, token) {
        (OperandPlace::Start, Token::Word(word)) => matches!(
            keyword_of(word.as_slice()),
            Some(Keyword::Dataset)
        ),
        _ => false,
    }
}

/// What is behind a token of another operand, or behind the keyword DATASET.
fn plain(
    alloc: Global,
    verb: Verb,
    place: OperandPlace,
    token: &Token,
) -> Result<AnyPlace, ValueFault>
    requires { OperandIsRead verb place }
    ensures taken { IfOk result (AnyGoes verb (places.Plain place) token.now) }
    ensures refused { IfErr result (AnyStops verb (places.Plain place) token.now) }
{
    if starts_dataset(&place, token) {
        return Ok(AnyPlace::Named);
    }
    let reading = OperandReading { verb, place }.take(alloc, token)?;
    Ok(AnyPlace::Plain(reading.place))
}

/// What is behind the first bracket of DATASET.
fn opened(alloc: Global, verb: Verb, token: &Token) -> Result<AnyPlace, ValueFault>
    ensures taken { IfOk result (λ new. (token.now ≡ tokens.Open) × (new ≡ places.Inside (start_with verb))) }
    ensures refused { IfErr result (λ fault. (fault ≡ faults.Word) × ¬ (token.now ≡ tokens.Open)) }
{
    match token {
        Token::Open => Ok(AnyPlace::Inside(FilterReading::new(alloc, verb))),
        _ => Err(ValueFault::Word),
    }
}

/// What is behind a token in the brackets of DATASET, or behind the last of them.
fn inside(alloc: Global, filter: FilterReading, token: &Token) -> Result<AnyPlace, ValueFault>
    requires { FilterIsRead filter }
    ensures taken { IfOk result (EndsOrGoes filter token.now) }
    ensures refused { IfErr result (λ fault. (token.now ≡ tokens.Close → ¬ CanEnd filter) × FilterStops filter token.now fault) }
{
    match token {
        Token::Close if filter.has_ended() => Ok(AnyPlace::Whole(filter.finish(alloc))),
        _ => Ok(AnyPlace::Inside(filter.take(alloc, token)?)),
    }
}
