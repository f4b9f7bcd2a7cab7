//! The parts of a filter, token by token.

ghost use Rattle.std.specs.Prelude.{◌≡◌, ◌↔◌, ◌⊎◌, [], IsTrue, IfOk, IfErr};
ghost use Rattle.sysin_forms.specs.Operand as forms;
ghost use Rattle.sysin_filters.specs.declared.filter.FilterPlace.TheVariants as places;
ghost use Rattle.sysin_filters.specs.Progress.{may_stand, may_have_more, StartsPart, StartsNone, Behind, FilterGoes, FilterStops, FilterGives, FilterIsRead, CanEnd};
ghost use Rattle.sysin_operands.specs.declared.operand.OperandPlace.{OperandPlace as PlaceOf};
ghost use Rattle.sysin_operands.specs.Operand.{OperandIsRead, OperandGoes, OperandStops};
ghost use Rattle.sysin_values.specs.declared.fault.ValueFault.TheVariants as faults;

use ckd_image::Listed;
use std::alloc::Global;
use sysin_forms::{Operand, clashes, filter_of, is_part};
use sysin_lang::Filter;
use sysin_operands::{OperandPlace, OperandReading};
use sysin_text::Token;
use sysin_values::ValueFault;
use sysin_words::{Keyword, Verb, keyword_of};

/// What stands before a token of a filter.
#[derive(Drop)]
pub enum FilterPlace {
    /// Nothing.
    First,
    /// A part.
    Behind,
    /// A comma behind a part.
    Comma,
    /// The front of a part.
    Inside(OperandPlace),
}

/// Reads the parts of a filter in a command with this verb.
#[derive(Drop)]
pub struct FilterReading {
    pub verb: Verb,
    pub parts: Listed<Operand>,
    pub place: FilterPlace,
}

/// Whether a part with this keyword may stand behind these.
fn may_follow(parts: &[Operand], keyword: Keyword) -> bool
    ensures { result ≡ may_stand parts.now keyword }
{
    is_part(keyword) && !clashes(parts, keyword)
}

/// Whether any part may.
fn has_room(parts: &[Operand]) -> bool
    ensures { result ≡ may_have_more parts.now }
{
    may_follow(parts, Keyword::Include)
        || may_follow(parts, Keyword::Exclude)
        || may_follow(parts, Keyword::By)
}

impl FilterReading {
    pub fn new(alloc: Global, verb: Verb) -> FilterReading
        ensures { result ≡ record { verb = verb; parts = []; place = places.First } }
    {
        FilterReading {
            verb,
            parts: Listed::new(alloc),
            place: FilterPlace::First,
        }
    }

    /// What is read with one more token.
    pub fn take(self, alloc: Global, token: &Token) -> Result<FilterReading, ValueFault>
        requires { FilterIsRead self }
        ensures taken { IfOk result (FilterGoes self token.now) }
        ensures read { IfOk result FilterIsRead }
        ensures refused { IfErr result (FilterStops self token.now) }
    {
        let FilterReading { verb, parts, place } = self;
        match (place, token) {
            (FilterPlace::Inside(place), _) => inside(alloc, verb, parts, place, token),
            (FilterPlace::Behind, Token::Comma) if has_room(parts.as_slice()) => Ok(
                FilterReading {
                    verb,
                    parts,
                    place: FilterPlace::Comma,
                },
            ),
            _ => started(alloc, verb, parts, token),
        }
    }

    /// Whether the filter may end here.
    pub fn has_ended(&self) -> bool
        ensures { IsTrue result ↔ CanEnd self.now }
    {
        matches!(self.place, FilterPlace::First | FilterPlace::Behind)
    }

    /// The filter that was read, where it may end.
    pub fn finish(self, alloc: Global) -> Filter
        requires { CanEnd self }
        ensures { FilterGives self result }
    {
        let FilterReading { parts, .. } = self;
        filter_of(alloc, parts)
    }
}

/// Begins a part.
fn started(
    alloc: Global,
    verb: Verb,
    parts: Listed<Operand>,
    token: &Token,
) -> Result<FilterReading, ValueFault>
    ensures taken { IfOk result (StartsPart (record { verb = verb; parts = parts; place = places.First }) token.now) }
    ensures refused { IfErr result (λ fault. (fault ≡ faults.Word) × StartsNone (record { verb = verb; parts = parts; place = places.First }) token.now) }
{
    let Token::Word(word) = token else {
        return Err(ValueFault::Word);
    };
    match keyword_of(word.as_slice()) {
        Some(keyword) if may_follow(parts.as_slice(), keyword) => {}
        _ => return Err(ValueFault::Word),
    }
    let reading = OperandReading::new(verb).take(alloc, token)?;
    Ok(FilterReading {
        verb,
        parts,
        place: FilterPlace::Inside(reading.place),
    })
}

/// Goes on with a part, and adds it where it ends.
fn inside(
    alloc: Global,
    verb: Verb,
    parts: Listed<Operand>,
    place: OperandPlace,
    token: &Token,
) -> Result<FilterReading, ValueFault>
    requires { OperandIsRead verb place }
    ensures taken { IfOk result (λ new. (next : PlaceOf) × OperandGoes verb place token.now next × (new ≡ Behind (record { verb = verb; parts = parts; place = places.First }) next)) }
    ensures refused { IfErr result (λ fault. (fault ≡ faults.NoMemory) ⊎ OperandStops verb place token.now fault) }
{
    let reading = OperandReading { verb, place }.take(alloc, token)?;
    let mut parts = parts;
    match reading.place {
        OperandPlace::Ended(operand) => {
            parts.push(operand)?;
            Ok(FilterReading {
                verb,
                parts,
                place: FilterPlace::Behind,
            })
        }
        place => Ok(FilterReading {
            verb,
            parts,
            place: FilterPlace::Inside(place),
        }),
    }
}
