//! What stands behind the verb of a command, token by token.

ghost use Rattle.std.specs.Prelude.{◌≡◌, ◌↔◌, ◌⊎◌, ◌&&◌, not, if◌then◌else◌, true, false, Some, None, [], IsTrue, IfOk, IfErr, IfSome, IfNone};
ghost use Rattle.std.specs.List.{list_any};
ghost use Rattle.sysin_lang.specs.declared.command.Command.{Command as CommandOf};
ghost use Rattle.sysin_forms.specs.Operand as forms;
ghost use Rattle.sysin_forms.specs.Form.{keywords_of, is_one_of};
ghost use Rattle.sysin_values.specs.declared.fault.ValueFault.{ValueFault as Known};
ghost use Rattle.sysin_values.specs.declared.fault.ValueFault.TheVariants as values;
ghost use Rattle.sysin_commands.specs.declared.fault.CommandFault.TheVariants as faults;
ghost use Rattle.sysin_commands.specs.declared.operand.AnyPlace.{AnyPlace as PlaceOf};
ghost use Rattle.sysin_commands.specs.declared.command.CommandPlace.TheVariants as places;
ghost use Rattle.sysin_commands.specs.AnyOperand.{AnyIsRead, AnyGoes, AnyStops};
ghost use Rattle.sysin_commands.specs.Command.{takes_all};
ghost use Rattle.sysin_commands.specs.CommandProgress as progress;
ghost use Rattle.sysin_commands.specs.CommandProgress.{one_clashes, may_stand, may_have_more, StartsOperand, StartsNone, StandsAlready, PartStands, IsWhy, Behind, CommandGoes, CommandStops, CommandGives, EndsAt, EndsEarly, Makes, CommandIsRead};

use crate::fault::CommandFault;
use crate::operand::{AnyPlace, AnyReading};
use ckd_image::Listed;
use std::alloc::Global;
use sysin_filters::FilterPlace;
use sysin_forms::{Form, Operand, clashes, command_of, fits, forms_of, has, is_part};
use sysin_lang::Command;
use sysin_operands::OperandPlace;
use sysin_text::Token;
use sysin_values::ValueFault;
use sysin_words::{Keyword, Verb, keyword_of};

/// What stands before a token of a command.
#[derive(Drop)]
pub enum CommandPlace {
    /// Its verb.
    First,
    /// An operand.
    Behind,
    /// A comma behind an operand.
    Comma,
    /// The front of an operand.
    Inside(AnyPlace),
}

/// Reads the operands of a command with this verb.
#[derive(Drop)]
pub struct CommandReading {
    pub verb: Verb,
    pub operands: Listed<Operand>,
    pub place: CommandPlace,
}

/// Whether a form may have these, and one with this keyword.
fn fits_with(form: Form, operands: &[Operand], keyword: Keyword) -> bool
    ensures { result ≡ (takes_all form operands.now && is_one_of (keywords_of form) keyword) }
{
    fits(form, operands) && form.takes(keyword)
}

/// Whether a form of the verb may.
fn has_form(verb: Verb, operands: &[Operand], keyword: Keyword) -> bool
    ensures { result ≡ progress.has_form verb operands.now keyword }
{
    forms_of(verb)
        .iter()
        .any(|form| fits_with(*form, operands, keyword))
}

/// Whether an operand with this keyword may stand behind these.
fn may_follow(verb: Verb, operands: &[Operand], keyword: Keyword) -> bool
    ensures { result ≡ may_stand verb operands.now keyword }
{
    has_form(verb, operands, keyword) && !clashes(operands, keyword)
}

/// Whether one of these keywords clashes with no operand.
fn one_is_free(operands: &[Operand], keywords: &[Keyword]) -> bool
    ensures { result ≡ list_any (λ keyword. not (one_clashes operands.now keyword)) keywords.now }
{
    keywords.iter().any(|keyword| !clashes(operands, *keyword))
}

/// Whether some operand of a form may.
fn has_room_in(form: Form, operands: &[Operand]) -> bool
    ensures { result ≡ progress.has_room form operands.now }
{
    fits(form, operands) && one_is_free(operands, form.keywords())
}

/// Whether some operand may.
fn has_room(verb: Verb, operands: &[Operand]) -> bool
    ensures { result ≡ may_have_more verb operands.now }
{
    forms_of(verb)
        .iter()
        .any(|form| has_room_in(*form, operands))
}

impl CommandReading {
    pub fn new(alloc: Global, verb: Verb) -> CommandReading
        ensures { result ≡ record { verb = verb; operands = []; place = places.First } }
    {
        CommandReading {
            verb,
            operands: Listed::new(alloc),
            place: CommandPlace::First,
        }
    }

    /// What is read with one more token.
    pub fn take(self, alloc: Global, token: &Token) -> Result<CommandReading, CommandFault>
        requires { CommandIsRead self }
        ensures taken { IfOk result (CommandGoes self token.now) }
        ensures read { IfOk result CommandIsRead }
        ensures refused { IfErr result (CommandStops self token.now) }
    {
        let CommandReading {
            verb,
            operands,
            place,
        } = self;
        match (place, token) {
            (CommandPlace::Inside(place), _) => inside(alloc, verb, operands, place, token),
            (CommandPlace::Behind, Token::Comma) if has_room(verb, operands.as_slice()) => Ok(
                CommandReading {
                    verb,
                    operands,
                    place: CommandPlace::Comma,
                },
            ),
            _ => started(alloc, verb, operands, token),
        }
    }

    /// The command, where one ends here.
    pub fn finish(self, alloc: Global) -> Result<Command, CommandFault>
        ensures given { IfOk result (CommandGives self) }
        ensures early { IfErr result (EndsEarly self) }
    {
        let between = is_between(&self.place);
        let CommandReading { verb, operands, .. } = self;
        end_of(between, made(alloc, verb, operands))
    }
}

/// Whether no operand is begun, and no comma stands behind one.
fn is_between(place: &CommandPlace) -> bool
    ensures { IsTrue result ↔ EndsAt place.now }
{
    matches!(place, CommandPlace::First | CommandPlace::Behind)
}

/// The command that is made, between operands.
fn end_of(between: bool, made: Option<Command>) -> Result<Command, CommandFault>
    ensures given { IfOk result (λ command. (between ≡ true) × (made ≡ Some command)) }
    ensures early { IfErr result (λ fault. ((made ≡ None) × (fault ≡ faults.Missing)) ⊎ ((between ≡ false) × (fault ≡ faults.Value values.Word) × ((command : CommandOf) × (made ≡ Some command)))) }
{
    match made {
        Some(command) if between => Ok(command),
        Some(_) => Err(CommandFault::Value(ValueFault::Word)),
        None => Err(CommandFault::Missing),
    }
}

/// Begins an operand.
fn started(
    alloc: Global,
    verb: Verb,
    operands: Listed<Operand>,
    token: &Token,
) -> Result<CommandReading, CommandFault>
    ensures taken { IfOk result (StartsOperand (record { verb = verb; operands = operands; place = places.First }) token.now) }
    ensures refused { IfErr result (λ fault. (fault ≡ faults.Value values.NoMemory) ⊎ (StartsNone (record { verb = verb; operands = operands; place = places.First }) token.now × IsWhy (StandsAlready operands token.now) values.Word fault)) }
{
    let Token::Word(word) = token else {
        return Err(CommandFault::Value(ValueFault::Word));
    };
    let Some(keyword) = keyword_of(word.as_slice()) else {
        return Err(CommandFault::Value(ValueFault::Word));
    };
    if clashes(operands.as_slice(), keyword) {
        return Err(CommandFault::Twice);
    }
    if !may_follow(verb, operands.as_slice(), keyword) {
        return Err(CommandFault::Value(ValueFault::Word));
    }
    match AnyReading::new(verb).take(alloc, token) {
        Ok(reading) => placed(verb, operands, reading.place),
        Err(fault) => Err(CommandFault::Value(fault)),
    }
}

/// Goes on with an operand.
fn inside(
    alloc: Global,
    verb: Verb,
    operands: Listed<Operand>,
    place: AnyPlace,
    token: &Token,
) -> Result<CommandReading, CommandFault>
    requires { AnyIsRead verb place }
    ensures taken { IfOk result (λ new. (next : PlaceOf) × AnyGoes verb place token.now next × (new ≡ Behind (record { verb = verb; operands = operands; place = places.First }) next)) }
    ensures refused { IfErr result (λ fault. (fault ≡ faults.Value values.NoMemory) ⊎ ((known : Known) × AnyStops verb place token.now known × IsWhy (PartStands place token.now) known fault)) }
{
    let stands = part_stands(&place, token);
    match (AnyReading { verb, place }).take(alloc, token) {
        Ok(reading) => placed(verb, operands, reading.place),
        Err(known) => Err(why(stands, known)),
    }
}

/// What stands already is told so, and of all else what is known of it.
fn why(stands: bool, known: ValueFault) -> CommandFault
    ensures { result ≡ (if stands then faults.Twice else faults.Value known) }
{
    if stands {
        CommandFault::Twice
    } else {
        CommandFault::Value(known)
    }
}

/// Adds an operand where it ends.
fn placed(
    verb: Verb,
    operands: Listed<Operand>,
    place: AnyPlace,
) -> Result<CommandReading, CommandFault>
    ensures placed { IfOk result (λ new. new ≡ Behind (record { verb = verb; operands = operands; place = places.First }) place) }
    ensures memory { IfErr result (λ fault. fault ≡ faults.Value values.NoMemory) }
{
    let mut operands = operands;
    match place {
        AnyPlace::Plain(OperandPlace::Ended(operand)) => {
            operands.push(operand)?;
            Ok(CommandReading {
                verb,
                operands,
                place: CommandPlace::Behind,
            })
        }
        AnyPlace::Whole(filter) => {
            operands.push(Operand::Dataset(filter))?;
            Ok(CommandReading {
                verb,
                operands,
                place: CommandPlace::Behind,
            })
        }
        place => Ok(CommandReading {
            verb,
            operands,
            place: CommandPlace::Inside(place),
        }),
    }
}

/// Whether the token begins a part that stands already in the filter that is read.
fn part_stands(place: &AnyPlace, token: &Token) -> bool
    ensures { IsTrue result ↔ PartStands place.now token.now }
{
    let (AnyPlace::Inside(filter), Token::Word(word)) = (place, token) else {
        return false;
    };
    if matches!(filter.place, FilterPlace::Inside(_)) {
        return false;
    }
    match keyword_of(word.as_slice()) {
        Some(keyword) => is_part(keyword) && clashes(filter.parts.as_slice(), keyword),
        None => false,
    }
}

/// The one form of the verb that these operands can make.
fn form_with(verb: Verb, operands: &[Operand]) -> Form
    ensures { result ≡ progress.form_with verb operands.now }
{
    match verb {
        Verb::Print => Form::Print,
        Verb::Release => Form::Release,
        Verb::Consolidate => Form::Consolidate,
        Verb::Defrag => Form::Defrag,
        Verb::Copy => Form::Copy,
        Verb::Dump if has(operands, Keyword::Full) => Form::DumpFull,
        Verb::Dump => Form::DumpDataset,
        Verb::Restore if has(operands, Keyword::Full) => Form::RestoreFull,
        Verb::Restore => Form::RestoreDataset,
    }
}

/// The command that these operands make, if they make one.
fn made(alloc: Global, verb: Verb, operands: Listed<Operand>) -> Option<Command>
    ensures some { IfSome result (Makes verb operands) }
    ensures none { IfNone result ((command : CommandOf) → ¬ Makes verb operands command) }
{
    let form = form_with(verb, operands.as_slice());
    if !fits(form, operands.as_slice()) {
        return None;
    }
    command_of(alloc, form, operands)
}
