//! The statements of a text, token by token.

ghost use Rattle.std.specs.Prelude.{◌≡◌, ◌⊎◌, ◌↔◌, ◌+◌, ◌≤◌, ◌<◌, List, true, false, [], ◌∷◌, ◌++◌, length, IsTrue, IfOk, IfErr, IfSome, IfNone};
ghost use Rattle.sysin_words.specs.declared.lead.Lead.{Lead as LeadOf};
ghost use Rattle.sysin_words.specs.declared.lead.Lead.TheVariants as leads;
ghost use Rattle.sysin_lang.specs.declared.command.Command.{Command as CommandOf};
ghost use Rattle.sysin_lang.specs.declared.script.Step.{Step as StepOf};
ghost use Rattle.sysin_lang.specs.Script.{plan_of, plan_of_script};
ghost use Rattle.sysin_values.specs.declared.fault.ValueFault.TheVariants as values;
ghost use Rattle.sysin_heads.specs.declared.head.HeadPlace.{HeadPlace as HeadOf};
ghost use Rattle.sysin_heads.specs.declared.head.HeadPlace.TheVariants as head_places;
ghost use Rattle.sysin_heads.specs.Reading as head_reading;
ghost use Rattle.sysin_commands.specs.declared.fault.CommandFault.TheVariants as faults;
ghost use Rattle.sysin_commands.specs.CommandProgress.{CommandIsRead, CommandGives};
ghost use Rattle.sysin_commands.specs.CommandLaws.{start_behind};
ghost use Rattle.sysin_read.specs.declared.fault.Stop.TheVariants as stops;
ghost use Rattle.sysin_read.specs.declared.fault.Why.{Why as WhyOf};
ghost use Rattle.sysin_read.specs.declared.fault.Why.TheVariants as whys;
ghost use Rattle.sysin_read.specs.declared.outline.Frame.{Frame as FrameOf};
ghost use Rattle.sysin_read.specs.declared.outline.Frame.TheVariants as frames;
ghost use Rattle.sysin_read.specs.declared.outline.Outline.{Outline as OutlineOf};
ghost use Rattle.sysin_read.specs.declared.text.TextPlace.TheVariants as places;
ghost use Rattle.sysin_read.specs.Statement.{most_nested, most_commands, IsLead, IsElse, IsEnd};
ghost use Rattle.sysin_read.specs.Reading.{open_in, TextReads, TextIsRead};
ghost use Rattle.sysin_read.specs.Why.{StartStops, EndedStops, EndsCommand, IsTooDeep, IsTooMany, around, wants_else, EndsUnfinished, IsToldAs, CommandIsToldAs, BehindStops, WithinStops, StopsAt, TextStops};
ghost use Rattle.sysin_read.specs.Progress.{closing, closing_to_else, behind_then, IsOutline, StartGoes, EndGoes, EndedGoes, HeadLeads, IsWithCommand, WithinGoes, TextGoes, EndsWith, TextGives};
ghost use Rattle.sysin_read.specs.Told.{nothing_read};

use crate::fault::{Stop, Why};
use crate::outline::{Frame, Outline, close_parts, take_else, take_end};
use ckd_image::NoMemory;
use std::alloc::Global;
use sysin_commands::{CommandFault, CommandPlace, CommandReading};
use sysin_heads::{Head, HeadReading};
use sysin_lang::{Command, Script, Statement, Step};
use sysin_text::{Placed, Token};
use sysin_values::ValueFault;
use sysin_words::{Lead, Verb, is_else, is_end, lead_of};

/// How many IFs and DOs stand within one another at most.
const MOST_NESTED: usize = 16;

/// How many commands a text has at most.
const MOST_COMMANDS: u32 = 999;

/// What stands before a token of a text.
#[derive(Drop)]
pub enum TextPlace {
    /// Nothing.
    Text,
    /// A DO.
    Block,
    /// A THEN or ELSE.
    Part,
    /// A statement.
    Ended,
    /// The front of SET, or of an IF up to its THEN.
    Head(HeadReading),
    /// A verb, and the front of its command.
    Command(CommandReading),
}

/// Reads a text token by token.
#[derive(Drop)]
pub struct TextReading {
    pub outline: Outline,
    pub place: TextPlace,
}

impl TextReading {
    pub fn new(alloc: Global) -> TextReading
        ensures reads { TextReads result [] }
        ensures nothing { result ≡ nothing_read }
    {
        TextReading {
            outline: Outline::new(alloc),
            place: TextPlace::Text,
        }
    }

    /// What is read with one more token.
    pub fn take(self, alloc: Global, placed: &Placed) -> Result<TextReading, Stop>
        requires { TextIsRead self }
        ensures taken { IfOk result (TextGoes self placed.now) }
        ensures refused { IfErr result (λ stop. (stop ≡ stops.NoMemory) ⊎ ((why : WhyOf) × (stop ≡ stops.Wrong why) × TextStops self placed.now why)) }
    {
        let TextReading { outline, place } = self;
        match place {
            TextPlace::Text | TextPlace::Part => begin(alloc, outline, placed),
            TextPlace::Block => begin_block(alloc, outline, placed),
            TextPlace::Ended => behind(alloc, outline, placed),
            TextPlace::Head(head) => in_head(outline, head, placed),
            TextPlace::Command(command) => in_command(alloc, outline, command, placed),
        }
    }

    /// The script, where the text may end here.
    pub fn finish(self, alloc: Global) -> Result<Script, Stop>
        requires { TextIsRead self }
        ensures given { IfOk result (λ script. (list : List StepOf) × TextGives self list × (plan_of_script script ≡ plan_of list)) }
        ensures early { IfErr result (λ stop. (stop ≡ stops.NoMemory) ⊎ ((stop ≡ stops.Wrong whys.Missing) × ((list : List StepOf) → ¬ TextGives self list))) }
    {
        let TextReading { outline, place } = self;
        match place {
            TextPlace::Text => Ok(Script::of(outline.steps)),
            TextPlace::Ended => end(outline),
            TextPlace::Command(command) => match command.finish(alloc) {
                Ok(command) => end(with_command(outline, command)?),
                Err(_) => Err(Stop::Wrong(Why::Missing)),
            },
            _ => Err(Stop::Wrong(Why::Missing)),
        }
    }
}

/// The script of a text that ends behind a statement.
fn end(outline: Outline) -> Result<Script, Stop>
    ensures given { IfOk result (λ script. (list : List StepOf) × EndsWith outline list × (plan_of_script script ≡ plan_of list)) }
    ensures early { IfErr result (λ stop. (stop ≡ stops.NoMemory) ⊎ ((stop ≡ stops.Wrong whys.Missing) × ((list : List StepOf) → ¬ EndsWith outline list))) }
{
    let closed = close_parts(outline)?;
    if !closed.frames.is_empty() {
        return Err(Stop::Wrong(Why::Missing));
    }
    Ok(Script::of(closed.steps))
}

/// With a command that has ended.
fn with_command(outline: Outline, command: Command) -> Result<Outline, NoMemory>
    requires { outline.commands < most_commands }
    ensures { IfOk result (IsWithCommand outline command) }
{
    let number = outline.commands + 1;
    let mut outline = outline.with_step(Step::Run(Statement { number, command }))?;
    outline.commands = number;
    Ok(outline)
}

fn is_else_token(placed: &Placed) -> bool
    ensures { IsTrue result ↔ IsElse placed.now }
{
    match &placed.token {
        Token::Word(word) => is_else(word.as_slice()),
        _ => false,
    }
}

fn is_end_token(placed: &Placed) -> bool
    ensures { IsTrue result ↔ IsEnd placed.now }
{
    match &placed.token {
        Token::Word(word) => is_end(word.as_slice()),
        _ => false,
    }
}

/// With what a statement begins that this token begins.
fn lead_in(placed: &Placed) -> Option<Lead>
    ensures some { IfSome result (λ lead. IsLead lead placed.now) }
    ensures none { IfNone result ((lead : LeadOf) → ¬ IsLead lead placed.now) }
{
    match &placed.token {
        Token::Word(word) => lead_of(word.as_slice()),
        _ => None,
    }
}

/// A statement's first token.
fn begin(alloc: Global, outline: Outline, placed: &Placed) -> Result<TextReading, Stop>
    ensures taken { IfOk result (StartGoes outline placed.now) }
    ensures refused { IfErr result (λ stop. (stop ≡ stops.NoMemory) ⊎ ((why : WhyOf) × (stop ≡ stops.Wrong why) × StartStops (open_in outline) outline.commands placed.now why)) }
{
    match lead_in(placed) {
        None => Err(Stop::Wrong(Why::Word)),
        Some(Lead::Set) => begin_head(outline, placed),
        Some(Lead::If) => begin_if(outline, placed),
        Some(Lead::Do) => begin_do(outline),
        Some(Lead::Command(verb)) => begin_command(alloc, outline, verb),
    }
}

/// SET or IF.
fn begin_head(outline: Outline, placed: &Placed) -> Result<TextReading, Stop>
    ensures taken { IfOk result (λ new. (head : HeadOf) × head_reading.Goes head_places.Start placed.now.token head × (new ≡ record { outline = outline; place = places.Head head })) }
    ensures refused { IfErr result (λ stop. (head : HeadOf) → ¬ head_reading.Goes head_places.Start placed.now.token head) }
{
    let mut head = HeadReading::new();
    match head.take(&placed.token) {
        Ok(()) => Ok(TextReading {
            outline,
            place: TextPlace::Head(head),
        }),
        Err(fault) => Err(value_stop(fault)),
    }
}

/// Whether as many IFs and DOs are open as there may be.
fn is_full(outline: &Outline) -> bool
    ensures { IsTrue result ↔ (most_nested ≤ length (open_in outline.now)) }
{
    outline.frames.len() >= MOST_NESTED
}

fn begin_if(outline: Outline, placed: &Placed) -> Result<TextReading, Stop>
    requires { IsLead leads.If placed.now }
    ensures taken { IfOk result (λ new. (length (open_in outline) < most_nested) × (new ≡ record { outline = outline; place = places.Head head_places.If })) }
    ensures refused { IfErr result (λ stop. (stop ≡ stops.Wrong whys.Nesting) × (most_nested ≤ length (open_in outline))) }
{
    if is_full(&outline) {
        return Err(Stop::Wrong(Why::Nesting));
    }
    begin_head(outline, placed)
}

fn begin_do(outline: Outline) -> Result<TextReading, Stop>
    ensures taken { IfOk result (λ new. (length (open_in outline) < most_nested) × (new.place ≡ places.Block) × IsOutline new.outline (frames.Do ∷ open_in outline) outline.steps outline.commands) }
    ensures refused { IfErr result (λ stop. (stop ≡ stops.NoMemory) ⊎ ((stop ≡ stops.Wrong whys.Nesting) × (most_nested ≤ length (open_in outline)))) }
{
    if is_full(&outline) {
        return Err(Stop::Wrong(Why::Nesting));
    }
    let outline = outline.with_frame(Frame::Do)?;
    Ok(TextReading {
        outline,
        place: TextPlace::Block,
    })
}

fn begin_command(alloc: Global, outline: Outline, verb: Verb) -> Result<TextReading, Stop>
    ensures taken { IfOk result (λ new. (outline.commands < most_commands) × (new ≡ record { outline = outline; place = places.Command (start_behind verb) })) }
    ensures refused { IfErr result (λ stop. (stop ≡ stops.Wrong whys.Count) × (most_commands ≤ outline.commands)) }
{
    if outline.commands >= MOST_COMMANDS {
        return Err(Stop::Wrong(Why::Count));
    }
    Ok(TextReading {
        outline,
        place: TextPlace::Command(CommandReading::new(alloc, verb)),
    })
}

/// A token behind DO.
fn begin_block(alloc: Global, outline: Outline, placed: &Placed) -> Result<TextReading, Stop>
    requires { (outer : List FrameOf) × (open_in outline ≡ frames.Do ∷ outer) }
    ensures taken { IfOk result (λ new. EndGoes outline placed.now new ⊎ StartGoes outline placed.now new) }
    ensures refused { IfErr result (λ stop. (stop ≡ stops.NoMemory) ⊎ ((why : WhyOf) × (stop ≡ stops.Wrong why) × (¬ IsEnd placed.now) × StartStops (open_in outline) outline.commands placed.now why)) }
{
    if is_end_token(placed) {
        return end_block(outline);
    }
    begin(alloc, outline, placed)
}

/// A token behind a statement.
fn behind(alloc: Global, outline: Outline, placed: &Placed) -> Result<TextReading, Stop>
    ensures taken { IfOk result (EndedGoes outline placed.now) }
    ensures refused { IfErr result (λ stop. (stop ≡ stops.NoMemory) ⊎ ((why : WhyOf) × (stop ≡ stops.Wrong why) × EndedStops (open_in outline) outline.commands placed.now why)) }
{
    if is_else_token(placed) {
        return begin_else(outline);
    }
    if is_end_token(placed) {
        return end_block(outline);
    }
    if !placed.starts {
        return Err(Stop::Wrong(Why::Word));
    }
    begin(alloc, close_parts(outline)?, placed)
}

fn begin_else(outline: Outline) -> Result<TextReading, Stop>
    ensures taken { IfOk result (λ new. (wants_else (open_in outline) ≡ true) × (new.place ≡ places.Part) × IsOutline new.outline (frames.Else ∷ behind_then (open_in outline)) (outline.steps ++ closing_to_else (open_in outline)) outline.commands) }
    ensures refused { IfErr result (λ stop. (stop ≡ stops.NoMemory) ⊎ ((stop ≡ stops.Wrong whys.Word) × (wants_else (open_in outline) ≡ false))) }
{
    match take_else(outline)? {
        Some(outline) => Ok(TextReading {
            outline,
            place: TextPlace::Part,
        }),
        None => Err(Stop::Wrong(Why::Word)),
    }
}

fn end_block(outline: Outline) -> Result<TextReading, Stop>
    ensures taken { IfOk result (λ new. (outer : List FrameOf) × (around (open_in outline) ≡ frames.Do ∷ outer) × (new.place ≡ places.Ended) × IsOutline new.outline outer (outline.steps ++ closing (open_in outline)) outline.commands) }
    ensures refused { IfErr result (λ stop. (stop ≡ stops.NoMemory) ⊎ ((stop ≡ stops.Wrong whys.Word) × (around (open_in outline) ≡ []))) }
{
    match take_end(outline)? {
        Some(outline) => Ok(TextReading {
            outline,
            place: TextPlace::Ended,
        }),
        None => Err(Stop::Wrong(Why::Word)),
    }
}

/// A token of SET, or of an IF up to its THEN.
fn in_head(outline: Outline, head: HeadReading, placed: &Placed) -> Result<TextReading, Stop>
    ensures taken { IfOk result (λ new. (placed.now.starts ≡ false) × ((next : HeadOf) × head_reading.Goes head placed.now.token next × HeadLeads outline next new)) }
    ensures refused { IfErr result (λ stop. (stop ≡ stops.NoMemory) ⊎ ((why : WhyOf) × (stop ≡ stops.Wrong why) × StopsAt (places.Head head) (open_in outline) outline.commands placed.now why)) }
{
    if placed.starts {
        let commands = outline.commands;
        return Err(Stop::Wrong(unfinished(outline, commands, placed, Why::Word)?));
    }
    let mut head = head;
    match head.take(&placed.token) {
        Ok(()) => Ok(behind_head(outline, head)?),
        Err(fault) => Err(value_stop(fault)),
    }
}

/// What is read behind a token of SET or IF.
fn behind_head(outline: Outline, head: HeadReading) -> Result<TextReading, NoMemory>
    ensures { IfOk result (HeadLeads outline head) }
{
    match head.finish() {
        Some(Head::Set(which, code)) => Ok(TextReading {
            outline: outline.with_step(Step::Set(which, code))?,
            place: TextPlace::Ended,
        }),
        Some(Head::If(which, op, code)) => Ok(TextReading {
            outline: outline
                .with_step(Step::If(which, op, code))?
                .with_frame(Frame::Then)?,
            place: TextPlace::Part,
        }),
        None => Ok(TextReading {
            outline,
            place: TextPlace::Head(head),
        }),
    }
}

/// Why a token is wrong that ends what isn't whole, where this is known.
fn unfinished(outline: Outline, commands: u32, placed: &Placed, known: Why) -> Result<Why, NoMemory>
    ensures { IfOk result (EndsUnfinished (open_in outline) commands placed.now known) }
{
    if !placed.starts {
        return Ok(known);
    }
    let closed = close_parts(outline)?;
    if is_too_deep(&closed, placed) {
        return Ok(Why::Nesting);
    }
    if is_too_many(commands, placed) {
        return Ok(Why::Count);
    }
    Ok(known)
}

/// Whether a token is an IF or DO within as many others as there may be.
fn is_too_deep(outline: &Outline, placed: &Placed) -> bool
    ensures { IsTrue result ↔ IsTooDeep (open_in outline.now) placed.now }
{
    match lead_in(placed) {
        Some(Lead::If | Lead::Do) => is_full(outline),
        _ => false,
    }
}

/// Whether a token is a verb behind as many commands as there may be.
fn is_too_many(commands: u32, placed: &Placed) -> bool
    ensures { IsTrue result ↔ IsTooMany commands placed.now }
{
    match lead_in(placed) {
        Some(Lead::Command(_)) => commands >= MOST_COMMANDS,
        _ => false,
    }
}

fn value_stop(fault: ValueFault) -> Stop
    ensures { ((fault ≡ values.NoMemory) × (result ≡ stops.NoMemory)) ⊎ ((why : WhyOf) × (result ≡ stops.Wrong why) × IsToldAs fault why) }
{
    match fault {
        ValueFault::Count => Stop::Wrong(Why::Count),
        ValueFault::Value => Stop::Wrong(Why::Value),
        ValueFault::Word => Stop::Wrong(Why::Word),
        ValueFault::NoMemory => Stop::NoMemory,
    }
}

fn command_stop(fault: CommandFault) -> Stop
    ensures { ((fault ≡ faults.Value values.NoMemory) × (result ≡ stops.NoMemory)) ⊎ ((why : WhyOf) × (result ≡ stops.Wrong why) × CommandIsToldAs fault why) }
{
    match fault {
        CommandFault::Twice => Stop::Wrong(Why::Twice),
        CommandFault::Missing => Stop::Wrong(Why::Missing),
        CommandFault::Value(fault) => value_stop(fault),
    }
}

/// Whether a token ends a command.
fn ends_command(command: &CommandReading, placed: &Placed) -> bool
    ensures { IsTrue result ↔ EndsCommand command.now placed.now }
{
    let between = !matches!(command.place, CommandPlace::Inside(_));
    placed.starts || (between && (is_else_token(placed) || is_end_token(placed)))
}

/// A token of a command, or behind it.
fn in_command(
    alloc: Global,
    outline: Outline,
    command: CommandReading,
    placed: &Placed,
) -> Result<TextReading, Stop>
    requires read { CommandIsRead command }
    requires few { outline.commands < most_commands }
    ensures taken { IfOk result (WithinGoes outline command placed.now) }
    ensures refused { IfErr result (λ stop. (stop ≡ stops.NoMemory) ⊎ ((why : WhyOf) × (stop ≡ stops.Wrong why) × WithinStops (open_in outline) outline.commands command placed.now why)) }
{
    if ends_command(&command, placed) {
        return behind_command(alloc, outline, command, placed);
    }
    match command.take(alloc, &placed.token) {
        Ok(command) => Ok(TextReading {
            outline,
            place: TextPlace::Command(command),
        }),
        Err(fault) => Err(command_stop(fault)),
    }
}

/// A token that ends a command.
fn behind_command(
    alloc: Global,
    outline: Outline,
    command: CommandReading,
    placed: &Placed,
) -> Result<TextReading, Stop>
    requires { outline.commands < most_commands }
    ensures taken { IfOk result (λ new. (ended : CommandOf) × (after : OutlineOf) × CommandGives command ended × IsWithCommand outline ended after × EndedGoes after placed.now new) }
    ensures refused { IfErr result (λ stop. (stop ≡ stops.NoMemory) ⊎ ((why : WhyOf) × (stop ≡ stops.Wrong why) × BehindStops (open_in outline) (outline.commands + 1) command placed.now why)) }
{
    let commands = outline.commands + 1;
    match command.finish(alloc) {
        Ok(command) => behind(alloc, with_command(outline, command)?, placed),
        Err(fault) => Err(Stop::Wrong(unfinished(outline, commands, placed, known_of(fault))?)),
    }
}

/// What is known where a command isn't whole.
fn known_of(fault: CommandFault) -> Why
    ensures { ((fault ≡ faults.Missing) × (result ≡ whys.Missing)) ⊎ ((¬ (fault ≡ faults.Missing)) × (result ≡ whys.Word)) }
{
    match fault {
        CommandFault::Missing => Why::Missing,
        _ => Why::Word,
    }
}
