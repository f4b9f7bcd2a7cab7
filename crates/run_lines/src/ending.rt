//! How a run ends.

ghost use Rattle.std.specs.Prelude.{◌≡◌, ◌≤◌, ◌+◌, ◌++◌, codes, length};
ghost use Rattle.run_lines.specs.Endings.{status_of, detail_of, last_line, stop_head, input_name, maximum_line, format_line, end_of, IsStop};

use crate::line::Line;
use redo_core::JournalFault;
use vol_label::Serial;

/// A text that a run reads.
#[derive(Clone, Copy, Debug, PartialEq, Eq)]
pub enum Input {
    Sysin,
    Held,
}

impl Input {
    /// The name of its DD statement.
    fn name(self) -> &'static [u8]
        ensures name { result.now ≡ input_name self }
        ensures short { length result.now ≤ 5 }
    {
        match self {
            Input::Sysin => b"SYSIN",
            Input::Held => b"HELD",
        }
    }
}

/// How a run ends: with what it was asked for, or stopped by the first cause in the order of its work.
#[derive(Clone, Copy, Debug, PartialEq, Eq)]
pub enum RunEnd {
    /// All statements ran. This is the greatest condition code.
    Whole(u8),
    /// A journal was made, for so many volumes and with room for so many entries in a commit.
    Formatted(u32, u32),
    /// The pool failed.
    Pool,
    /// The journal breaks the rule with this number.
    BadJournal(u8),
    /// A unit, the serial under which it is registered, and the serial of its label.
    WrongUnit(u32, Serial, Serial),
    /// How many blocks the journal needs, and how many it has.
    JournalSmall(u32, u32),
    /// A text wasn't read.
    Source(Input),
    /// A line wasn't written.
    Sink,
    Memory,
    /// The words name no run, or one that doesn't agree with what is handed in.
    Words,
    /// A text is longer than one may be.
    Long(Input),
    /// A text isn't of its grammar from this line and column on.
    Wrong(Input, u32, u32),
    /// Something is asked for that isn't built.
    NotBuilt,
}

impl From<JournalFault> for RunEnd {
    ghost from_gives = { λ fault end. end ≡ end_of fault };

    fn from(fault: JournalFault) -> RunEnd {
        match fault {
            JournalFault::Pool => RunEnd::Pool,
            JournalFault::BadJournal(rule) => RunEnd::BadJournal(rule),
            JournalFault::WrongUnit(unit, kept, found) => RunEnd::WrongUnit(unit, kept, found),
            JournalFault::JournalSmall(need, have) => RunEnd::JournalSmall(need, have),
            JournalFault::NoMemory => RunEnd::Memory,
        }
    }
}

/// The line of a run whose statements all ran.
fn maximum(code: u8) -> Line
    ensures { result ≡ maximum_line code }
{
    let mut line = Line::new();
    line.push(b"ADR103I (000) MAXIMUM CODE ");
    line.push_number(u32::from(code));
    line.push(b"\n");
    line
}

/// The line of a journal that was made.
fn formatted(units: u32, room: u32) -> Line
    ensures { result ≡ format_line units room }
{
    let mut line = Line::new();
    line.push(b"ADR104I (000) JOURNAL FORMATTED UNITS ");
    line.push_number(units);
    line.push(b" ROOM ");
    line.push_number(room);
    line.push(b"\n");
    line
}

/// Adds a unit that has another serial than it should.
fn push_unit(line: &mut Line, unit: u32, kept: Serial, found: Serial)
    requires { length line.old ≤ 40 }
    ensures text { line.new ≡ line.old ++ detail_of (RunEnd.WrongUnit unit kept found) }
    ensures length { length line.new ≤ length line.old + 44 }
{
    line.push(b": UNIT ");
    line.push_number(unit);
    line.push(b" SERIAL ");
    line.push_serial(kept);
    line.push(b" FOUND ");
    line.push_serial(found);
}

/// Adds how many blocks a journal has, and how many it needs.
fn push_blocks(line: &mut Line, need: u32, have: u32)
    requires { length line.old ≤ 40 }
    ensures text { line.new ≡ line.old ++ detail_of (RunEnd.JournalSmall need have) }
    ensures length { length line.new ≤ length line.old + 44 }
{
    line.push(b": JOURNAL BLOCKS ");
    line.push_number(have);
    line.push(b" NEED ");
    line.push_number(need);
}

/// Adds the number of a rule that a journal breaks.
fn push_rule(line: &mut Line, rule: u8)
    requires { length line.old ≤ 40 }
    ensures text { line.new ≡ line.old ++ detail_of (RunEnd.BadJournal rule) }
    ensures length { length line.new ≤ length line.old + 44 }
{
    line.push(b": JOURNAL ");
    line.push_number(u32::from(rule));
}

/// Adds the name of a text.
fn push_input(line: &mut Line, input: Input)
    requires { length line.old ≤ 40 }
    ensures text { line.new ≡ line.old ++ (codes ": " ++ input_name input) }
    ensures length { length line.new ≤ length line.old + 7 }
{
    line.push(b": ");
    line.push(input.name());
}

/// Adds where a text isn't of its grammar.
fn push_place(line: &mut Line, input: Input, number: u32, column: u32)
    requires { length line.old ≤ 40 }
    ensures text { line.new ≡ line.old ++ detail_of (RunEnd.Wrong input number column) }
    ensures length { length line.new ≤ length line.old + 44 }
{
    push_input(line, input);
    line.push(b" LINE ");
    line.push_number(number);
    line.push(b" COLUMN ");
    line.push_number(column);
}

/// Adds what the status alone doesn't say.
fn push_detail(line: &mut Line, end: RunEnd)
    requires { length line.old ≤ 40 }
    ensures text { line.new ≡ line.old ++ detail_of end }
    ensures length { length line.new ≤ length line.old + 44 }
{
    match end {
        RunEnd::BadJournal(rule) => push_rule(line, rule),
        RunEnd::WrongUnit(unit, kept, found) => push_unit(line, unit, kept, found),
        RunEnd::JournalSmall(need, have) => push_blocks(line, need, have),
        RunEnd::Source(input) | RunEnd::Long(input) => push_input(line, input),
        RunEnd::Wrong(input, number, column) => push_place(line, input, number, column),
        _ => {}
    }
}

/// The line of a run that was stopped, as far as its status says.
fn head_of(end: RunEnd) -> &'static [u8]
    requires { IsStop end }
    ensures text { result.now ≡ stop_head end }
    ensures short { length result.now ≤ 40 }
{
    match end {
        RunEnd::Pool => b"ADR516T (000) RUN ENDED WITH STATUS 16",
        RunEnd::BadJournal(_) | RunEnd::WrongUnit(..) | RunEnd::JournalSmall(..) => {
            b"ADR520T (000) RUN ENDED WITH STATUS 20"
        }
        RunEnd::Source(_) => b"ADR524T (000) RUN ENDED WITH STATUS 24",
        RunEnd::Words => b"ADR536T (000) RUN ENDED WITH STATUS 36",
        RunEnd::Long(_) => b"ADR540T (000) RUN ENDED WITH STATUS 40",
        RunEnd::Wrong(..) => b"ADR544T (000) RUN ENDED WITH STATUS 44",
        RunEnd::NotBuilt => b"ADR548T (000) RUN ENDED WITH STATUS 48",
        RunEnd::Whole(_) | RunEnd::Formatted(..) | RunEnd::Sink | RunEnd::Memory => unreachable!(),
    }
}

/// The last line of a run that was stopped.
fn stop_line(end: RunEnd) -> Line
    requires { IsStop end }
    ensures { result ≡ last_line end }
{
    let mut line = Line::new();
    line.push(head_of(end));
    push_detail(&mut line, end);
    line.push(b"\n");
    line
}

impl RunEnd {
    pub fn status(self) -> u8
        ensures { result ≡ status_of self }
    {
        match self {
            RunEnd::Whole(code) => code,
            RunEnd::Formatted(..) => 0,
            RunEnd::Pool => 16,
            RunEnd::BadJournal(_) | RunEnd::WrongUnit(..) | RunEnd::JournalSmall(..) => 20,
            RunEnd::Source(_) => 24,
            RunEnd::Sink => 28,
            RunEnd::Memory => 32,
            RunEnd::Words => 36,
            RunEnd::Long(_) => 40,
            RunEnd::Wrong(..) => 44,
            RunEnd::NotBuilt => 48,
        }
    }

    /// The last line of the run. A sink that failed and want of memory have none.
    pub fn line(self) -> Line
        ensures { result ≡ last_line self }
    {
        match self {
            RunEnd::Whole(code) => maximum(code),
            RunEnd::Formatted(units, room) => formatted(units, room),
            RunEnd::Sink | RunEnd::Memory => Line::new(),
            _ => stop_line(self),
        }
    }
}
