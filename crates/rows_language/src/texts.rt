//! Texts of SYSIN: commands that aren't built, and why a text is refused.

use std::alloc::Global;
use std::process::Abort;
use std::test::*;
use sysin_lang::DdNames;
use sysin_read::{Command, Filter, Flow, Script, SysinFault, Why, read_sysin};

/// How many patterns a filter includes and excludes, and whether it has criteria.
type Parts = (usize, usize, bool);

/// What a command says: the first character of its volume, in the code page, and the first ones of up to three files.
#[derive(Clone, Copy, Debug, PartialEq, Eq)]
enum Told {
    /// With the index and the number of moves.
    Defrag(u8, Option<u32>, Option<u32>),
    /// With RESET, DELETE, PURGE and TOLERANCE.
    DumpDataset(Parts, u8, [u8; 3], [bool; 4]),
    DumpFull(u8, [u8; 3]),
    /// With PURGE and REPLACE.
    RestoreDataset(Parts, u8, u8, [bool; 2]),
    /// With PURGE.
    RestoreFull(u8, u8, bool),
    Other,
}

fn parts_of(filter: &Filter) -> Parts {
    (
        filter.include.len(),
        filter.exclude.len(),
        filter.by.is_some(),
    )
}

/// The first characters of the first three names, and zeros for those that aren't there.
fn letters_of(names: &DdNames) -> [u8; 3] {
    let mut letters = [0; 3];
    for (place, name) in names.as_slice().iter().enumerate() {
        if place < 3 {
            letters[place] = name.text[0];
        }
    }
    letters
}

fn said_by(command: &Command) -> Told {
    match command {
        Command::Defrag { unit, index, limit } => Told::Defrag(unit.text[0], *index, *limit),
        Command::DumpDataset {
            filter,
            unit,
            outs,
            reset,
            delete,
            purge,
            tolerate,
        } => Told::DumpDataset(
            parts_of(filter),
            unit.text[0],
            letters_of(outs),
            [*reset, *delete, *purge, *tolerate],
        ),
        Command::DumpFull { unit, outs } => Told::DumpFull(unit.text[0], letters_of(outs)),
        Command::RestoreDataset {
            filter,
            input,
            to,
            purge,
            replace,
            ..
        } => Told::RestoreDataset(
            parts_of(filter),
            input.text[0],
            to.text[0],
            [*purge, *replace],
        ),
        Command::RestoreFull { input, to, purge } => {
            Told::RestoreFull(input.text[0], to.text[0], *purge)
        }
        _ => Told::Other,
    }
}

fn read(alloc: Global, text: &[u8]) -> Result<Script, SysinFault> {
    if text.len() > 1_048_576 {
        return Err(SysinFault::NoMemory);
    }
    read_sysin(alloc, text)
}

/// What the first command of a text says.
fn first_told(alloc: Global, text: &[u8]) -> Option<Told> {
    let script = read(alloc, text).ok()?;
    let statement = script.next(&mut Flow::new())?;
    Some(said_by(&statement.command))
}

/// Texts, and their commands.
static COMMANDS: [(&'static [u8], Told); 7] = [
    (b"DEFRAG INDD(A)", Told::Defrag(0xc1, None, None)),
    (
        b"DEFRAG MOVELIMIT(65535) FRAGI(00999) INDD(B)",
        Told::Defrag(0xc2, Some(999), Some(65535)),
    ),
    (
        b"DUMP RESET DS(INC(A,B) EXC(C)) LOGINDDNAME(A) -\n PURGE OUTDD(TAPE1,disk) OPTIMIZE(4)",
        Told::DumpDataset(
            (2, 1, false),
            0xc1,
            [b'T', b'D', 0],
            [true, false, true, false],
        ),
    ),
    (
        b"DUMP TOL(ENQF) DEL DS(BY((DSORG,EQ,PS))) INDD(A) OUTDD(B)",
        Told::DumpDataset((0, 0, true), 0xc1, [b'B', 0, 0], [false, true, false, true]),
    ),
    (
        b"DUMP OUTDD(X,Y,Z) FULL INDD(B)",
        Told::DumpFull(0xc2, [b'X', b'Y', b'Z']),
    ),
    (
        b"RESTORE DS(EXC(B)) INDD(TAPE) OUTDD(A) REPU RENAMEU(X)",
        Told::RestoreDataset((0, 1, false), b'T', 0xc1, [false, true]),
    ),
    (
        b"RESTORE PURGE,OUTDD(B),INDD(A),FULL",
        Told::RestoreFull(b'A', 0xc2, true),
    ),
];

fn assert_commands(rt: &impl Abort, alloc: Global) {
    for &(text, want) in &COMMANDS {
        assert_eq!(rt; first_told(alloc, text), Some(want), "{text:?}");
    }
}

#[test]
fn operands_say_what_is_done(rt: HostRuntime) {
    assert_commands(&rt, rt.alloc());
}

/// Texts that are refused, where, and why.
static CAUSES: [(&'static [u8], u32, u32, Why); 14] = [
    (b"PRINT VTOC INDD(A) DDNAME(A)", 1, 20, Why::Twice),
    (b"RELEASE INDD(A) DS() INC(A)", 1, 22, Why::Twice),
    (
        b"DO\nDO\nDO\nDO\nDO\nDO\nDO\nDO\nDO\nDO\nDO\nDO\nDO\nDO\nDO\nDO\nPRINT VTOC\nIF",
        18,
        1,
        Why::Nesting,
    ),
    (
        b"DUMP FULL INDD(V) OUTDD(A,A,A,A,A,A,A,A,A,A,A,A,A,A,A,A,A)",
        1,
        57,
        Why::Count,
    ),
    (b"PRINT VTOC", 1, 11, Why::Missing),
    (b"PRINT VTOC\n PRINT VTOC INDD(A)", 2, 2, Why::Missing),
    (b"DO PRINT VTOC END", 1, 15, Why::Missing),
    (b"SET MAXCC =", 1, 12, Why::Missing),
    (b"PRINT VTOC INDD(VOL00001)", 1, 17, Why::Value),
    (b"SET MAXCC = 04", 1, 13, Why::Value),
    (b"PRINT VTOC INDD(A) -\n WAIT(1,ELSE)", 2, 9, Why::Value),
    (b"PRINT VOTC INDD(A)", 1, 7, Why::Word),
    (b"PRINT VTOC INDD()", 1, 17, Why::Word),
    (b"SET MAXCC = 0 SET LASTCC = 0", 1, 15, Why::Word),
];

fn refusal(alloc: Global, text: &[u8]) -> Option<SysinFault> {
    read(alloc, text).err()
}

fn assert_causes(rt: &impl Abort, alloc: Global) {
    for &(text, line, column, why) in &CAUSES {
        let want = SysinFault::BadStatement(line, column, why);
        assert_eq!(rt; refusal(alloc, text), Some(want), "{text:?}");
    }
}

#[test]
fn a_text_is_refused_for_a_cause(rt: HostRuntime) {
    assert_causes(&rt, rt.alloc());
}
