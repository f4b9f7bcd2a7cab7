//! Tests: a release and a carry, whose pool fails at each of their calls.

ghost use Rattle.std.specs.Prelude.{IfSome};
ghost use Rattle.job_ops.specs.Meaning.{IsBuilt};

use crate::ground::{BEGINNING, NAMES, SECOND, begun, pool_of};
use by_rules::Day;
use ckd_image::Listed;
use dasd_pool::MemoryPool;
use dsn_filter::Rename;
use enq_table::read_held;
use job_ops::{Outcome, is_built, run_statement};
use move_core::Step;
use rows_bytes::{BASE, GIVEN, Given, RowsFault, SLOT, Vtoc, WITH_SET};
use std::alloc::Global;
use std::process::Abort;
use std::test::*;
use sysin_lang::{Command, Filter, Statement};

/// VOL001 with A.B on tracks 2 to 11, of which a change was interrupted: the format 5 states 13 tracks from 2 on.
static INTERRUPTED: Given = Given {
    vtoc: BASE,
    blocks: &[(SLOT + 87, 4)],
    ..WITH_SET
};

/// VOL001 with A.B on tracks 2 to 4.
static SMALL: Given = Given {
    vtoc: Vtoc {
        entries: &[(5, 10)],
        ..BASE
    },
    blocks: &[(SLOT + 439, 4)],
    ..WITH_SET
};

/// A step in short.
#[derive(Clone, Copy, Debug, PartialEq, Eq)]
enum Kind {
    Repair,
    Shrink,
    Carry,
    Other,
}

fn kind_of(step: &Step) -> Kind {
    match step {
        Step::Repair { unit: 0 } => Kind::Repair,
        Step::Shrink {
            unit: 0,
            keep: 3,
            ..
        } => Kind::Shrink,
        Step::Carry {
            from: 0,
            unit: 1,
            ..
        } => Kind::Carry,
        _ => Kind::Other,
    }
}

/// How a statement ended: its code, if it was done, the step that was under way, how many steps are done, and how many calls the pool had.
#[derive(Clone, Copy, Debug, PartialEq, Eq)]
struct Ended {
    code: Option<u8>,
    under_way: Option<Kind>,
    steps: usize,
    calls: u64,
}

fn end_of(outcome: Outcome<MemoryPool>) -> Ended {
    match outcome {
        Outcome::Done {
            session,
            outs: _outs,
            report,
            steps,
        } => Ended {
            code: Some(report.code),
            under_way: None,
            steps: steps.len(),
            calls: session.into_pool().calls(),
        },
        Outcome::Halted {
            broken,
            outs: _outs,
            report: _report,
            steps,
        } => Ended {
            code: None,
            under_way: broken.pending().map(kind_of),
            steps: steps.len(),
            calls: broken.into_pool().calls(),
        },
        Outcome::Short {
            session,
            outs: _outs,
            report: _report,
            steps,
        } => Ended {
            code: None,
            under_way: None,
            steps: steps.len(),
            calls: session.into_pool().calls(),
        },
    }
}

/// All data sets are released, or carried to VOL002.
fn command_of(alloc: Global, carries: bool) -> Option<Command>
    ensures { IfSome result IsBuilt }
{
    let filter = Filter {
        include: Listed::new(alloc),
        exclude: Listed::new(alloc),
        by: None,
    };
    let [unit, to] = NAMES;
    let command = if carries {
        Command::Copy {
            filter,
            unit,
            to,
            delete: true,
            purge: false,
            replace: false,
            rename: Rename::Keep,
            tolerate: false,
        }
    } else {
        Command::Release { filter, unit }
    };
    if !is_built(&command) {
        return None;
    }
    Some(command)
}

/// Runs the statement on the first day of 2024, over a pool of which these calls fail.
fn run(alloc: Global, carries: bool, failing: &[u64]) -> Result<Option<Ended>, RowsFault> {
    let first = if carries { SMALL } else { INTERRUPTED };
    let Ok(session) = begun(alloc, pool_of(alloc, first, SECOND, failing)?) else {
        return Ok(None);
    };
    let Ok(held) = read_held(alloc, b"") else {
        return Ok(None);
    };
    let Some(command) = command_of(alloc, carries) else {
        return Ok(None);
    };
    let statement = Statement { number: 1, command };
    let today = Day { year: 2024, day: 1 };
    let mut ins = Vec::new(alloc);
    Ok(Some(end_of(run_statement(
        alloc,
        session,
        &statement,
        &held,
        Vec::new(alloc),
        &mut ins,
        today,
        Vec::new(alloc),
    ))))
}

/// A part of a statement, from its last call on: how many calls it has, the step that is under way there, and how many are done before.
type Part = (u64, Option<Kind>, usize);

/// A step that changes one VTOC of one track: a sync; image and directory, and a sync; the gate opens, and a sync; the VTOC, and a sync; the gate closes, and a sync.
const STEP: u64 = 1 + (1 + 1 + 1) + 2 + 2 + 2;

/// Repair and release. What is before them looks at the tracks.
static RELEASE: [Part; 2] = [(STEP, Some(Kind::Shrink), 1), (STEP, Some(Kind::Repair), 0)];

/// A carry reads and writes three tracks as well, and has an image more and a VTOC more.
static CARRY: [Part; 1] = [(STEP + 3 + 3 + 1 + 1, Some(Kind::Carry), 0)];

/// What is to be under way, and how many steps are done, where so many calls are left, this one too.
fn wanted(parts: &[Part], left: u64) -> (Option<Kind>, usize) {
    let mut before = 0u64;
    for (calls, kind, steps) in parts {
        before = before.saturating_add(*calls);
        if left <= before {
            return (*kind, *steps);
        }
    }
    (None, 0)
}

/// Asserts what a failure of each call leaves, where so many are made in all.
fn assert_failures(
    rt: &impl Abort,
    alloc: Global,
    carries: bool,
    parts: &[Part],
    calls: u64,
) -> Result<(), RowsFault> {
    for call in BEGINNING..calls {
        let (under_way, steps) = wanted(parts, calls - call);
        let found = run(alloc, carries, &[call])?;
        let want = Ended {
            code: None,
            under_way,
            steps,
            calls: call + 1,
        };
        assert_eq!(rt; found, Some(want));
    }
    Ok(())
}

#[test]
fn a_release_that_fails_names_the_step_under_way(rt: HostRuntime) -> Result<(), Fail> {
    let whole = run(rt.alloc(), false, &[])?.expect(&rt, "no statement");
    assert_eq!(rt; (whole.code, whole.steps), (Some(4), 2));
    assert!(rt; whole.calls >= BEGINNING + 10 + 2 * STEP);
    assert_failures(&rt, rt.alloc(), false, &RELEASE, whole.calls)?;
    Ok(())
}

#[test]
fn a_carry_that_fails_names_itself(rt: HostRuntime) -> Result<(), Fail> {
    let whole = run(rt.alloc(), true, &[])?.expect(&rt, "no statement");
    assert_eq!(rt; (whole.code, whole.steps), (Some(0), 1));
    assert_failures(&rt, rt.alloc(), true, &CARRY, whole.calls)?;
    Ok(())
}
