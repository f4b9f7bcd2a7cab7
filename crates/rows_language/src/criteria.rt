//! Criteria of a text by itself, facts that no small volume has, and days.

use by_rules::*;
use std::alloc::Global;
use std::process::Abort;
use std::test::*;

const TODAY: Day = Day { year: 2024, day: 1 };

/// A data set of more tracks than a volume has.
static LARGE: RowFacts = RowFacts {
    dsorg: 0x4100,
    created: Day { year: 1950, day: 1 },
    expires: Day { year: 1900, day: 0 },
    referred: TODAY,
    extents: 3,
    tracks: 70_000,
    changed: true,
    alloc_kind: AllocKind::Cylinders,
    sequence: 1,
};

fn read(alloc: Global, text: &[u8]) -> Result<Criteria, ByFault> {
    if text.len() > 1_048_576 {
        return Err(ByFault::NoMemory);
    }
    Criteria::read(alloc, text)
}

/// Texts, and the place of the first wrong token, or their end.
static WRONG: [(&'static [u8], u32); 10] = [
    (b"", 0),
    (b"DSORG,EQ,PS", 0),
    (b"(dsorg,EQ,PS)", 1),
    (b"(DSORG,EQX,PS)", 7),
    (b"(DSORG,EQ, PS)", 10),
    (b"(EXTNT,EQ,1", 11),
    (b"(EXTNT,EQ,1))", 12),
    (b"(EXTNT,EQ,1),", 13),
    (b"(EXPDT,EQ,24367)", 10),
    (b"(REFDT,LT,(*,-36501))", 13),
];

fn assert_wrong(rt: &impl Abort, alloc: Global) {
    for &(text, place) in &WRONG {
        let refused = read(alloc, text).err();
        assert_eq!(rt; refused, Some(ByFault::BadCriterion(place)), "{text:?}");
    }
}

#[test]
fn a_wrong_token_is_named_with_its_place(rt: HostRuntime) {
    assert_wrong(&rt, rt.alloc());
}

/// Criteria, and whether a large data set satisfies them.
static ASKED: [(&'static [u8], bool); 6] = [
    (b"(FSIZE,GT,65535)", true),
    (b"(FSIZE,LE,65535)", false),
    (b"(REFDT,EQ,(*))", true),
    (b"(REFDT,NE,((*,5),(*)))", false),
    (b"(DSORG,EQ,SAM),(ALLOC,EQ,CYL)(DSCHA,EQ,YES)", true),
    (b"(CREDT,LT,49001)(EXTNT,GT,3)", false),
];

/// Whether a data set satisfies criteria on a day.
fn holds(alloc: Global, text: &[u8], row: &RowFacts, today: Day) -> Option<bool> {
    let criteria = read(alloc, text).ok()?;
    if today.can_be_today() {
        Some(criteria.holds(row, today))
    } else {
        None
    }
}

fn assert_asked(rt: &impl Abort, alloc: Global) {
    for &(text, wanted) in &ASKED {
        let found = holds(alloc, text, &LARGE, TODAY);
        assert_eq!(rt; found, Some(wanted), "{text:?}");
    }
}

#[test]
fn a_row_satisfies_its_criteria(rt: HostRuntime) {
    assert_asked(&rt, rt.alloc());
}

/// A criterion, a today, and the day on which it holds then.
static DATES: [(&'static [u8], (u16, u16), (u16, u16)); 12] = [
    (b"(REFDT,EQ,(*))", (2024, 366), (2024, 366)),
    (b"(REFDT,EQ,(*,1))", (2023, 365), (2024, 1)),
    (b"(REFDT,EQ,(*,1))", (2024, 365), (2024, 366)),
    (b"(REFDT,EQ,(*,1))", (2024, 366), (2025, 1)),
    (b"(REFDT,EQ,(*,1))", (2100, 365), (2101, 1)),
    (b"(REFDT,EQ,(*,-1))", (2024, 1), (2023, 365)),
    (b"(REFDT,EQ,(*,-0001))", (2025, 1), (2024, 366)),
    (b"(REFDT,EQ,(*,-36500))", (2024, 1), (1924, 26)),
    (b"(REFDT,EQ,(*,36500))", (2024, 1), (2123, 342)),
    (b"(REFDT,EQ,(*,-36500))", (1900, 1), (1800, 25)),
    (b"(REFDT,EQ,(*,36500))", (2155, 365), (2255, 341)),
    (b"(REFDT,EQ,(*,-0))", (2000, 60), (2000, 60)),
];

fn day_of((year, day): (u16, u16)) -> Day {
    Day { year, day }
}

fn assert_dates(rt: &impl Abort, alloc: Global) {
    for &(text, today, on) in &DATES {
        let row = RowFacts {
            referred: day_of(on),
            ..LARGE
        };
        let found = holds(alloc, text, &row, day_of(today));
        assert_eq!(rt; found, Some(true), "{text:?} {today:?}");
    }
}

#[test]
fn dates_from_today_on_are_those_of_the_calendar(rt: HostRuntime) {
    assert_dates(&rt, rt.alloc());
}

/// Days, and whether one can be today.
static DAYS: [((u16, u16), bool); 8] = [
    ((1899, 365), false),
    ((1900, 1), true),
    ((1900, 365), true),
    ((1900, 366), false),
    ((2000, 366), true),
    ((2023, 0), false),
    ((2155, 365), true),
    ((2156, 1), false),
];

fn assert_days(rt: &impl Abort) {
    for &(day, can_be) in &DAYS {
        assert_eq!(rt; day_of(day).can_be_today(), can_be, "{day:?}");
    }
}

#[test]
fn a_day_that_no_year_has_is_no_today(rt: HostRuntime) {
    assert_days(&rt);
}
