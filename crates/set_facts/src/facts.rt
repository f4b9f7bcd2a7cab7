//! The facts of a data set, by its format 1 and its extents.

ghost use Rattle.std.specs.Prelude.{◌≡◌, ◌↔◌, ◌+◌, ◌/◌, ◌≤◌, IsTrue, All};
ghost use Rattle.volume_model.specs.Dscbs.{number_at as number_in};
ghost use Rattle.volume_model.specs.Pinned.{AreByCylinders};
ghost use Rattle.volume_model.specs.Reads.{fields_of_1};
ghost use Rattle.set_facts.specs.Facts.{day_at as day_in, kind_of_bits as kind_in, facts_from, IsNever, IsUnexpired};

use by_rules::{AllocKind, Day, RowFacts};
use dscb_rec::Extent;

/// The type of an extent on cylinder boundaries.
pub const CYLINDERS: u8 = 0x81;

/// Two bytes of a format 1 as a number.
fn number_at(f1: &[u8; 140], offset: usize) -> u16
    requires { offset + 2 ≤ 140 }
    ensures { result ≡ number_in f1.now offset }
{
    256 * u16::from(f1[offset]) + u16::from(f1[offset + 1])
}

/// The date at an offset of a format 1.
fn day_at(f1: &[u8; 140], offset: usize) -> Day
    requires { offset + 3 ≤ 140 }
    ensures { result ≡ day_in f1.now offset }
{
    Day {
        year: 1900 + u16::from(f1[offset]),
        day: number_at(f1, offset + 1),
    }
}

fn alloc_kind(bits: u8) -> AllocKind
    ensures { result ≡ kind_in bits }
{
    match bits {
        0 => AllocKind::Absolute,
        1 => AllocKind::Blocks,
        2 => AllocKind::Tracks,
        _ => AllocKind::Cylinders,
    }
}

/// What criteria ask of a data set that has this format 1, and so many extents and tracks (DFSMSdss Storage Administration, BY).
pub fn row_facts(f1: &[u8; 140], extents: u32, tracks: u32) -> RowFacts
    ensures { result ≡ facts_from (fields_of_1 f1.now) extents tracks }
{
    RowFacts {
        dsorg: number_at(f1, 82),
        created: day_at(f1, 53),
        expires: day_at(f1, 56),
        referred: day_at(f1, 75),
        extents,
        tracks,
        changed: f1[93] & 0x02 != 0,
        alloc_kind: alloc_kind(f1[94] / 64),
        sequence: u32::from(number_at(f1, 51)),
    }
}

/// Whether a date is one of those that say that a data set never expires.
fn is_never(date: Day) -> bool
    ensures { IsTrue result ↔ IsNever date }
{
    date.year == 1999 && matches!(date.day, 365 | 366 | 999)
}

/// Whether a data set with this format 1 is unexpired today.
pub fn is_unexpired(f1: &[u8; 140], today: Day) -> bool
    ensures { IsTrue result ↔ IsUnexpired (fields_of_1 f1.now) today }
{
    let expires = day_at(f1, 56);
    is_never(expires) || today.is_earlier(expires)
}

/// Whether the type of each extent is that of cylinders.
fn are_on_cylinders(extents: &[Extent]) -> bool
    ensures { IsTrue result ↔ All (λ extent. extent.kind ≡ 0x81) extents.now }
{
    extents.iter().all(|extent| extent.kind == CYLINDERS)
}

/// Whether a data set with these extents is of cylinders.
pub fn is_by_cylinders(extents: &[Extent]) -> bool
    ensures { IsTrue result ↔ AreByCylinders (λ extent. extent.kind) extents.now }
{
    if extents.is_empty() {
        return false;
    }
    are_on_cylinders(extents)
}
