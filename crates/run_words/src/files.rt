//! Options whose value is a name and a path: units and dumps.

ghost use Rattle.std.specs.Prelude.{◌≡◌, ◌≢◌, ◌↔◌, ℕ, List, ◌∷◌, ◌++◌, All, AllPairs, IsTrue, IfSome, IfNone};
ghost use Rattle.std.specs.List.{AllZip};
ghost use Rattle.dd_names.specs.declared.dd.DdName.{DdName};
ghost use Rattle.vol_label.specs.declared.serial.Serial.{Serial};
ghost use Rattle.run_words.specs.Words.{values_of, IsParted, IsUnit, IsDd, AreUnits, AreDds};
ghost use Rattle.run_words.specs.Parts.{Judged};
ghost use Rattle.run_words.specs.declared.name.Name.TheVariants as names;

use crate::fault::WordsFault;
use crate::given::Given;
use crate::name::Name;
use crate::values::values_of;
use ckd_image::{Listed, Word, text};
use dd_names::DdName;
use std::alloc::Global;
use vol_label::Serial;

/// Volumes by their serials, each with the path of its image.
pub type UnitPaths = Listed<(Serial, Word)>;

/// Dumps by their DD names, each with the path of its file.
pub type DdPaths = Listed<(DdName, Word)>;

const MOST_UNITS: usize = 64;

const MOST_DDS: usize = 16;

/// The parts of a value around its first equals sign.
fn split_at_sign(value: &str) -> Option<(&str, &str)>
    ensures found { IfSome result (λ parts. (value.now ≡ parts.0.now ++ 61 ∷ parts.1.now) × All (λ c. c ≢ 61) parts.0.now) }
    ensures none { IfNone result (All (λ c. c ≢ 61) value.now) }
{
    value.split_once('=')
}

/// The name and the path of a value `NAME=PATH`.
fn parts_of(value: &str) -> Option<(&str, &str)>
    ensures found { IfSome result (λ parts. IsParted value.now parts.0.now parts.1.now) }
    ensures none { IfNone result ((name path : List ℕ) → ¬ IsParted value.now name path) }
{
    let (name, path) = split_at_sign(value)?;
    if path.is_empty() {
        return None;
    }
    Some((name, path))
}

/// The unit that a value `SERIAL=PATH` names.
fn unit_of(alloc: Global, value: &Word) -> Result<(Serial, Word), WordsFault>
    ensures { Judged (IsUnit value.now) result }
{
    let Some((name, path)) = parts_of(value.as_str()) else {
        return Err(WordsFault::Words);
    };
    let Ok(serial) = Serial::read(name.as_bytes()) else {
        return Err(WordsFault::Words);
    };
    Ok((serial, Word::copy_of(alloc, path)?))
}

/// The dump that a value `DD=PATH` names.
fn dd_of(alloc: Global, value: &Word) -> Result<(DdName, Word), WordsFault>
    ensures { Judged (IsDd value.now) result }
{
    let Some((name, path)) = parts_of(value.as_str()) else {
        return Err(WordsFault::Words);
    };
    let Some(dd) = DdName::read(name.as_bytes()) else {
        return Err(WordsFault::Words);
    };
    Ok((dd, Word::copy_of(alloc, path)?))
}

/// The units that values name.
fn units_named(alloc: Global, values: &[Word]) -> Result<UnitPaths, WordsFault>
    ensures { Judged (AllZip IsUnit values.now) result }
{
    let mut units = Listed::new(alloc);
    for value in values {
        units.push(unit_of(alloc, value)?)?;
    }
    Ok(units)
}

/// The dumps that values name.
fn dds_named(alloc: Global, values: &[Word]) -> Result<DdPaths, WordsFault>
    ensures { Judged (AllZip IsDd values.now) result }
{
    let mut dds = Listed::new(alloc);
    for value in values {
        dds.push(dd_of(alloc, value)?)?;
    }
    Ok(dds)
}

fn is_same_serial(one: &Serial, other: &Serial) -> bool
    ensures { IsTrue result ↔ (one.now ≡ other.now) }
{
    text::same(&one.text, &other.text)
}

/// Whether no unit has a serial.
fn lacks_serial(units: &[(Serial, Word)], serial: &Serial) -> bool
    ensures { IsTrue result ↔ All (λ unit. unit.0 ≢ serial.now) units.now }
{
    for unit in units {
        if is_same_serial(&unit.0, serial) {
            return false;
        }
    }
    true
}

/// Whether no dump has a DD name.
fn lacks_dd(dds: &[(DdName, Word)], name: &DdName) -> bool
    ensures { IsTrue result ↔ All (λ dd. dd.0 ≢ name.now) dds.now }
{
    for dd in dds {
        if dd.0.is_same(name) {
            return false;
        }
    }
    true
}

fn do_serials_differ(units: &[(Serial, Word)]) -> bool
    ensures { IsTrue result ↔ AllPairs (λ one other. one.0 ≢ other.0) units.now }
{
    for place in 0..units.len() {
        if !lacks_serial(&units[..place], &units[place].0) {
            return false;
        }
    }
    true
}

fn do_dds_differ(dds: &[(DdName, Word)]) -> bool
    ensures { IsTrue result ↔ AllPairs (λ one other. one.0 ≢ other.0) dds.now }
{
    for place in 0..dds.len() {
        if !lacks_dd(&dds[..place], &dds[place].0) {
            return false;
        }
    }
    true
}

/// The units that the options give.
pub(crate) fn units_of(alloc: Global, options: &[Given]) -> Result<UnitPaths, WordsFault>
    ensures { Judged (AreUnits (values_of names.Unit options.now)) result }
{
    let values = values_of(alloc, options, Name::Unit)?;
    let units = units_named(alloc, values.as_slice())?;
    if units.is_empty() {
        return Err(WordsFault::Words);
    }
    if units.len() > MOST_UNITS {
        return Err(WordsFault::Words);
    }
    if !do_serials_differ(units.as_slice()) {
        return Err(WordsFault::Words);
    }
    Ok(units)
}

/// The dumps that the options give to a name.
pub(crate) fn dds_of(alloc: Global, options: &[Given], name: Name) -> Result<DdPaths, WordsFault>
    ensures { Judged (AreDds (values_of name options.now)) result }
{
    let values = values_of(alloc, options, name)?;
    let dds = dds_named(alloc, values.as_slice())?;
    if dds.len() > MOST_DDS {
        return Err(WordsFault::Words);
    }
    if !do_dds_differ(dds.as_slice()) {
        return Err(WordsFault::Words);
    }
    Ok(dds)
}
