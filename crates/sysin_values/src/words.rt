//! Words that say values.

ghost use Rattle.std.specs.Prelude.{IfOk, IfErr, IfSome, IfNone};
ghost use Rattle.sysin_values.specs.Values.{SaysSerial, SaysDdName, SaysPattern, SaysName, SaysPrefix, SaysNumber};
ghost use Rattle.sysin_values.specs.NoValue.{SaysNone, IsNoPattern};

use crate::fault::ValueFault;
use dd_names::DdName;
use dsn_filter::{Dsn, NameFault, Pattern, Qualifier};
use std::alloc::Global;
use sysin_words::number_between;
use vol_label::Serial;

/// The serial that a word says.
pub fn serial_of(word: &[u8]) -> Option<Serial>
    ensures says { IfSome result (SaysSerial word.now) }
    ensures none { IfNone result (SaysNone SaysSerial word.now) }
{
    match Serial::read(word) {
        Ok(serial) => Some(serial),
        Err(_) => None,
    }
}

/// The DD name that a word says.
pub fn dd_name_of(word: &[u8]) -> Option<DdName>
    ensures says { IfSome result (SaysDdName word.now) }
    ensures none { IfNone result (SaysNone SaysDdName word.now) }
{
    DdName::read(word)
}

/// The data set name that a word says.
pub fn name_of(word: &[u8]) -> Option<Dsn>
    ensures says { IfSome result (SaysName word.now) }
    ensures none { IfNone result (SaysNone SaysName word.now) }
{
    match Dsn::read(word) {
        Ok(name) => Some(name),
        Err(_) => None,
    }
}

/// The first qualifier of new names that a word says.
pub fn prefix_of(word: &[u8]) -> Option<Dsn>
    ensures says { IfSome result (SaysPrefix word.now) }
    ensures none { IfNone result (SaysNone SaysPrefix word.now) }
{
    match Qualifier::read(word) {
        Ok(word) => Some(word.to_name()),
        Err(_) => None,
    }
}

/// The pattern that a word says.
pub fn pattern_of(alloc: Global, word: &[u8]) -> Result<Pattern, ValueFault>
    ensures says { IfOk result (SaysPattern word.now) }
    ensures none { IfErr result (IsNoPattern word.now) }
{
    match Pattern::read(alloc, word) {
        Ok(pattern) => Ok(pattern),
        Err(NameFault::NoMemory) => Err(ValueFault::NoMemory),
        Err(_) => Err(ValueFault::Value),
    }
}

/// The number within these limits that a word says.
pub fn number_within(least: u32, most: u32, word: &[u8]) -> Option<u32>
    ensures says { IfSome result (SaysNumber least most word.now) }
    ensures none { IfNone result (SaysNone (SaysNumber least most) word.now) }
{
    number_between(least, most, word)
}
