//! What a status can't say, on standard error. That it can't be written changes nothing.

use crate::Finished;
use adr_top::UnitPaths;
use ckd_image::Word;
use dasd_pool::FilePool;
use run_words::NAMES;
use std::fs::File;
use std::io;

/// The words of a run.
const USAGE: &str = "\
usage: adrdssu --unit SERIAL=IMAGE .. --journal JOURNAL --sysin TEXT [--held HOLDS]
               [--out DD=DUMP ..]
       adrdssu --unit SERIAL=IMAGE .. --journal JOURNAL --format-journal ROOM
The words stand in any order, as `--name value` or `--name=value`. From 1 to 64 units are named, each by its volume serial
in capitals; ROOM is a number from 3 to 8191.";

/// Says a line.
pub fn say(rt: &HostRuntime, line: &str) {
    let _ = eprintln!(rt; "adrdssu: {line}");
}

/// Says why a call on a file failed.
pub fn say_file(rt: &HostRuntime, path: &str, error: &io::Error) {
    let _ = if error.kind() == io::ErrorKind::WouldBlock {
        eprintln!(rt; "adrdssu: {path}: another run holds it, or it is named twice")
    } else {
        eprintln!(rt; "adrdssu: {path}: {error}")
    };
}

/// Says which word is no option, or that a word is missing or wrong, and which words can stand.
pub fn say_usage(rt: &HostRuntime, words: &[Word]) {
    let _ = match first_unknown(words) {
        Some(word) => eprintln!(rt;
            "adrdssu: the word {word:?} is no option, or an option without its value"
        ),
        None => eprintln!(rt;
            "adrdssu: a word is missing, stands twice, or has a value that isn't of its form"
        ),
    };
    let _ = eprintln!(rt; "{USAGE}");
}

/// Whether a word is the name of an option.
fn is_name(word: &str) -> bool {
    NAMES.iter().any(|name| name.spelling() == word)
}

/// The words behind an option and its value at the front of words. None where none stands there.
fn behind_option(words: &[Word]) -> Option<&[Word]> {
    let (first, rest) = words.split_first()?;
    if let Some((name, value)) = first.as_str().split_once('=') {
        return if is_name(name) && !value.starts_with('-') {
            Some(rest)
        } else {
            None
        };
    }
    let (value, rest) = rest.split_first()?;
    if is_name(first.as_str()) && !value.as_str().starts_with('-') {
        Some(rest)
    } else {
        None
    }
}

/// The first word that begins no option with its value.
fn first_unknown(words: &[Word]) -> Option<&str> {
    let mut left = words;
    for _ in 0..words.len() {
        match behind_option(left) {
            Some(rest) => left = rest,
            None => break,
        }
    }
    left.first().map(|word| word.as_str())
}

/// Says that a sample volume or a command is asked for that isn't built.
pub fn say_not_built(rt: &HostRuntime) {
    say(
        rt,
        "PRINT, RELEASE, CONSOLIDATE, COPY and DUMP of data sets are the commands that are built yet, and no sample volume is",
    );
}

/// Says why a run ended, where its status and its lines don't.
pub fn say_end(rt: &HostRuntime, ended: &Finished, units: &UnitPaths, journal: &str) {
    match ended.status {
        16 => say_failure(rt, &ended.pool, units, journal),
        24 => say(rt, "a text can't be read"),
        28 => say(
            rt,
            "standard output takes no further lines; what was done stands",
        ),
        32 => say(rt, "memory ran out"),
        48 => say_not_built(rt),
        _ => {}
    }
}

/// Says which file of a pool failed.
fn say_failure(rt: &HostRuntime, pool: &FilePool<File>, units: &UnitPaths, journal: &str) {
    if let Some(failure) = pool.failure() {
        let path = match units.as_slice().get(failure.unit as usize) {
            Some((_, path)) => path.as_str(),
            None => journal,
        };
        say_file(rt, path, &failure.reason);
    }
}
