//! Options with their values, from words.

ghost use Rattle.std.specs.Prelude.{◌≡◌, ◌≢◌, ◌↔◌, false, [], ◌++◌, map, All, IsTrue, IfOk, IfErr, codes};
ghost use Rattle.clap.specs.Words.{app_of, fault_of, found_of, matches_of, rows_of, rule_of};
ghost use Rattle.run_words.specs.Words.{IsValue};
ghost use Rattle.run_words.specs.Grammar.{command, given_each, option_named, options_in, values_in};
ghost use Rattle.run_words.specs.Parts.{Judged, Gives};

use crate::fault::WordsFault;
use crate::name::{NAMES, Name};
use ckd_image::{Listed, NoMemory, Word, text};
use clap::error::ErrorKind;
use clap::{Arg, ArgAction, ArgMatches, Command};
use std::alloc::Global;

/// An option of the command line and its value.
#[derive(Debug, Drop)]
pub struct Given {
    pub name: Name,
    pub value: Word,
}

fn is_value(word: &str) -> bool
    ensures { IsTrue result ↔ IsValue word.now }
{
    !text::begins(word.as_bytes(), b"-")
}

/// Whether each value is one that an option may have.
fn are_values(options: &[Given]) -> bool
    ensures { IsTrue result ↔ All (λ given. IsValue given.value) options.now }
{
    for given in options {
        if !is_value(given.value.as_str()) {
            return false;
        }
    }
    true
}

fn is_end(word: &str) -> bool
    ensures { IsTrue result ↔ (word.now ≡ codes "--") }
{
    word == "--"
}

/// Whether no word ends the options.
fn lacks_end(words: &[Word]) -> bool
    ensures { IsTrue result ↔ All (λ word. word ≢ codes "--") words.now }
{
    for word in words {
        if is_end(word.as_str()) {
            return false;
        }
    }
    true
}

fn texts_of(alloc: Global, words: &[Word]) -> Result<Vec<&str>, NoMemory>
    ensures { IfOk result (λ texts. map (λ text. text.now) texts.items ≡ words.now) }
{
    let mut texts = Vec::new(alloc);
    for word in words {
        texts.push(word.as_str())?;
    }
    Ok(texts)
}

fn option<'a>(alloc: Global, name: Name) -> Arg<'a>
    ensures rule { rule_of result ≡ option_named name }
    ensures local { result.global ≡ false }
{
    Arg::new(alloc, name.bare())
        .long(name.bare())
        .action(ArgAction::Append)
}

/// The command by which words are split.
fn command_of<'a>(alloc: Global) -> Result<Command<'a>, NoMemory>
    ensures { IfOk result (λ made. app_of made ≡ command) }
{
    let command = Command::new(alloc, "adrdssu")
        .no_binary_name(true)
        .disable_help_flag(true)
        .disable_version_flag(true)
        .arg(option(alloc, Name::Unit))?
        .arg(option(alloc, Name::Journal))?
        .arg(option(alloc, Name::Sysin))?
        .arg(option(alloc, Name::Held))?
        .arg(option(alloc, Name::Out))?
        .arg(option(alloc, Name::In))?
        .arg(option(alloc, Name::FormatJournal))?
        .arg(option(alloc, Name::Make))?;
    Ok(command)
}

/// What the command takes of texts.
fn matches_in<'a>(alloc: Global, texts: &'a [&'a str]) -> Result<ArgMatches<'a>, WordsFault>
    ensures taken { IfOk result (λ matches. fault_of command (map (λ text. text.now) texts.now) ≡ []) }
    ensures found { IfOk result (λ matches. rows_of (found_of matches) ≡ matches_of command (map (λ text. text.now) texts.now)) }
    ensures refused { IfErr result (λ fault. fault ≡ WordsFault.Words → fault_of command (map (λ text. text.now) texts.now) ≢ []) }
{
    let command = command_of(alloc)?;
    match command.try_get_matches_from(texts) {
        Ok(matches) => Ok(matches),
        Err(error) => match error.kind() {
            ErrorKind::OutOfMemory => Err(WordsFault::NoMemory),
            _ => Err(WordsFault::Words),
        },
    }
}

/// Puts each of the values down as an option.
fn put_each(
    alloc: Global,
    options: &mut Listed<Given>,
    name: Name,
    values: &[&str],
) -> Result<(), NoMemory>
    ensures { IfOk result (λ _. options.new ≡ options.old ++ given_each name (map (λ value. value.now) values.now)) }
{
    for value in values {
        let value = Word::copy_of(alloc, *value)?;
        options.push(Given { name, value })?;
    }
    Ok(())
}

/// Puts the options of a name down.
fn put_found(
    alloc: Global,
    options: &mut Listed<Given>,
    matches: &ArgMatches<'_>,
    name: Name,
) -> Result<(), NoMemory>
    ensures { IfOk result (λ _. options.new ≡ options.old ++ given_each name (values_in (rows_of (found_of matches.now)) name)) }
{
    match matches.get_strs(name.bare()) {
        Some(values) => put_each(alloc, options, name, values),
        None => Ok(()),
    }
}

/// The options that were found.
fn options_found(alloc: Global, matches: &ArgMatches<'_>) -> Result<Listed<Given>, NoMemory>
    ensures { IfOk result (λ options. options ≡ options_in (rows_of (found_of matches.now))) }
{
    let mut options = Listed::new(alloc);
    for name in &NAMES {
        put_found(alloc, &mut options, matches, *name)?;
    }
    Ok(options)
}

/// The options that words give.
pub(crate) fn options_of(alloc: Global, words: &[Word]) -> Result<Listed<Given>, WordsFault>
    ensures { Judged (Gives words.now) result }
{
    if !lacks_end(words) {
        return Err(WordsFault::Words);
    }
    let texts = texts_of(alloc, words)?;
    let matches = matches_in(alloc, texts.as_slice())?;
    let options = options_found(alloc, &matches)?;
    if !are_values(options.as_slice()) {
        return Err(WordsFault::Words);
    }
    Ok(options)
}
