//! The program `adrdssu`: it opens the files that its words name, runs its text over them, and ends with the run's status.
#![tactic(auto)]

mod clock;
mod descriptors;
mod files;
mod journal_file;
mod outputs;
mod say;

ghost use Rattle.by_rules.specs.Day.{IsToday};

use crate::clock::today;
use crate::descriptors::{NULL_DEVICE, take_closed};
use crate::files::{add, named, open_alone, open_volumes};
use crate::journal_file::{JournalFile, journal_file, take_back};
use crate::outputs::{OutputFile, open_outputs};
use crate::say::{say, say_end, say_file, say_not_built, say_usage};
use adr_top::{
    Day, DdPaths, Ended, OutDd, OutState, Run, UnitPaths, WordsFault, batch, read_words,
};
use ckd_image::{Bytes, Word};
use dasd_pool::{FileMedium, FilePool, FileSink, FileSource, MemorySource, Source};
use std::alloc::Global;
use std::fs::File;
use std::path::Path;
use std::process::ExitCode;
use std::{env, io};

/// The last line where a file can't be opened.
const CANNOT_OPEN: &str = "ADR552T (000) RUN ENDED WITH STATUS 52";

/// The words after the program's name.
fn words(rt: &HostRuntime) -> io::Result<Vec<Word>> {
    let mut words = Vec::new(rt.alloc());
    for word in env::args(rt)?.skip(1) {
        words.push(Word::from_string(word))?;
    }
    Ok(words)
}

/// A source without text.
fn no_text(alloc: Global) -> MemorySource {
    MemorySource::new(Bytes::new(alloc), Vec::new(alloc))
}

/// How a run ended: its pool and its status.
#[derive(Drop)]
pub struct Finished {
    pub pool: FilePool<File>,
    pub status: u8,
}

/// The words of a run, and its day.
#[derive(Clone, Copy)]
struct Line<'a> {
    words: &'a [Word],
    today: Day,
}

/// Runs words over a pool, outputs and texts. No inputs are handed in.
fn run<S: Source + Drop, H: Source + Drop>(
    rt: &HostRuntime,
    line: Line<'_>,
    pool: FilePool<File>,
    outs: Vec<OutDd>,
    mut sysin: S,
    mut held: H,
) -> Finished
    requires { IsToday line.today }
{
    let alloc = rt.alloc();
    let mut out = FileSink::new(io::writer(rt));
    let ins = Vec::new(alloc);
    let Ended { pool, status, .. } = batch(
        alloc, line.words, &mut sysin, &mut held, &mut out, pool, outs, ins, line.today,
    );
    Finished { pool, status }
}

/// Runs words for which no file is opened: over a pool without units.
fn run_without_files(rt: &HostRuntime, line: Line<'_>) -> u8
    requires { IsToday line.today }
{
    let alloc = rt.alloc();
    run(
        rt,
        line,
        FilePool::new(alloc),
        Vec::new(alloc),
        no_text(alloc),
        no_text(alloc),
    )
    .status
}

/// Runs the text of a file over volumes, under the holds of a file or none.
fn run_over<S: Source + Drop>(
    rt: &HostRuntime,
    line: Line<'_>,
    pool: FilePool<File>,
    outs: Vec<OutDd>,
    sysin: S,
    held: &Option<Word>,
) -> io::Result<Finished>
    requires { IsToday line.today }
{
    let Some(path) = held else {
        return Ok(run(rt, line, pool, outs, sysin, no_text(rt.alloc())));
    };
    let path = path.as_str();
    let text = named(rt, path, File::open(rt, path))?;
    Ok(run(rt, line, pool, outs, sysin, FileSource::new(text)))
}

/// Runs it with these outputs.
fn run_with<S: Source + Drop>(
    rt: &HostRuntime,
    line: Line<'_>,
    pool: FilePool<File>,
    files: Vec<OutputFile>,
    sysin: S,
    held: &Option<Word>,
) -> io::Result<Finished>
    requires { IsToday line.today }
{
    let mut outs = Vec::new(rt.alloc());
    for OutputFile { name, file, folder } in files {
        let medium = FileMedium::new(file, folder);
        outs.push(OutDd {
            name,
            medium: Box::new(rt.alloc(), medium)?,
            state: OutState::Unused,
        })?;
    }
    run_over(rt, line, pool, outs, sysin, held)
}

/// Runs the text of a file over volumes.
fn run_jobs(
    rt: &HostRuntime,
    line: Line<'_>,
    units: &UnitPaths,
    journal: &str,
    dds: &DdPaths,
    sysin: &str,
    held: &Option<Word>,
) -> io::Result<u8>
    requires { IsToday line.today }
{
    let mut pool = open_volumes(rt, units)?;
    add(rt, &mut pool, journal, open_alone(rt, journal))?;
    let text = named(rt, sysin, File::open(rt, sysin))?;
    let files = open_outputs(rt, dds)?;
    let finished = run_with(rt, line, pool, files, FileSource::new(text), held)?;
    say_end(rt, &finished, units, journal);
    Ok(finished.status)
}

/// Makes a journal for volumes. A file that was made for a journal that is refused goes again, while this run still holds it.
fn run_format(
    rt: &HostRuntime,
    line: Line<'_>,
    units: &UnitPaths,
    journal: &str,
    room: u32,
) -> io::Result<u8>
    requires { IsToday line.today }
{
    let pool = open_volumes(rt, units)?;
    let JournalFile { file, made } = named(rt, journal, journal_file(rt, journal, room))?;
    let held = named(rt, journal, file.try_clone())?;
    let status = format_in(rt, line, units, journal, pool, file);
    if !matches!(status, Ok(0 | 28)) {
        take_away(rt, made, &held);
    }
    status
}

/// Takes a file away that was made in vain.
fn take_away(rt: &HostRuntime, made: Option<String>, file: &File) {
    if let Some(path) = made {
        let path = path.as_str();
        let _ = named(rt, path, take_back(rt, Path::new(path), file));
    }
}

/// Makes a journal in a file for the volumes of a pool.
fn format_in(
    rt: &HostRuntime,
    line: Line<'_>,
    units: &UnitPaths,
    journal: &str,
    mut pool: FilePool<File>,
    file: File,
) -> io::Result<u8>
    requires { IsToday line.today }
{
    add(rt, &mut pool, journal, Ok(file))?;
    let alloc = rt.alloc();
    let finished = run(
        rt,
        line,
        pool,
        Vec::new(alloc),
        no_text(alloc),
        no_text(alloc),
    );
    say_end(rt, &finished, units, journal);
    Ok(finished.status)
}

/// Does what the words ask for, over the files that they name. Inputs are refused, since no command that reads one is built yet.
fn run_line(rt: &HostRuntime, line: Line<'_>, asked: &Run) -> io::Result<u8>
    requires { IsToday line.today }
{
    match asked {
        Run::Jobs { ins, .. } if ins.len() > 0 => {
            say(rt, "no command that reads dumps is built yet");
            Ok(run_without_files(rt, line))
        }
        Run::Jobs {
            units,
            journal,
            sysin,
            held,
            outs,
            ..
        } => {
            run_jobs(
                rt,
                line,
                units,
                journal.as_str(),
                outs,
                sysin.as_str(),
                held,
            )
        }
        Run::Format {
            units,
            journal,
            room,
        } => run_format(rt, line, units, journal.as_str(), *room),
        Run::Make { .. } => {
            say_not_built(rt);
            Ok(run_without_files(rt, line))
        }
    }
}

/// The status of a run, which is 52 where its files may not be opened; its line then is tried.
fn status_of(rt: &HostRuntime, ended: io::Result<u8>) -> u8 {
    match ended {
        Ok(status) => status,
        Err(error) if error.kind() == io::ErrorKind::OutOfMemory => 32,
        Err(_) => {
            let _ = println!(rt; "{CANNOT_OPEN}");
            52
        }
    }
}

/// Runs the words of the command line on a day.
fn run_on(rt: &HostRuntime, today: Day) -> u8
    requires { IsToday today }
{
    let words = match words(rt) {
        Ok(words) => words,
        Err(error) if error.kind() == io::ErrorKind::InvalidData => {
            say(rt, "a word isn't UTF-8");
            return run_without_files(rt, Line { words: &[], today });
        }
        Err(_) => return 32,
    };
    let line = Line {
        words: &words,
        today,
    };
    match read_words(rt.alloc(), &words) {
        Ok(asked) => status_of(rt, run_line(rt, line, &asked)),
        Err(WordsFault::Words) => {
            say_usage(rt, &words);
            run_without_files(rt, line)
        }
        Err(WordsFault::NoMemory) => 32,
    }
}

/// Runs the words of the command line today.
fn run_today(rt: &HostRuntime) -> u8 {
    match today(rt) {
        Some(today) => run_on(rt, today),
        None => {
            say(rt, "the clock tells no day of the years 1900 to 2155");
            status_of(rt, Err(io::Error::from(io::ErrorKind::Other)))
        }
    }
}

fn main(rt: HostRuntime) -> ExitCode {
    let status = match take_closed(&rt) {
        Ok(_taken) => run_today(&rt),
        Err(error) => {
            say_file(&rt, NULL_DEVICE, &error);
            status_of(&rt, Err(error))
        }
    };
    ExitCode::from(status)
}
