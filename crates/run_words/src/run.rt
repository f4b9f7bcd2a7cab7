//! The run that words ask for.

ghost use Rattle.std.specs.Prelude.{◌≡◌, ◌≢◌, ◌↔◌, List, [], All, IsTrue, IfOk, IfErr};
ghost use Rattle.run_words.specs.Words.{values_of, Spells, IsRun};
ghost use Rattle.run_words.specs.Parts.{Judged};
ghost use Rattle.run_words.specs.declared.name.Name.TheVariants as names;
ghost use Rattle.run_words.specs.declared.given.Given.{Given};
ghost use Rattle.run_words.specs.declared.run.Run.{Run};

use crate::fault::WordsFault;
use crate::files::{DdPaths, UnitPaths, dds_of, units_of};
use crate::given::{Given, options_of};
use crate::name::Name;
use crate::numbers::number_given;
use crate::paths::{held_of, path_of};
use crate::values::is_missing;
use ckd_image::Word;
use std::alloc::Global;

/// What the words ask for.
#[derive(Debug, Drop)]
pub enum Run {
    /// The commands of a text, over units.
    Jobs {
        units: UnitPaths,
        journal: Word,
        sysin: Word,
        held: Option<Word>,
        outs: DdPaths,
        ins: DdPaths,
    },
    /// A new journal for units, with room for so many entries in a commit.
    Format {
        units: UnitPaths,
        journal: Word,
        room: u32,
    },
    /// A sample volume with so many data sets.
    Make {
        number: u32,
    },
}

/// The least and the largest room of a journal.
const LEAST_ROOM: u32 = 3;

const MOST_ROOM: u32 = 8191;

/// The most data sets of a sample volume.
const MOST_MADE: u32 = 200;

/// Whether none of these names is given a value.
fn are_missing(options: &[Given], wanted: &[Name]) -> bool
    ensures { IsTrue result ↔ All (λ name. values_of name options.now ≡ []) wanted.now }
{
    for name in wanted {
        if !is_missing(options, *name) {
            return false;
        }
    }
    true
}

/// The run of a text.
fn jobs_of(alloc: Global, options: &[Given]) -> Result<Run, WordsFault>
    requires no_format { values_of names.FormatJournal options.now ≡ [] }
    requires no_make { values_of names.Make options.now ≡ [] }
    ensures { Judged (IsRun options.now) result }
{
    let units = units_of(alloc, options)?;
    let journal = path_of(alloc, options, Name::Journal)?;
    let sysin = path_of(alloc, options, Name::Sysin)?;
    let held = held_of(alloc, options)?;
    let outs = dds_of(alloc, options, Name::Out)?;
    let ins = dds_of(alloc, options, Name::In)?;
    Ok(Run::Jobs {
        units,
        journal,
        sysin,
        held,
        outs,
        ins,
    })
}

/// The run that makes a journal.
fn format_of(alloc: Global, options: &[Given]) -> Result<Run, WordsFault>
    requires asked { values_of names.FormatJournal options.now ≢ [] }
    requires no_make { values_of names.Make options.now ≡ [] }
    ensures { Judged (IsRun options.now) result }
{
    if !are_missing(options, &[Name::Sysin, Name::Held, Name::Out, Name::In]) {
        return Err(WordsFault::Words);
    }
    let units = units_of(alloc, options)?;
    let journal = path_of(alloc, options, Name::Journal)?;
    let room = number_given(alloc, options, Name::FormatJournal, LEAST_ROOM, MOST_ROOM)?;
    Ok(Run::Format {
        units,
        journal,
        room,
    })
}

/// The run over a sample volume.
fn make_of(alloc: Global, options: &[Given]) -> Result<Run, WordsFault>
    requires { values_of names.Make options.now ≢ [] }
    ensures { Judged (IsRun options.now) result }
{
    if options.len() > 1 {
        return Err(WordsFault::Words);
    }
    let number = number_given(alloc, options, Name::Make, 1, MOST_MADE)?;
    Ok(Run::Make { number })
}

/// The run that options ask for.
fn run_of(alloc: Global, options: &[Given]) -> Result<Run, WordsFault>
    ensures { Judged (IsRun options.now) result }
{
    if !is_missing(options, Name::Make) {
        return make_of(alloc, options);
    }
    if !is_missing(options, Name::FormatJournal) {
        return format_of(alloc, options);
    }
    jobs_of(alloc, options)
}

/// Reads the words of the command line.
pub fn read_words(alloc: Global, words: &[Word]) -> Result<Run, WordsFault>
    // The words spell options that ask for the run.
    ensures read { IfOk result (λ run. (options : List Given) × Spells words.now options × IsRun options run) }

    // A refusal for another cause than memory says that they spell no options that ask for a run.
    ensures refused { IfErr result (λ fault. fault ≡ WordsFault.Words → (options : List Given) (run : Run) → Spells words.now options → ¬ IsRun options run) }
{
    let options = options_of(alloc, words)?;
    run_of(alloc, options.as_slice())
}
