//! The texts of a run.

ghost use Rattle.std.specs.Prelude.{◌≢◌, [], ◌≤◌, length, IfOk, IfErr, None, Some, true};
ghost use Rattle.enq_table.specs.HeldText.{lines_of, TakesAll};
ghost use Rattle.sysin_lang.specs.Script.{plan_of_script};
ghost use Rattle.sysin_text.specs.Tokens.{tokens_of};
ghost use Rattle.sysin_read.specs.Statement.{IsText as IsSysinText};
ghost use Rattle.adr_top.specs.Reading.{source_seen, ReadsText, StopsReading, TakesHeld, StopsTable, StopsScript, IsUnderstood, StopsGrammar};
ghost use Rattle.adr_top.specs.Texts.{IsHeldText, AreReady, StopsTexts, TakesTexts, Texts};

use ckd_image::{Bytes, Word};
use dasd_pool::Source;
use enq_table::{EnqFault, Held, read_held};
use job_script::are_built;
use run_lines::{Input, RunEnd, TextFault, read_text};
use std::alloc::Global;
use sysin_read::{Script, SysinFault, read_sysin};

/// What the texts of a run make: the table of holds, and the script.
#[derive(Debug, Drop)]
pub(crate) struct Ready {
    pub held: Held,
    pub script: Script,
}

/// Reads a text to its end.
fn text_of<S: Source>(alloc: Global, source: &mut S, input: Input) -> Result<Bytes, RunEnd>
    ensures read { IfOk result (ReadsText (source_seen S.Source source.old source.new)) }
    ensures stops { IfErr result (StopsReading (source_seen S.Source source.old source.new) input) }
{
    match read_text(alloc, source) {
        Ok(text) => Ok(text),
        Err(TextFault::Source) => Err(RunEnd::Source(input)),
        Err(TextFault::Long) => Err(RunEnd::Long(input)),
        Err(TextFault::NoMemory) => Err(RunEnd::Memory),
    }
}

/// The held text, which is empty where the words name no file for it.
fn held_text<H: Source>(alloc: Global, path: &Option<Word>, held: &mut H) -> Result<Bytes, RunEnd>
    ensures read { IfOk result (λ text. IsHeldText path.now (source_seen H.Source held.old held.new) text × (length text ≤ 1048576)) }
    ensures stops { IfErr result (λ end. (path.now ≢ None) × StopsReading (source_seen H.Source held.old held.new) Input.Held end) }
    ensures taken { TakesHeld path.now (source_seen H.Source held.old held.new) }
{
    match path {
        Some(_) => text_of(alloc, held, Input::Held),
        None => Ok(Bytes::new(alloc)),
    }
}

/// The table of a held text.
fn table_of(alloc: Global, text: &Bytes) -> Result<Held, RunEnd>
    requires { length text.now ≤ 1048576 }
    ensures read { IfOk result (λ table. TakesAll [] (lines_of text.now) table) }
    ensures stops { IfErr result (StopsTable text.now) }
{
    match read_held(alloc, text.as_slice()) {
        Ok(table) => Ok(table),
        Err(EnqFault::BadHeld(line, column)) => Err(RunEnd::Wrong(Input::Held, line, column)),
        Err(EnqFault::NoMemory) => Err(RunEnd::Memory),
        Err(EnqFault::AlreadyHeld(_) | EnqFault::NotHeld) => unreachable!(),
    }
}

/// The script of a SYSIN text.
fn script_of(alloc: Global, text: &Bytes) -> Result<Script, RunEnd>
    requires { length text.now ≤ 1048576 }
    ensures read { IfOk result (λ script. IsSysinText true (plan_of_script script) (tokens_of text.now)) }
    ensures stops { IfErr result (StopsScript text.now) }
{
    match read_sysin(alloc, text.as_slice()) {
        Ok(script) => Ok(script),
        Err(SysinFault::BadStatement(line, column, _)) => {
            Err(RunEnd::Wrong(Input::Sysin, line, column))
        }
        Err(SysinFault::NoMemory) => Err(RunEnd::Memory),
    }
}

/// What the texts make, where they are of their grammars and hold only commands that are built.
fn understood(alloc: Global, held: &Bytes, sysin: &Bytes) -> Result<Ready, RunEnd>
    requires held { length held.now ≤ 1048576 }
    requires sysin { length sysin.now ≤ 1048576 }
    ensures ready { IfOk result (IsUnderstood held.now sysin.now) }
    ensures stops { IfErr result (StopsGrammar held.now sysin.now) }
{
    let table = table_of(alloc, held)?;
    let script = script_of(alloc, sysin)?;
    match are_built(alloc, &script) {
        Ok(true) => Ok(Ready {
            held: table,
            script,
        }),
        Ok(false) => Err(RunEnd::NotBuilt),
        Err(_) => Err(RunEnd::Memory),
    }
}

/// Reads the held text, then SYSIN, and then what they say.
pub(crate) fn prepare<S: Source, H: Source>(
    alloc: Global,
    path: &Option<Word>,
    sysin: &mut S,
    held: &mut H,
) -> Result<Ready, RunEnd>
    ensures ready { IfOk result (λ ready. (texts : Texts) × AreReady path.now (source_seen H.Source held.old held.new) (source_seen S.Source sysin.old sysin.new) texts ready.held (plan_of_script ready.script)) }
    ensures stops { IfErr result (StopsTexts path.now (source_seen H.Source held.old held.new) (source_seen S.Source sysin.old sysin.new)) }
    ensures taken { TakesTexts path.now (source_seen H.Source held.old held.new) (source_seen S.Source sysin.old sysin.new) }
{
    let held_text = held_text(alloc, path, held)?;
    let sysin_text = text_of(alloc, sysin, Input::Sysin)?;
    understood(alloc, &held_text, &sysin_text)
}
