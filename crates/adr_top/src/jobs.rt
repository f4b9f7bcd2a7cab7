//! A run of a text.

ghost use Rattle.job_outputs.specs.Kept.{KeepsUsed};
ghost use Rattle.std.specs.Prelude.{◌≡◌, IfOk};
ghost use Rattle.by_rules.specs.Day.{IsToday};
ghost use Rattle.dump_fmt.specs.Outs.{files_of};
ghost use Rattle.redo_core.specs.Opening.{AreNames};
ghost use Rattle.sysin_lang.specs.Script.{plan_of_script};
ghost use Rattle.job_script.specs.Built.{AreBuilt};
ghost use Rattle.adr_top.specs.Asked.{serials_of};
ghost use Rattle.job_script.specs.Ends.{after_of};
ghost use Rattle.adr_top.specs.Parts.{IsRefused, Opens, EndsJobs, sink_seen};
ghost use Rattle.adr_top.specs.Reading.{source_seen};

use crate::lists::{Day, InDd, OutDd};
use crate::texts::{Ready, prepare};
use ckd_image::Word;
use dasd_pool::{Pool, Sink, Source};
use dump_fmt::{Seen, SeenIn};
use job_script::unit_session::Session;
use job_script::{Left, run_script};
use run_lines::{RunEnd, tell};
use run_words::UnitPaths;
use std::alloc::{AllocError, Global};
use vol_label::Serial;

/// What a run leaves that is refused: the pool and the outputs as they are. Its last line is tried.
pub(crate) fn refuse<O: Sink, P>(
    alloc: Global,
    out: &mut O,
    pool: P,
    outs: Vec<OutDd>,
    end: RunEnd,
) -> Left<P>
    ensures ends { IsRefused (sink_seen O.Sink out.old out.new) pool end (after_of result) }
    ensures outs { result.outs.items ≡ outs.items }
{
    tell(out, end);
    Left {
        pool,
        outs,
        steps: Vec::new(alloc),
        pending: None,
        end,
    }
}

/// The serials of volumes.
pub(crate) fn names_of(alloc: Global, volumes: &UnitPaths) -> Result<Vec<Serial>, AllocError>
    ensures { IfOk result (λ serials. serials.items ≡ serials_of volumes.now) }
{
    let mut serials = Vec::new(alloc);
    for volume in volumes.as_slice() {
        serials.push(volume.0)?;
    }
    Ok(serials)
}

/// Opens the journal of volumes with these serials, and runs a script over them.
fn open_and_run<O: Sink, P: Pool>(
    alloc: Global,
    serials: &[Serial],
    ready: &Ready,
    out: &mut O,
    pool: P,
    outs: Vec<OutDd>,
    ins: &mut Vec<InDd>,
    today: Day,
) -> Left<P>
    requires names { AreNames (P.shape pool) serials.now }
    requires built { AreBuilt (plan_of_script ready.now.script) }
    requires today { IsToday today }
    ensures ends { Opens P.Pool
        (record { before = files_of ⟦<OutDd as Seen>⟧.seen ⟦<InDd as SeenIn>⟧.seen outs.items ins.old.items; after = files_of ⟦<OutDd as Seen>⟧.seen ⟦<InDd as SeenIn>⟧.seen result.outs.items ins.new.items })
        (sink_seen O.Sink out.old out.new) pool serials.now ready.now.held today (plan_of_script ready.now.script) (after_of result) }
    ensures outs { KeepsUsed ⟦<OutDd as Seen>⟧.seen outs.items result.outs.items }
    ensures ins { ins.new.items ≡ ins.old.items }
{
    match Session::begin(alloc, pool, serials) {
        Ok(session) => {
            run_script(
                alloc,
                session,
                &ready.script,
                &ready.held,
                outs,
                ins,
                today,
                out,
            )
        }
        Err(stop) => refuse(alloc, out, stop.pool, outs, RunEnd::from(stop.cause)),
    }
}

/// Reads the texts, and runs what they say over volumes.
pub(crate) fn run_jobs<S: Source, H: Source, O: Sink, P: Pool>(
    alloc: Global,
    volumes: &UnitPaths,
    path: &Option<Word>,
    sysin: &mut S,
    held: &mut H,
    out: &mut O,
    pool: P,
    outs: Vec<OutDd>,
    ins: &mut Vec<InDd>,
    today: Day,
) -> Left<P>
    requires names { AreNames (P.shape pool) (serials_of volumes.now) }
    requires today { IsToday today }
    ensures ends { EndsJobs P.Pool
        (record { before = files_of ⟦<OutDd as Seen>⟧.seen ⟦<InDd as SeenIn>⟧.seen outs.items ins.old.items; after = files_of ⟦<OutDd as Seen>⟧.seen ⟦<InDd as SeenIn>⟧.seen result.outs.items ins.new.items })
        path.now (source_seen H.Source held.old held.new) (source_seen S.Source sysin.old sysin.new) (sink_seen O.Sink out.old out.new)
        pool (serials_of volumes.now) today (after_of result) }
    ensures outs { KeepsUsed ⟦<OutDd as Seen>⟧.seen outs.items result.outs.items }
    ensures ins { ins.new.items ≡ ins.old.items }
{
    let ready = match prepare(alloc, path, sysin, held) {
        Ok(ready) => ready,
        Err(end) => return refuse(alloc, out, pool, outs, end),
    };
    match names_of(alloc, volumes) {
        Ok(serials) => open_and_run(alloc, &serials, &ready, out, pool, outs, ins, today),
        Err(_) => refuse(alloc, out, pool, outs, RunEnd::Memory),
    }
}
