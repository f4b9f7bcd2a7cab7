//! A run that makes a journal.

ghost use Rattle.std.specs.Prelude.{◌≡◌, ◌≤◌};
ghost use Rattle.redo_core.specs.Opening.{AreNames};
ghost use Rattle.adr_top.specs.Asked.{serials_of};
ghost use Rattle.adr_top.specs.Ends.{Formats};
ghost use Rattle.job_script.specs.Ends.{after_of};
ghost use Rattle.adr_top.specs.Parts.{EndsFormatting, sink_seen};

use crate::jobs::{names_of, refuse};
use crate::lists::OutDd;
use dasd_pool::{Pool, Sink};
use job_script::Left;
use redo_core::Journal;
use run_lines::{RunEnd, close};
use run_words::UnitPaths;
use std::alloc::Global;
use vol_label::Serial;

/// Makes a journal for volumes of these serials.
fn format_for<O: Sink, P: Pool>(
    alloc: Global,
    serials: &[Serial],
    room: u32,
    out: &mut O,
    pool: P,
    outs: Vec<OutDd>,
) -> Left<P>
    requires names { AreNames (P.shape pool) serials.now }
    requires room { (3 ≤ room) × (room ≤ 8191) }
    ensures outs { result.outs.items ≡ outs.items }
    ensures ends { Formats P.Pool (sink_seen O.Sink out.old out.new) pool serials.now room (after_of result) }
{
    match Journal::format(alloc, pool, serials, room) {
        Ok(pool) => Left {
            pool,
            outs,
            steps: Vec::new(alloc),
            pending: None,
            end: close(out, RunEnd::Formatted(serials.len() as u32, room)),
        },
        Err(stop) => refuse(alloc, out, stop.pool, outs, RunEnd::from(stop.cause)),
    }
}

/// Makes a journal for volumes.
pub(crate) fn make_journal<O: Sink, P: Pool>(
    alloc: Global,
    volumes: &UnitPaths,
    room: u32,
    out: &mut O,
    pool: P,
    outs: Vec<OutDd>,
) -> Left<P>
    requires names { AreNames (P.shape pool) (serials_of volumes.now) }
    requires room { (3 ≤ room) × (room ≤ 8191) }
    ensures outs { result.outs.items ≡ outs.items }
    ensures ends { EndsFormatting P.Pool (sink_seen O.Sink out.old out.new) pool (serials_of volumes.now) room (after_of result) }
{
    match names_of(alloc, volumes) {
        Ok(serials) => format_for(alloc, &serials, room, out, pool, outs),
        Err(_) => refuse(alloc, out, pool, outs, RunEnd::Memory),
    }
}
