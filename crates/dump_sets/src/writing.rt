//! A dump is written on outputs.

ghost use Rattle.std.specs.Prelude.{◌≡◌, ◌<◌, All, Some, true, false, IfOk, IfErr, length, map, slice_get};
ghost use Rattle.dasd_pool.specs.Count.{Rose};
ghost use Rattle.dump_fmt.specs.Head.{IsDumpHead};
ghost use Rattle.dump_fmt.specs.Outs.{AreDistinct};
ghost use Rattle.redo_core.specs.Reading.{journal_of};
ghost use Rattle.job_dumps.specs.job_turns.job_steps.Units.{ForUnits};
ghost use Rattle.job_dumps.specs.Passing.{DumpedCanBeChanged, SaysFull, request_in};
ghost use Rattle.job_dumps.specs.Reasons.{changes_sets};
ghost use Rattle.job_dumps.specs.Texts.{OnlyLooks};
ghost use Rattle.dump_sets.specs.Writing.{IsOrderedFor, LeavesDump, WritesDump};

use dasd_pool::Pool;
use dsn_filter::Dsn;
use dump_fmt::{DumpHead, DumpWriter, OutDd, OutState, Seen};
use job_dumps::job_turns::job_steps::unit_session::Session;
use job_dumps::{DumpScene, put_parts};
use job_lines::Reason;
use std::alloc::Global;
use std::mem;
use unit_load::UnitFault;

/// A dump that is to be written: its header, the names of its data sets, and the places of its outputs.
#[derive(Clone, Copy)]
pub(crate) struct DumpOf<'a> {
    pub head: DumpHead,
    pub names: &'a [Dsn],
    pub places: &'a [u32],
}

/// Writes a dump on outputs, and tells of each data set why it isn't dumped, if there is a reason. Nothing is written on the volume.
pub(crate) fn write_dump<P: Pool>(
    alloc: Global,
    session: &mut Session<P>,
    scene: DumpScene<'_>,
    dump: DumpOf<'_>,
    outs: &mut Vec<OutDd>,
) -> Result<Vec<Option<Reason>>, UnitFault>
    requires unit { scene.unit < journal_of (P.shape session.old.pool) }
    requires head { IsDumpHead dump.head }
    requires logical { dump.head.full ≡ false }
    requires order { IsOrderedFor session.old.units scene.unit dump.head dump.names.now }
    requires some { 0 < length dump.places.now }
    requires within { All (λ place. place < length outs.old.items) dump.places.now }
    requires distinct { AreDistinct dump.places.now }
    requires unused { All (λ place. slice_get (map (λ out. out.state) outs.old.items) place ≡ Some OutState.Unused) dump.places.now }
    requires full { changes_sets scene.wish ≡ true → ForUnits P.Pool session.old (SaysFull scene.unit scene.full) }
    ensures looks { OnlyLooks P.Pool session.old session.new }
    ensures written { IfOk result (λ told. WritesDump P.Pool ⟦<OutDd as Seen>⟧.seen session.old (request_in scene.entry) dump.entry.head dump.entry.names.now dump.entry.places.now outs.old.items outs.new.items told.items) }
    ensures left { IfErr result (λ fault. LeavesDump P.Pool ⟦<OutDd as Seen>⟧.seen session.old (request_in scene.entry) dump.entry.head dump.entry.names.now dump.entry.places.now outs.old.items outs.new.items) }
    ensures may { IfOk result (λ told. DumpedCanBeChanged session.old.units scene.entry dump.entry.names.now told.items) }
    ensures cause { IfErr result (λ fault. fault ≡ UnitFault.Pool → Rose (P.faults session.old.pool) (P.faults session.new.pool)) }
{
    let mut writer = match DumpWriter::start(
        alloc,
        mem::replace(outs, Vec::new(alloc)),
        dump.places,
        dump.head,
    ) {
        Ok(writer) => writer,
        Err(stop) => {
            *outs = stop.outs;
            return Err(UnitFault::NoMemory);
        }
    };
    match put_parts(alloc, session, scene, dump.names, &mut writer) {
        Ok(told) => {
            *outs = writer.end();
            Ok(told)
        }
        Err(fault) => {
            *outs = writer.leave();
            Err(fault)
        }
    }
}
