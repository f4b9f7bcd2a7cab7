//! Tests: a session over a sound volume and one whose label is broken.

use crate::ground::{BEGINNING, NAMES, SECOND, begun, pool_of};
use dasd_pool::{MemoryPool, Pool};
use redo_core::JournalFault;
use rows_bytes::{Given, RowsFault, SLOT, WITH_SET, volume};
use std::alloc::Global;
use std::process::Abort;
use std::test::*;
use unit_load::UnitState;
use unit_session::Session;
use vol_label::Serial;
use volume_model::Why;
use vtoc_core::Volume;

/// The volume with A.B, of whose label the key has another first byte.
static BROKEN: Given = Given {
    blocks: &[(221, 0)],
    ..WITH_SET
};

/// What a volume is, in numbers: its usable tracks, its data sets, its free tracks, its records, those that are free, and its format 5s.
fn counts_of(volume: &Volume) -> [usize; 6] {
    [
        volume.usable as usize,
        volume.rows.as_slice().len(),
        volume.free.count() as usize,
        volume.dscbs as usize,
        volume.free_dscbs as usize,
        volume.fives as usize,
    ]
}

/// What a unit is, in short.
#[derive(Clone, Copy, Debug, PartialEq, Eq)]
enum Seen {
    Online(Serial, [usize; 6]),
    Offline(Why),
    Missing,
}

fn unit_seen<P: Pool>(session: &Session<P>, unit: u32) -> Seen {
    if unit >= session.units() {
        return Seen::Missing;
    }
    match session.unit(unit) {
        UnitState::Online(volume) => Seen::Online(volume.serial, counts_of(volume)),
        UnitState::Offline(why) => Seen::Offline(*why),
    }
}

/// The name of a unit, and how many tracks its head says.
fn told_of<P: Pool>(session: &Session<P>, unit: u32) -> Option<(Serial, u32)> {
    if unit >= session.units() {
        return None;
    }
    let head = session.head(unit).ok()?;
    Some((session.name(unit), head.tracks))
}

fn assert_units(rt: &impl Abort, session: &Session<MemoryPool>) {
    assert_eq!(rt; session.units(), 2);
    assert_eq!(rt; session.room(), 3);
    for unit in 0..2 {
        let told = (NAMES[unit as usize], 15);
        assert_eq!(rt; told_of(session, unit), Some(told));
    }
    let volume_1 = Seen::Online(NAMES[0], [15, 1, 3, 50, 47, 1]);
    assert_eq!(rt; unit_seen(session, 0), volume_1);
    assert_eq!(rt; unit_seen(session, 1), Seen::Offline(Why::Label(2)));
    assert_eq!(rt; unit_seen(session, 2), Seen::Missing);
}

/// The slot of a track of the first unit, or none where there is no such track.
fn slot_of<P: Pool>(
    alloc: Global,
    session: &mut Session<P>,
    track: u32,
) -> Result<Vec<u8>, RowsFault> {
    if session.units() == 0 || track >= session.blocks(0) {
        return Ok(Vec::new(alloc));
    }
    let mut slot = vec![in alloc; 0u8; session.block_size(0) as usize]?;
    session.read_slot(0, track, &mut slot)?;
    Ok(slot)
}

/// How many tracks of the first unit are those of the volume with A.B.
fn same_slots<P: Pool>(alloc: Global, session: &mut Session<P>) -> Result<u32, RowsFault> {
    let given = volume(alloc, WITH_SET)?;
    let mut track = 0u32;
    for bytes in given.blocks.as_slice().chunks(SLOT) {
        if slot_of(alloc, session, track)?.as_slice() != bytes {
            return Ok(track);
        }
        track = track.saturating_add(1);
    }
    Ok(track)
}

#[test]
fn a_session_has_each_unit_as_it_was_loaded(rt: HostRuntime) -> Result<(), Fail> {
    let pool = pool_of(rt.alloc(), WITH_SET, BROKEN, &[])?;
    let session = begun(rt.alloc(), pool).ok();
    let mut session = session.expect(&rt, "no session");
    assert_units(&rt, &session);
    assert_eq!(rt; same_slots(rt.alloc(), &mut session)?, 15);
    Ok(())
}

/// The first call of the pool by whose failure a session begins, or which another cause hides.
fn first_hidden(alloc: Global) -> Result<Option<u64>, RowsFault> {
    for call in 0..BEGINNING {
        let pool = pool_of(alloc, WITH_SET, SECOND, &[call])?;
        if begun(alloc, pool).err() != Some(JournalFault::Pool) {
            return Ok(Some(call));
        }
    }
    Ok(None)
}

#[test]
fn each_call_of_the_pool_that_fails_ends_the_beginning(rt: HostRuntime) -> Result<(), Fail> {
    assert_eq!(rt; first_hidden(rt.alloc())?, None);
    Ok(())
}
