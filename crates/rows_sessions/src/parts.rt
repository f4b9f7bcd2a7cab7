//! Tests: a part of a dump whose texts are given one after the other.

ghost use Rattle.std.specs.Prelude.{◌≡◌, ◌≤◌, length, IfOk, IfSome};
ghost use Rattle.ckd_image.specs.declared.track.TrackAt.{TrackAt as TrackAtOf};
ghost use Rattle.ckd_image.specs.Track.{IsTrack, track_text};
ghost use Rattle.unit_session.specs.unit_steps.Plans.{IsPlan};

use crate::ground::{SECOND, begun, pool_of};
use ckd_image::{Bytes, NoMemory, Rec, Recs, Track};
use dasd_pool::MemoryPool;
use dd_names::DdName;
use dsn_filter::Dsn;
use job_steps::Giving;
use rows_bytes::{RowsFault, WITH_SET};
use std::alloc::Global;
use std::process::Abort;
use std::test::*;
use step_plans::{PartSet, SetAt, part_set};
use unit_load::UnitState;
use unit_session::Session;
use unit_session::unit_steps::Plan;

/// A text of one record of one byte.
fn text_of(alloc: Global, byte: u8) -> Result<Track, NoMemory>
    ensures track { IfOk result (λ text. IsTrack text) }
    ensures short { IfOk result (λ text. (at : TrackAtOf) → length (track_text at text) ≤ 38) }
{
    let mut recs = Recs::new(alloc);
    recs.push(Rec {
        r: 1,
        key: Bytes::from_slice(alloc, b"")?,
        body: Bytes::from_slice(alloc, &[byte])?,
    })?;
    Ok(Track {
        flag: 0,
        r0: [0; 8],
        recs,
    })
}

/// A plan that puts a part of two tracks as C.D on free tracks of the second unit.
fn planned(alloc: Global, session: &Session<MemoryPool>) -> Result<Option<Plan>, RowsFault>
    ensures { IfOk result (λ found. IfSome found (IsPlan session.now.units)) }
{
    if session.units() < 2 {
        return Ok(None);
    }
    let UnitState::Online(volume) = session.unit(1) else {
        return Ok(None);
    };
    let Ok(name) = Dsn::read(b"C.D") else {
        return Ok(None);
    };
    let Some(input) = DdName::read(b"IN1") else {
        return Ok(None);
    };
    let Ok(runs) = volume.free.several(2, 1) else {
        return Ok(None);
    };
    let mut f1 = [0; 140];
    f1[44] = 0xf1;
    let part = PartSet {
        input,
        number: 1,
        f1,
        kind: 0x01,
        tracks: 2,
        to: SetAt { unit: 1, name },
        runs,
        replaced: false,
    };
    Ok(part_set(alloc, volume, part)?)
}

/// The session behind that step, of whose two texts one is given.
fn given(alloc: Global) -> Result<Option<Session<MemoryPool>>, RowsFault> {
    let pool = pool_of(alloc, WITH_SET, SECOND, &[])?;
    let Ok(session) = begun(alloc, pool) else {
        return Ok(None);
    };
    let Some(plan) = planned(alloc, &session)? else {
        return Ok(None);
    };
    let Ok(planned) = session.plan(plan) else {
        return Ok(None);
    };
    let giving = Giving::of(planned);
    if giving.left() != 2 {
        return Ok(None);
    }
    let text = text_of(alloc, 0xc1)?;
    let Ok(giving) = giving.give(&text) else {
        return Ok(None);
    };
    Ok(giving.make(alloc).ok())
}

/// The first bytes of a track of the second unit.
fn front_of(
    alloc: Global,
    session: &mut Session<MemoryPool>,
    track: u32,
) -> Result<Vec<u8>, RowsFault> {
    if session.units() < 2 || track >= session.blocks(1) {
        return Ok(Vec::new(alloc));
    }
    let mut slot = vec![in alloc; 0u8; session.block_size(1) as usize]?;
    session.read_slot(1, track, &mut slot)?;
    slot.truncate(38);
    Ok(slot)
}

/// The tracks of the first data set of the second unit.
fn tracks_of(session: &Session<MemoryPool>) -> Option<(u32, u32)> {
    if session.units() < 2 {
        return None;
    }
    let UnitState::Online(volume) = session.unit(1) else {
        return None;
    };
    let row = volume.rows.as_slice().first()?;
    let extent = row.extents.as_slice().first()?;
    Some((extent.first.head as u32, extent.last.head as u32))
}

#[test]
fn a_part_stands_with_its_text_and_an_empty_one(rt: HostRuntime) -> Result<(), Fail> {
    // Track 0 has the labels and track 1 the VTOC, so that the lowest free tracks are 2 and 3.
    let session = given(rt.alloc())?;
    let mut session = session.expect(&rt, "no session");
    assert_eq!(rt; tracks_of(&session), Some((2, 3)));
    let first = [
        0, 0, 0, 0, 2, // flag and home address
        0, 0, 0, 2, 0, 0, 0, 8, 0, 0, 0, 0, 0, 0, 0, 0, // record 0
        0, 0, 0, 2, 1, 0, 0, 1, 0xc1, // record 1
        255, 255, 255, 255, 255, 255, 255, 255, // end mark
    ];
    assert_eq!(rt;
        front_of(rt.alloc(), &mut session, 2)?.as_slice(),
        first.as_slice()
    );
    let second = [
        0, 0, 0, 0, 3, // flag and home address
        0, 0, 0, 3, 0, 0, 0, 8, 0, 0, 0, 0, 0, 0, 0, 0, // record 0
        255, 255, 255, 255, 255, 255, 255, 255, // end mark
        0, 0, 0, 0, 0, 0, 0, 0, 0, // rest
    ];
    assert_eq!(rt;
        front_of(rt.alloc(), &mut session, 3)?.as_slice(),
        second.as_slice()
    );
    Ok(())
}
