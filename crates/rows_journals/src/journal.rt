//! Tests: what the journal says of a slide, whose steps no run takes yet.

ghost use Rattle.std.specs.Prelude.{◌≡◌, [], Some, IsTrue, IfOk};
ghost use Rattle.redo_core.specs.Opening.{AreNames};
ghost use Rattle.redo_core.specs.Reading.{IsLawful};
ghost use Rattle.redo_core.specs.Statuses.{IsDown, HasFour, block_saying};

use ckd_image::text::put_over;
use ckd_image::{Bytes, NoMemory};
use dasd_pool::{MemoryPool, Pool, Tear, UnitText};
use redo_core::*;
use std::alloc::Global;
use std::process::Abort;
use std::test::*;
use vol_label::Serial;

/// The bytes of a block of a 3350.
const SIZE: usize = 19_456;

/// `VOL001` and `VOL002` in the code page.
const NAMES: [Serial; 2] = [
    Serial {
        text: [0xe5, 0xd6, 0xd3, 0xf0, 0xf0, 0xf1],
    },
    Serial {
        text: [0xe5, 0xd6, 0xd3, 0xf0, 0xf0, 0xf2],
    },
];

/// A volume of two blocks of zeros.
fn volume(rt: &HostRuntime) -> Result<UnitText, Fail> {
    let mut head = [0; 512];
    head[13] = 0x4c;
    let zeros = vec![in rt.alloc(); 0u8; 2 * SIZE]?;
    Ok(UnitText {
        head,
        blocks: Bytes::from_vec(zeros),
    })
}

/// The registration of these volumes, with room for three images.
const REGISTRATION: [u8; 28] = [
    0x41, 0x44, 0x52, 0x52, 0x45, 0x47, 0x30, 0x31, 0, 0, 0, 2, 0, 0, 0, 3, 0xe5, 0xd6, 0xd3, 0xf0,
    0xf0, 0xf1, 0xe5, 0xd6, 0xd3, 0xf0, 0xf0, 0xf2,
];

/// Two volumes and seven blocks of a journal at rest.
fn pool(rt: &HostRuntime) -> Result<MemoryPool, Fail> {
    let mut blocks = vec![in rt.alloc(); 0u8; 7 * 65_536]?;
    put_over(&mut blocks, 0, &REGISTRATION);
    let mut units = Vec::new(rt.alloc());
    units.push(volume(rt)?)?;
    units.push(volume(rt)?)?;
    units.push(UnitText {
        head: journal_head(),
        blocks: Bytes::from_vec(blocks),
    })?;
    Ok(MemoryPool::new(rt.alloc(), units, Vec::new(rt.alloc()), 40)?)
}

/// Whether there are two volumes for these names.
fn are_names<P: Pool>(pool: &P, names: &[Serial]) -> bool
    ensures { IsTrue result → AreNames (P.shape pool.now) names.now }
{
    if pool.units() != 3 || names.len() != 2 || !are_serials(names) {
        return false;
    }
    !is_same(names[0], names[1])
}

/// Opens the journal, where there are two volumes.
fn open<P: Pool + Drop>(alloc: Global, pool: P) -> Result<Journal<P>, JournalFault> {
    if !are_names(&pool, &NAMES) {
        return Err(JournalFault::BadJournal(0));
    }
    match Journal::open_units(alloc, pool, &NAMES) {
        Ok(journal) => Ok(journal),
        Err(stop) => Err(stop.cause),
    }
}

/// A slide of track 1 to track 0 that has just begun.
const SHORT: Control = Control::Slide {
    unit: 1,
    from: 1,
    to: 0,
    len: 1,
    done: 0,
};

/// The entry for a control block that says a slide, with a fill of volume 1 open.
fn slide_alone(alloc: Global, slide: Control) -> Result<Entries, NoMemory>
    requires { IsDown slide }
    ensures says { IfOk result (λ entries. entries ≡ record { blocks = []; control = Some (block_saying slide 2) }) }
    ensures fits { IfOk result (λ entries. HasFour slide) }
{
    let mut entries = Entries::new(alloc, 3)?;
    entries.push_control(alloc, slide, 2)?;
    Ok(entries)
}

/// Whether a slide is of tracks of a volume, and to tracks below them.
fn is_slide<P: Pool>(journal: &Journal<P>, control: Control) -> bool
    ensures { IsTrue result → IsLawful (P.shape journal.now.pool) control }
{
    let Control::Slide {
        unit,
        from,
        to,
        len,
        done,
    } = control
    else {
        return true;
    };
    if unit >= journal.units() || from >= journal.blocks(unit) {
        return false;
    }
    to < from && 1 <= len && done <= len && len <= journal.blocks(unit) - from
}

/// Commits the short slide and the fill, where there are two volumes that have its tracks.
fn commit_slide<P: Pool + Drop>(alloc: Global, journal: Journal<P>) -> Option<Journal<P>> {
    control_laws();
    if journal.units() != 2 || journal.room() < 1 || !is_slide(&journal, SHORT) {
        return None;
    }
    let Ok(entries) = slide_alone(alloc, SHORT) else {
        return None;
    };
    journal.commit(entries).ok()
}

/// Commits that no slide is open, and the fills that are.
fn commit_idle<P: Pool + Drop>(journal: Journal<P>) -> Option<Journal<P>> {
    let fills = journal.fills();
    journal.commit_control(Control::Idle, fills).ok()
}

/// The control block of the journal of two volumes.
fn control_block(alloc: Global, mut pool: MemoryPool) -> Result<Vec<u8>, Fail> {
    let mut block = vec![in alloc; 0u8; 65_536]?;
    if pool.units() == 3 && pool.block_size(2) == 65_536 && 2 < pool.blocks(2) {
        pool.read(2, 2, &mut block)?;
    }
    Ok(block)
}

/// Whether the short slide is under way, and a fill of the second of two volumes alone.
fn is_under_way<P: Pool>(journal: &Journal<P>) -> bool {
    if journal.units() != 2 || journal.control() != SHORT || journal.fills() != 2 {
        return false;
    }
    !journal.filling(0) && journal.filling(1)
}

/// Whether no slide is open, and a fill of the second of two volumes alone.
fn has_one_fill<P: Pool>(journal: &Journal<P>) -> bool {
    if journal.units() != 2 || journal.control() != Control::Idle {
        return false;
    }
    !journal.filling(0) && journal.filling(1)
}

static TEARS: [Tear; 4] = [Tear::Old, Tear::New, Tear::Zero, Tear::Half];

/// The pool once the short slide is under way.
fn slid(rt: &HostRuntime) -> Result<Option<MemoryPool>, Fail> {
    let Ok(journal) = open(rt.alloc(), pool(rt)?) else {
        return Ok(None);
    };
    match commit_slide(rt.alloc(), journal) {
        Some(journal) if is_under_way(&journal) => Ok(Some(journal.into_pool())),
        _ => Ok(None),
    }
}

/// Why the journal isn't opened that a stop leaves. An open slide refuses an opening: by that it is seen whether the control block is in place.
fn refusal(
    alloc: Global,
    pool: &MemoryPool,
    calls: u64,
    tear: Tear,
) -> Result<Option<JournalFault>, Fail> {
    Ok(open(alloc, pool.crash(alloc, calls, tear)?).err())
}

fn assert_stops(rt: &impl Abort, alloc: Global, pool: &MemoryPool) -> Result<(), Fail> {
    for calls in 0..14 {
        for &tear in &TEARS {
            let found = refusal(alloc, pool, calls, tear)?;
            let is_open = found == Some(JournalFault::BadJournal(7));
            assert!(rt; is_open || found.is_none(), "{tear:?} after {calls}");
        }
    }
    Ok(())
}

#[test]
fn a_slide_is_open_once_its_entry_is_in_place(rt: HostRuntime) -> Result<(), Fail> {
    let pool = slid(&rt)?.expect(&rt, "the commit fails");
    assert_eq!(rt; pool.calls(), 13);
    assert_stops(&rt, rt.alloc(), &pool)?;
    let whole = refusal(rt.alloc(), &pool, 13, Tear::Old)?;
    assert_eq!(rt; whole, Some(JournalFault::BadJournal(7)));
    Ok(())
}

// Bytes 0, 4 to 23 and 65 of block 2 of the journal, which is the third unit.
#[test]
fn the_control_block_says_a_slide_and_a_fill(rt: HostRuntime) -> Result<(), Fail> {
    let mut want = vec![in rt.alloc(); 0u8; 65_536]?;
    let front = [
        1, 0, 0, 0, 0, 0, 0, 1, 0, 0, 0, 1, 0, 0, 0, 0, 0, 0, 0, 1, 0, 0, 0, 0,
    ];
    put_over(&mut want, 0, &front);
    put_over(&mut want, 65, &[1]);
    let pool = slid(&rt)?.expect(&rt, "the commit fails");
    assert!(rt; control_block(rt.alloc(), pool)?.as_slice() == want.as_slice());
    Ok(())
}

/// The pool once the slide is closed and the fill is open still.
fn filled(rt: &HostRuntime) -> Result<Option<MemoryPool>, Fail> {
    let Ok(journal) = open(rt.alloc(), pool(rt)?) else {
        return Ok(None);
    };
    let slid = commit_slide(rt.alloc(), journal);
    match slid.and_then(commit_idle) {
        Some(journal) if has_one_fill(&journal) => Ok(Some(journal.into_pool())),
        _ => Ok(None),
    }
}

#[test]
fn a_journal_is_opened_over_an_open_fill(rt: HostRuntime) -> Result<(), Fail> {
    let mut want = vec![in rt.alloc(); 0u8; 65_536]?;
    put_over(&mut want, 65, &[1]);
    let pool = filled(&rt)?.expect(&rt, "a commit fails");
    let Ok(journal) = open(rt.alloc(), pool) else {
        return Err(Fail::new("it isn't opened"));
    };
    assert!(rt; has_one_fill(&journal));
    assert!(rt; control_block(rt.alloc(), journal.into_pool())?.as_slice() == want.as_slice());
    Ok(())
}
