//! Tests: pools in memory and over files, and the streams, media and reels beside them.

ghost use Rattle.std.specs.Prelude.{◌≡◌, ◌<◌, ◌≤◌, IsTrue};

use ckd_image::Bytes;
use dasd_pool::*;
use std::alloc::Global;
use std::fs::{self, File};
use std::path::PathBuf;
use std::process::Abort;
use std::test::*;
use std::{env, io};

/// The bytes of a block of a 3350.
const SIZE: usize = 19_456;

/// A head that says so.
fn head() -> [u8; 512] {
    let mut head = [0; 512];
    head[13] = 0x4c;
    head
}

/// A pool in memory. No clause speaks of it: a test looks at what its calls give.
#[derive(Drop)]
struct Tried {
    pool: MemoryPool,
}

impl Tried {
    /// The first and the last byte of both blocks that a stop after so many calls leaves.
    fn ends_left(&self, alloc: Global, calls: u64, tear: Tear) -> Result<[[u8; 2]; 2], Fail> {
        let mut left = self.pool.crash(alloc, calls, tear)?;
        Ok([ends(alloc, &mut left, 0)?, ends(alloc, &mut left, 1)?])
    }
}

/// A pool of two blocks full of threes, after they were filled in order.
fn filled_in_order(alloc: Global) -> Result<Tried, Fail> {
    let threes = vec![in alloc; 3u8; 2 * SIZE]?;
    let mut units = Vec::new(alloc);
    units.push(UnitText {
        head: head(),
        blocks: Bytes::from_vec(threes),
    })?;
    let mut pool = MemoryPool::new(alloc, units, Vec::new(alloc), 10)?;
    fill_in_order(alloc, &mut pool)?;
    Ok(Tried { pool })
}

/// Whether unit 0 has this block, of the size of a 3350.
fn has_block<P: Pool>(pool: &P, block: u32) -> bool
    ensures { IsTrue result → (0 < (P.shape pool.now).units) × (block < (P.shape pool.now).blocks 0) × ((P.shape pool.now).block_size 0 ≡ 19456) }
{
    pool.units() > 0 && block < pool.blocks(0) && pool.block_size(0) as usize == SIZE
}

/// The first and the last byte of a block of unit 0.
fn ends<P: Pool>(alloc: Global, pool: &mut P, block: u32) -> Result<[u8; 2], Fail> {
    let mut bytes = vec![in alloc; 1u8; SIZE]?;
    if !has_block(pool, block) {
        return Ok([1, 1]);
    }
    pool.read(0, block, &mut bytes)?;
    Ok([bytes[0], bytes[SIZE - 1]])
}

/// Writes a block of unit 0 with one byte everywhere.
fn fill<P: Pool>(
    alloc: Global,
    pool: &mut P,
    block: u32,
    byte: u8,
) -> Result<Result<(), PoolFault>, Fail> {
    let bytes = vec![in alloc; byte; SIZE]?;
    if !has_block(pool, block) {
        return Ok(Ok(()));
    }
    Ok(pool.write(0, block, &bytes))
}

/// Writes block 0 of unit 0 with sevens, and then block 1 with nines.
fn fill_in_order<P: Pool>(alloc: Global, pool: &mut P) -> Result<(), Fail> {
    let sevens = vec![in alloc; 7u8; SIZE]?;
    let nines = vec![in alloc; 9u8; SIZE]?;
    if has_block(pool, 0) && has_block(pool, 1) {
        write_in_order(pool, 0, 0, &sevens, 1, &nines)?;
    }
    Ok(())
}

/// A stop after so many calls, how it tears, and the ends of both blocks that it leaves.
type Stop = (u64, Tear, [[u8; 2]; 2]);

static STOPS: [Stop; 11] = [
    (0, Tear::New, [[3, 3], [3, 3]]),
    (1, Tear::Old, [[3, 3], [3, 3]]),
    (1, Tear::New, [[7, 7], [3, 3]]),
    (1, Tear::Zero, [[0, 0], [3, 3]]),
    (1, Tear::Half, [[7, 3], [3, 3]]),
    (2, Tear::Old, [[7, 7], [3, 3]]),
    (3, Tear::Old, [[7, 7], [3, 3]]),
    (3, Tear::New, [[7, 7], [9, 9]]),
    (3, Tear::Zero, [[7, 7], [0, 0]]),
    (3, Tear::Half, [[7, 7], [9, 3]]),
    (4, Tear::Old, [[7, 7], [9, 9]]),
];

fn assert_stops(rt: &impl Abort, alloc: Global, pool: &Tried) -> Result<(), Fail> {
    for &(calls, tear, ends) in &STOPS {
        let left = pool.ends_left(alloc, calls, tear)?;
        assert_eq!(rt; left, ends, "{tear:?} after {calls}");
    }
    Ok(())
}

#[test]
fn a_stop_tears_just_the_block_that_is_not_synced(rt: HostRuntime) -> Result<(), Fail> {
    let tried = filled_in_order(rt.alloc())?;
    assert_eq!(rt; tried.pool.calls(), 4);
    assert_stops(&rt, rt.alloc(), &tried)
}

/// The path of a file for a test.
fn scratch(rt: &HostRuntime, name: &str) -> io::Result<PathBuf> {
    Ok(env::temp_dir(rt)?.join(rt.alloc(), name)?)
}

/// Writes a file of a head and so many fives.
fn write_unit(rt: &HostRuntime, path: &PathBuf, fives: usize) -> Result<(), Fail>
    requires { fives ≤ 100000 }
{
    let mut text = Vec::new(rt.alloc());
    text.extend_from_slice(&head())?;
    text.resize(512 + fives, 5)?;
    Ok(fs::write(rt, path, &text)?)
}

/// A pool of one file.
fn pool_of(alloc: Global, file: File) -> io::Result<FilePool<File>> {
    let mut pool = FilePool::new(alloc);
    pool.add(file)?;
    Ok(pool)
}

/// The head of the one unit of a pool.
fn head_of<P: Pool>(pool: &P) -> Option<[u8; 512]> {
    if pool.units() != 1 {
        return None;
    }
    Some(pool.head(0))
}

/// The bytes of each block of the one unit of a pool, and how many blocks it has.
fn blocks_of<P: Pool>(pool: &P) -> Option<(u32, u32)> {
    if pool.units() != 1 {
        return None;
    }
    Some((pool.block_size(0), pool.blocks(0)))
}

/// The ends of block 0 before it is filled with sixes and synced, and afterwards.
fn refilled<P: Pool>(alloc: Global, pool: &mut P) -> Result<[[u8; 2]; 2], Fail> {
    let before = ends(alloc, pool, 0)?;
    fill(alloc, pool, 0, 6)??;
    pool.sync()?;
    Ok([before, ends(alloc, pool, 0)?])
}

/// How long a file is, its last byte of block 0, and the byte behind it.
fn written(rt: &HostRuntime, path: &PathBuf) -> io::Result<(usize, Option<u8>, Option<u8>)> {
    let bytes = fs::read(rt, path)?;
    let last = bytes.get(512 + SIZE - 1).copied();
    Ok((bytes.len(), last, bytes.get(512 + SIZE).copied()))
}

#[test]
fn a_file_is_a_unit_with_a_head_and_whole_blocks(rt: HostRuntime) -> Result<(), Fail> {
    let path = scratch(&rt, "dasd_pool_unit")?;
    write_unit(&rt, &path, SIZE + SIZE - 1)?;
    let file = File::options().read(true).write(true).open(&rt, &path)?;
    let mut pool = pool_of(rt.alloc(), file)?;
    assert_eq!(rt; head_of(&pool), Some(head()));
    assert_eq!(rt; blocks_of(&pool), Some((19_456, 1)), "a rest is no block");
    assert_eq!(rt; refilled(rt.alloc(), &mut pool)?, [[5, 5], [6, 6]]);
    let length = 512 + SIZE + SIZE - 1;
    assert_eq!(rt; written(&rt, &path)?, (length, Some(6), Some(5)));
    fs::remove_file(&rt, &path)?;
    Ok(())
}

#[test]
fn a_short_file_has_zeros_in_its_head(rt: HostRuntime) -> Result<(), Fail> {
    let path = scratch(&rt, "dasd_pool_short")?;
    fs::write(&rt, &path, b"ADRJRNL1")?;
    let mut pool = FilePool::new(rt.alloc());
    pool.add(File::open(&rt, &path)?)?;
    let mut head = [0; 512];
    head[..8].copy_from_slice(b"ADRJRNL1");
    if pool.units() == 1 {
        assert_eq!(rt; pool.head(0), head);
        assert_eq!(rt; pool.blocks(0), 0);
    }
    fs::remove_file(&rt, &path)?;
    Ok(())
}

/// The unit whose file failed.
fn failed_unit(pool: &FilePool<File>) -> Option<u32> {
    Some(pool.failure()?.unit)
}

fn assert_refuses_a_block(
    rt: &impl Abort,
    alloc: Global,
    pool: &mut FilePool<File>,
) -> Result<(), Fail> {
    assert_eq!(rt; failed_unit(pool), None);
    assert_eq!(rt; fill(alloc, pool, 0, 6)?, Err(PoolFault));
    assert_eq!(rt; failed_unit(pool), Some(0));
    Ok(())
}

/// A write to a file that is open for reads.
fn write_refused(rt: &HostRuntime, path: &PathBuf) -> io::Result<Result<usize, WriteFault>> {
    Ok(FileSink::new(File::open(rt, path)?).write(b"free"))
}

/// A read of a file that is open for writes.
fn read_refused(rt: &HostRuntime, path: &PathBuf) -> io::Result<Result<usize, ReadFault>> {
    let mut buf = [0; 8];
    Ok(FileSource::new(File::create(rt, path)?).read(&mut buf))
}

#[test]
fn a_file_that_refuses_is_a_fault(rt: HostRuntime) -> Result<(), Fail> {
    let path = scratch(&rt, "dasd_pool_refuses")?;
    write_unit(&rt, &path, SIZE)?;
    let mut pool = pool_of(rt.alloc(), File::open(&rt, &path)?)?;
    assert_refuses_a_block(&rt, rt.alloc(), &mut pool)?;
    assert_eq!(rt; write_refused(&rt, &path)?, Err(WriteFault));
    assert_eq!(rt; read_refused(&rt, &path)?, Err(ReadFault));
    fs::remove_file(&rt, &path)?;
    Ok(())
}

#[test]
fn a_stream_in_memory_takes_and_gives_bytes(rt: HostRuntime) -> Result<(), Fail> {
    let mut failing = Vec::new(rt.alloc());
    failing.push(1)?;
    let mut sink = MemorySink::new(rt.alloc(), 3, failing)?;
    assert_eq!(rt; sink.write(b"free"), Ok(3));
    assert_eq!(rt; sink.write(b"e"), Err(WriteFault), "told to fail");
    assert_eq!(rt; sink.write(b"e"), Err(WriteFault), "no room");
    assert_eq!(rt; sink.text(), b"fre".as_slice());
    let text = Bytes::from_slice(rt.alloc(), b"free")?;
    let mut source = MemorySource::new(text, Vec::new(rt.alloc()));
    let mut buf = [0; 3];
    assert_eq!(rt; source.read(&mut buf), Ok(3));
    assert_eq!(rt; source.read(&mut buf), Ok(1));
    assert_eq!(rt; source.read(&mut buf), Ok(0));
    Ok(())
}

/// Puts two pieces into a new file and finishes it.
fn finished(rt: &HostRuntime, path: &PathBuf) -> Result<[Result<(), MediumFault>; 3], Fail> {
    let folder = File::open(rt, env::temp_dir(rt)?)?;
    let mut medium = FileMedium::new(File::create(rt, path)?, folder);
    let first = medium.put(b"fre");
    Ok([first, medium.put(b"e"), medium.finish()])
}

/// How many bytes two reads of a reel give, and its first four. Then the reel is rewound.
fn reeled<R: Reel>(reel: &mut R) -> Result<([usize; 2], [u8; 4]), ReelFault> {
    let mut buf = [0; 8];
    let first = reel.read(&mut buf)?;
    let bytes = [buf[0], buf[1], buf[2], buf[3]];
    let second = reel.read(&mut buf)?;
    reel.rewind()?;
    Ok(([first, second], bytes))
}

/// A piece for a file that is open for reads.
fn put_refused(rt: &HostRuntime, path: &PathBuf) -> io::Result<Result<(), MediumFault>> {
    let mut medium = FileMedium::new(File::open(rt, path)?, File::open(rt, path)?);
    Ok(medium.put(b"e"))
}

#[test]
fn a_file_is_a_medium_and_then_a_reel(rt: HostRuntime) -> Result<(), Fail> {
    let path = scratch(&rt, "dasd_pool_reel")?;
    assert_eq!(rt; finished(&rt, &path)?, [Ok(()); 3]);
    let mut reel = FileReel::new(File::open(&rt, &path)?);
    for _ in 0..2 {
        assert_eq!(rt; reeled(&mut reel), Ok(([4, 0], *b"free")));
    }
    assert_eq!(rt;
        put_refused(&rt, &path)?,
        Err(MediumFault),
        "not to be written"
    );
    fs::remove_file(&rt, &path)?;
    Ok(())
}
