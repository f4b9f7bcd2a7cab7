//! The directory of a partitioned data set.

ghost use Rattle.std.specs.Prelude.{◌≡◌, ◌↔◌, ◌+◌, ◌++◌, length, All, IsTrue, IfOk, IfErr, IfSome, IfNone};
ghost use Rattle.byteorder.specs.Endian.{big_bytes};
ghost use Rattle.org_reloc.specs.Directory.{IsShaped, IsNoPage};
ghost use Rattle.org_reloc.specs.DirectoryReading.{IsDone, IsReadTo, IsReadRefusal, IsPageRead, IsPageRefusal, ArePagesRead, IsDirectoryRead, IsDirectoryRefusal};

use crate::block::Block;
use crate::entry::{Entry, ends_entries};
use crate::fault::{RelocFault, Why};
use byteorder::{BigEndian, ByteOrder};
use ckd_image::text::tail;
use ckd_image::{Bytes, Listed};
use std::alloc::Global;

/// A block of a directory: the number of its bytes used, entries, what is left of the bytes used, and the bytes behind them.
#[derive(Debug, Drop)]
pub struct Page {
    pub key: Bytes,
    pub used: u16,
    pub entries: Listed<Entry>,
    pub left: Bytes,
    pub filler: Bytes,
}

/// Entries, and what is left behind them.
#[derive(Debug, Drop)]
struct Reading {
    entries: Listed<Entry>,
    left: Bytes,
}

/// Whether no entry is left, or only the last.
fn is_done(left: &[u8]) -> bool
    ensures { IsTrue result ↔ IsDone left.now }
{
    left.is_empty() || ends_entries(left)
}

/// Reads entries up to the end of the bytes, or up to the last entry.
fn read_entries(alloc: Global, bytes: &[u8]) -> Result<Reading, RelocFault>
    ensures read { IfOk result (λ reading. IsReadTo bytes.now reading.entries reading.left) }
    ensures refused { IfErr result (IsReadRefusal bytes.now) }
{
    let mut entries = Listed::new(alloc);
    let mut rest = bytes;
    'entries: while !is_done(rest) {
        let Some(entry) = Entry::read(alloc, rest)? else {
            return Err(RelocFault::NotRelocatable(Why::Directory.number()));
        };
        if !entry.is_plain() {
            return Err(RelocFault::NotRelocatable(Why::UserTtrs.number()));
        }
        rest = tail(rest, entry.len());
        entries.push(entry)?;
    }
    let left = Bytes::from_slice(alloc, rest)?;
    Ok(Reading { entries, left })
}

/// Whether a block has the lengths of one of a directory.
fn is_shaped(block: &Block) -> bool
    ensures { IsTrue result ↔ IsShaped block.now }
{
    block.key.len() == 8 && block.body.len() == 256
}

/// The number of bytes used, the others of them, and those behind.
fn bytes_used(block: &Block) -> Option<(u16, &[u8], &[u8])>
    ensures found { IfSome result (λ x. IsShaped block.now × (block.now.body ≡ big_bytes 2 x.0 ++ (x.1.now ++ x.2.now)) × (x.0 ≡ 2 + length x.1.now)) }
    ensures none { IfNone result (IsNoPage block.now) }
{
    if !is_shaped(block) {
        return None;
    }
    let (number, rest) = block.body.as_slice().split_at(2);
    let used = BigEndian::read_u16(number);
    if used < 2 || used > 256 {
        return None;
    }
    let (bytes, filler) = rest.split_at(used as usize - 2);
    Some((used, bytes, filler))
}

/// A block of a directory with the entries up to its end or to the last one.
fn read_page(alloc: Global, block: &Block) -> Result<Page, RelocFault>
    ensures read { IfOk result (IsPageRead block.now) }
    ensures refused { IfErr result (IsPageRefusal block.now) }
{
    let Some((used, bytes, filler)) = bytes_used(block) else {
        return Err(RelocFault::NotRelocatable(Why::Directory.number()));
    };
    let reading = read_entries(alloc, bytes)?;
    let key = Bytes::from_slice(alloc, block.key.as_slice())?;
    let filler = Bytes::from_slice(alloc, filler)?;
    let Reading { entries, left } = reading;
    Ok(Page {
        key,
        used,
        entries,
        left,
        filler,
    })
}

/// The blocks up to the one with the last entry.
fn read_pages(alloc: Global, blocks: &[Block]) -> Result<Listed<Page>, RelocFault>
    ensures read { IfOk result (ArePagesRead blocks.now) }
    ensures refused { IfErr result (IsDirectoryRefusal blocks.now) }
{
    let mut pages = Listed::new(alloc);
    for block in blocks {
        let page = read_page(alloc, block)?;
        let last = page.left.len() > 0;
        pages.push(page)?;
        if last {
            return Ok(pages);
        }
    }
    Err(RelocFault::NotRelocatable(Why::Directory.number()))
}

fn all_shaped(blocks: &[Block]) -> bool
    ensures { IsTrue result ↔ All IsShaped blocks.now }
{
    blocks.iter().all(|block| is_shaped(block))
}

/// The blocks of a directory up to the one with the last entry.
pub fn read_directory(alloc: Global, blocks: &[Block]) -> Result<Listed<Page>, RelocFault>
    ensures read { IfOk result (IsDirectoryRead blocks.now) }
    ensures refused { IfErr result (IsDirectoryRefusal blocks.now) }
{
    let pages = read_pages(alloc, blocks)?;
    if !all_shaped(&blocks[pages.len()..]) {
        return Err(RelocFault::NotRelocatable(Why::Directory.number()));
    }
    Ok(pages)
}
