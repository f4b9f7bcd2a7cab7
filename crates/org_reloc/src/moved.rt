//! A directory with new places.

ghost use Rattle.std.specs.Prelude.{◌≡◌, ◌≤◌, ◌<◌, length, map, All, IfOk, slice_index_or};
ghost use Rattle.std.specs.List.Sorted.{IsStrictlyIncreasing};
ghost use Rattle.org_reloc.specs.Directory.{page_block};
ghost use Rattle.org_reloc.specs.Partitioned.{moved_page};
ghost use Rattle.org_reloc.specs.Moved.{moved_to, moved_blocks};
ghost use Rattle.org_reloc.specs.Taken.{origin};

use crate::block::Block;
use crate::directory::Page;
use crate::place::Place;
use ckd_image::{Bytes, Listed, NoMemory};
use std::alloc::Global;

/// The new place of each member, by where it begins among blocks at these places.
pub fn places_at(
    alloc: Global,
    places: &[Place],
    starts: &[usize],
) -> Result<Listed<Place>, NoMemory>
    requires { All (λ start. start < length places.now) starts.now }
    ensures { IfOk result (λ news. news ≡ map (λ start. slice_index_or places.now start origin) starts.now) }
{
    let mut news = Listed::new(alloc);
    for start in starts {
        news.push(places[*start])?;
    }
    Ok(news)
}

/// The new place beside an old one.
fn new_place(numbers: &[u32], news: &[Place], place: Place) -> Place
    requires ascending { IsStrictlyIncreasing numbers.now }
    requires counted { length news.now ≡ length numbers.now }
    ensures { result ≡ moved_to numbers.now news.now place }
{
    match numbers.binary_search(&place.ordinal()) {
        Ok(index) => news[index],
        Err(_) => place,
    }
}

/// A block of a directory, with new places in its entries.
fn moved_block(
    alloc: Global,
    page: &Page,
    numbers: &[u32],
    news: &[Place],
) -> Result<Block, NoMemory>
    requires ascending { IsStrictlyIncreasing numbers.now }
    requires counted { length news.now ≡ length numbers.now }
    ensures { IfOk result (λ block. block ≡ page_block (moved_page (moved_to numbers.now news.now) page.now)) }
{
    let key = Bytes::from_slice(alloc, page.key.as_slice())?;
    let mut body = Bytes::from_slice(alloc, &page.used.to_be_bytes())?;
    for entry in page.entries.as_slice() {
        entry.put_at(new_place(numbers, news, entry.place), &mut body)?;
    }
    body.extend_from_slice(page.left.as_slice())?;
    body.extend_from_slice(page.filler.as_slice())?;
    Ok(Block { key, body })
}

/// The blocks of a data set, with new places in its directory.
pub fn move_places(
    alloc: Global,
    pages: &[Page],
    numbers: &[u32],
    news: &[Place],
    blocks: Listed<Block>,
) -> Result<Listed<Block>, NoMemory>
    requires ascending { IsStrictlyIncreasing numbers.now }
    requires counted { length news.now ≡ length numbers.now }
    requires front { length pages.now ≤ length blocks }
    ensures { IfOk result (λ new. new ≡ moved_blocks (moved_to numbers.now news.now) pages.now blocks) }
{
    let mut blocks = blocks.into_vec();
    for (index, page) in pages.iter().enumerate() {
        blocks[index] = moved_block(alloc, page, numbers, news)?;
    }
    Ok(Listed::from_vec(blocks))
}
