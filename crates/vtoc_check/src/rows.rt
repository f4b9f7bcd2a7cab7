//! The data sets of a VTOC: their format 1s, and their extents through their format 3s.

ghost use Rattle.std.specs.Prelude.{◌≡◌, ◌==◌, ◌<◌, ◌≤◌, ◌+◌, ◌++◌, ◌∷◌, [], All, not, map, filter, length, IfOk, OnOk};
ghost use Rattle.std.specs.List.{flat_map};
ghost use Rattle.volume_model.specs.declared.place.Place.{Place as PlaceOf};
ghost use Rattle.volume_model.specs.Dscbs.{format_of, is_f1, extent_at as extent_in, extents_of};
ghost use Rattle.volume_model.specs.Directory.{row_of};
ghost use Rattle.vtoc_check.specs.Reach.{record_in};

use crate::chain::chain_at;
use crate::directory::Directory;
use crate::dscb::{extent_at, is_format_1, offsets_of};
use ckd_image::NoMemory;
use std::alloc::Global;
use volume_model::{ExtentField, Format, Placed};

/// The extents of a data set in order, those of its format 3s behind its own, and how many format 3s it has.
#[derive(Debug, Drop)]
pub struct SetExtents {
    pub extents: Vec<ExtentField>,
    pub threes: usize,
}

/// Adds an extent, unless it is empty.
fn add_extent(extents: &mut Vec<ExtentField>, extent: ExtentField) -> Result<(), NoMemory>
    ensures { OnOk result (extents.new.items ≡ extents.old.items ++ filter (λ extent. not (extent.kind == 0)) (extent ∷ [])) }
{
    if extent.kind == 0 {
        return Ok(());
    }
    extents.push(extent)?;
    Ok(())
}

/// Adds the extents at these offsets.
fn add_extents_at(
    extents: &mut Vec<ExtentField>,
    bytes: &[u8; 140],
    offsets: &[usize],
) -> Result<(), NoMemory>
    requires { All (λ offset. offset + 10 ≤ 140) offsets.now }
    ensures { OnOk result (extents.new.items ≡ extents.old.items ++ filter (λ extent. not (extent.kind == 0)) (map (extent_in bytes.now) offsets.now)) }
{
    for offset in offsets {
        let extent = extent_at(bytes, *offset);
        add_extent(extents, extent)?;
    }
    Ok(())
}

/// Adds the extents of a DSCB.
fn add_extents(extents: &mut Vec<ExtentField>, bytes: &[u8; 140]) -> Result<(), NoMemory>
    ensures { OnOk result (extents.new.items ≡ extents.old.items ++ extents_of bytes.now) }
{
    add_extents_at(extents, bytes, offsets_of(Format::of(bytes)))
}

/// Adds the extents of records by their places in the list.
fn add_chain(
    extents: &mut Vec<ExtentField>,
    records: &[Placed],
    chain: &[usize],
) -> Result<(), NoMemory>
    requires { All (λ index. index < length records.now) chain.now }
    ensures { OnOk result (extents.new.items ≡ extents.old.items ++ flat_map (λ three. extents_of three.bytes) (map (record_in records.now) chain.now)) }
{
    for index in chain {
        let placed = records[*index];
        add_extents(extents, &placed.bytes)?;
    }
    Ok(())
}

/// The extents of the data set with this format 1. `records` are those of the directory.
fn set_extents(
    alloc: Global,
    directory: &Directory,
    records: &[Placed],
    bytes: &[u8; 140],
) -> Result<SetExtents, NoMemory>
    requires { records.now ≡ directory.now.records.items }
    ensures { IfOk result (λ set. (place : PlaceOf)
        → (set.extents.items ≡ (row_of directory.now.heads directory.now.records.items (record { place = place; bytes = bytes.now })).extents)
        × (set.threes ≡ (row_of directory.now.heads directory.now.records.items (record { place = place; bytes = bytes.now })).threes)) }
{
    let chain = chain_at(alloc, directory, bytes)?;
    let mut extents = Vec::new(alloc);
    add_extents(&mut extents, bytes)?;
    add_chain(&mut extents, records, &chain)?;
    Ok(SetExtents {
        extents,
        threes: chain.len(),
    })
}

/// The extents of the data set with this format 1, as the row of the directory has them.
pub fn extents_of_set(
    alloc: Global,
    directory: &Directory,
    bytes: &[u8; 140],
) -> Result<SetExtents, NoMemory>
    ensures { IfOk result (λ set. (place : PlaceOf)
        → (set.extents.items ≡ (row_of directory.now.heads directory.now.records.items (record { place = place; bytes = bytes.now })).extents)
        × (set.threes ≡ (row_of directory.now.heads directory.now.records.items (record { place = place; bytes = bytes.now })).threes)) }
{
    set_extents(alloc, directory, &directory.records, bytes)
}

/// The format 1s, in the order of their places.
pub fn data_sets(alloc: Global, records: &[Placed]) -> Result<Vec<[u8; 140]>, NoMemory>
    ensures { IfOk result (λ sets. sets.items ≡ map (λ placed. placed.bytes) (filter (λ placed. is_f1 (format_of placed.bytes)) records.now)) }
{
    let mut sets = Vec::new(alloc);
    for placed in records {
        add_set(&mut sets, placed)?;
    }
    Ok(sets)
}

/// Adds a record, where it is a format 1.
fn add_set(sets: &mut Vec<[u8; 140]>, placed: &Placed) -> Result<(), NoMemory>
    ensures { OnOk result (sets.new.items ≡ sets.old.items ++ map (λ placed. placed.bytes) (filter (λ placed. is_f1 (format_of placed.bytes)) (placed.now ∷ []))) }
{
    if is_format_1(&placed.bytes) {
        sets.push(placed.bytes)?;
    }
    Ok(())
}
