//! The rows of a directory, in the order of their names.

ghost use Rattle.std.specs.Prelude.{◌≡◌, ◌<◌, ◌^◌, All, map, IfOk, length};
ghost use Rattle.std.specs.List.Sorted.{IsPermutation, IsSortedBy};
ghost use Rattle.volume_model.specs.Directory.{AreInOrder, rows_of as rows_in};
ghost use Rattle.vtoc_core.specs.Loaded.{field_of, row_in, HasItsName};
ghost use Rattle.vtoc_load.specs.LoadedVtoc.{row_with, set_before};

use ckd_image::NoMemory;
use dscb_rec::Extent;
use std::alloc::Global;
use volume_model::ExtentField;
use vtoc_check::{Directory, data_sets, extents_of_set, name_of};
use vtoc_core::{Extents, Row, Rows};

/// Extents, numbered in order from 0.
fn numbered(alloc: Global, fields: &[ExtentField]) -> Result<Extents, NoMemory>
    ensures { IfOk result (λ extents. map field_of extents ≡ fields.now) }
{
    let mut extents = Extents::new(alloc);
    for (place, field) in fields.iter().enumerate() {
        extents.push(Extent {
            kind: field.kind,
            number: place.min(255) as u8,
            first: field.first,
            last: field.last,
        })?;
    }
    Ok(extents)
}

/// The row of a data set.
fn row(alloc: Global, directory: &Directory, bytes: &[u8; 140]) -> Result<Row, NoMemory>
    requires { length directory.now.records.items < 2 ^ 32 }
    ensures row { IfOk result (λ row. row_in row ≡ row_with directory.now.heads directory.now.records.items bytes.now) }
    ensures name { IfOk result HasItsName }
{
    let set = extents_of_set(alloc, directory, bytes)?;
    Ok(Row {
        name: name_of(bytes),
        f1: *bytes,
        extents: numbered(alloc, &set.extents)?,
        threes: set.threes as u32,
    })
}

/// The rows of data sets, in the same order.
fn rows_of(alloc: Global, directory: &Directory, sets: &[[u8; 140]]) -> Result<Rows, NoMemory>
    requires { length directory.now.records.items < 2 ^ 32 }
    ensures rows { IfOk result (λ rows. map row_in rows ≡ map (row_with directory.now.heads directory.now.records.items) sets.now) }
    ensures names { IfOk result (All HasItsName) }
{
    let mut rows = Rows::new(alloc);
    for bytes in sets {
        rows.push(row(alloc, directory, bytes)?)?;
    }
    Ok(rows)
}

/// Puts data sets in the order of their names.
fn sort_by_name(sets: &mut Vec<[u8; 140]>)
    ensures same { IsPermutation sets.old.items sets.new.items }
    ensures order { IsSortedBy set_before sets.new.items }
{
    sets.sort_unstable();
}

/// The rows of a directory, in the order of their names.
pub(crate) fn rows_in_order(alloc: Global, directory: &Directory) -> Result<Rows, NoMemory>
    requires { length directory.now.records.items < 2 ^ 32 }
    ensures order { IfOk result (λ rows. AreInOrder (rows_in directory.now.heads directory.now.records.items) (map row_in rows)) }
    ensures names { IfOk result (All HasItsName) }
{
    let mut sets = data_sets(alloc, directory.records())?;
    sort_by_name(&mut sets);
    rows_of(alloc, directory, &sets)
}
