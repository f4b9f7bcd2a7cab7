//! The records of a data set.

ghost use Rattle.std.specs.Prelude.{◌≡◌, ◌<◌, ◌&&◌, length, map, take, find, All, IfOk};
ghost use Rattle.volume_model.specs.declared.place.Vtoc.{Vtoc};
ghost use Rattle.volume_model.specs.Check.{records_of, same_bytes};
ghost use Rattle.vtoc_check.specs.Reach.{record_in};
ghost use Rattle.layout_found.specs.Sets.{viewed, is_one, set_named};

use ckd_image::{Listed, NoMemory};
use std::alloc::Global;
use volume_model::{Format, Placed};
use vtoc_check::{Directory, chain_at};

/// The records of a data set: its format 1, and its format 3s in the order in which pointers reach them.
#[derive(Debug, Drop)]
pub struct SetRecords {
    pub one: Placed,
    pub threes: Listed<Placed>,
}

fn same_name(bytes: &[u8; 140], name: &[u8; 44]) -> bool
    ensures { result ≡ same_bytes (take 44 bytes.now) name.now }
{
    bytes[..44] == name[..]
}

fn is_format_1(placed: &Placed) -> bool
    ensures { result ≡ is_one placed.now }
{
    matches!(Format::of(&placed.bytes), Format::F1)
}

/// Whether a record is the format 1 of a data set with this name.
fn has_name(placed: &Placed, name: &[u8; 44]) -> bool
    ensures { result ≡ (is_one placed.now && same_bytes (take 44 placed.now.bytes) name.now) }
{
    is_format_1(placed) && same_name(&placed.bytes, name)
}

/// The first format 1 with this name.
fn one_named(records: &[Placed], name: &[u8; 44]) -> Option<Placed>
    ensures { result ≡ find (λ placed. is_one placed && same_bytes (take 44 placed.bytes) name.now) records.now }
{
    for placed in records {
        if has_name(placed, name) {
            return Some(*placed);
        }
    }
    None
}

/// Records by their places in the list.
fn records_at(
    alloc: Global,
    records: &[Placed],
    indices: &[usize],
) -> Result<Listed<Placed>, NoMemory>
    requires { All (λ index. index < length records.now) indices.now }
    ensures { IfOk result (λ found. found ≡ map (record_in records.now) indices.now) }
{
    let mut found = Listed::new(alloc);
    for index in indices {
        found.push(records[*index])?;
    }
    Ok(found)
}

/// The records of the data set with this name: the first of those that have it. `records` are those of the directory.
pub fn records_of_set(
    alloc: Global,
    directory: &Directory,
    records: &[Placed],
    name: &[u8; 44],
) -> Result<Option<SetRecords>, NoMemory>
    requires { records.now ≡ directory.now.records.items }
    ensures { IfOk result (λ found. (vtoc : Vtoc) → directory.now.heads ≡ vtoc.heads → records.now ≡ records_of vtoc → viewed found ≡ set_named vtoc name.now) }
{
    let Some(one) = one_named(records, name) else {
        return Ok(None);
    };
    let chain = chain_at(alloc, directory, &one.bytes)?;
    let threes = records_at(alloc, records, &chain)?;
    Ok(Some(SetRecords { one, threes }))
}
