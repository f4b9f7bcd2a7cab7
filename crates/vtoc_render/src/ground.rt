//! The records of a VTOC that was loaded before.

ghost use Rattle.std.specs.Prelude.{◌≡◌, find, map, IfOk};
ghost use Rattle.std.specs.List.{flat_map};
ghost use Rattle.std.specs.Option.{option_copied, option_to_list};
ghost use Rattle.volume_model.specs.declared.place.Vtoc.{Vtoc};
ghost use Rattle.volume_model.specs.Dscbs.{format_of, is_f4};
ghost use Rattle.volume_model.specs.Check.{records_of};
ghost use Rattle.layout_edit.specs.Change.{place_of};
ghost use Rattle.layout_found.specs.Sets.{viewed};
ghost use Rattle.vtoc_allot.specs.Allotted.{listed};
ghost use Rattle.vtoc_render.specs.Loads.{LoadsFrom, OfEachVtoc, IsGroundOf, HoldsNamed, gone_of};

use ckd_image::{Listed, NoMemory};
use layout_found::{SetRecords, fives_in_directory, records_of_set};
use std::alloc::Global;
use volume_model::{Format, Place, Placed};
use vtoc_allot::Held;
use vtoc_check::{Directory, read_tracks};
use vtoc_core::Volume;

/// The records of a VTOC and its format 4.
#[derive(Drop)]
pub struct Ground {
    pub directory: Directory,
    pub four: Placed,
}

fn is_format_4(placed: &Placed) -> bool
    ensures { result ≡ is_f4 (format_of placed.now.bytes) }
{
    matches!(Format::of(&placed.bytes), Format::F4)
}

/// The first format 4 among records.
fn four_among(records: &[Placed]) -> Option<&Placed>
    ensures { option_copied result ≡ find (λ placed. is_f4 (format_of placed.bytes)) records.now }
{
    records.iter().find(|placed| is_format_4(placed))
}

/// The records that stand in the slots of a volume's VTOC, with their places.
fn directory_of(alloc: Global, volume: &Volume, slots: &[u8]) -> Result<Directory, NoMemory>
    requires { LoadsFrom volume.now slots.now }
    ensures { IfOk result (λ directory. OfEachVtoc volume.now slots.now (λ vtoc four. (directory.records.items ≡ records_of vtoc) × (directory.heads ≡ vtoc.heads))) }
{
    let device = volume.device;
    let tracks = read_tracks(alloc, device, volume.vtoc, slots)?;
    Directory::new(alloc, device.heads(), volume.vtoc.first, tracks.as_slice())
}

/// The records that stand in the slots of a volume's VTOC, and the format 4 among them.
pub(crate) fn ground_of(alloc: Global, volume: &Volume, slots: &[u8]) -> Result<Ground, NoMemory>
    requires { LoadsFrom volume.now slots.now }
    ensures { IfOk result (λ base. OfEachVtoc volume.now slots.now (IsGroundOf base)) }
{
    let directory = directory_of(alloc, volume, slots)?;
    let Some(four) = four_among(directory.records()) else {
        unreachable!();
    };
    let four = *four;
    Ok(Ground { directory, four })
}

/// The places of records.
fn places_of(alloc: Global, records: &[Placed]) -> Result<Listed<Place>, NoMemory>
    ensures { IfOk result (λ places. places ≡ map place_of records.now) }
{
    let mut places = Listed::new(alloc);
    for placed in records {
        places.push(placed.place)?;
    }
    Ok(places)
}

/// The records of the data set with a name, where one is named and is there.
fn set_of(
    alloc: Global,
    directory: &Directory,
    name: Option<[u8; 44]>,
) -> Result<Option<SetRecords>, NoMemory>
    ensures { IfOk result (λ found. (vtoc : Vtoc) → directory.now.heads ≡ vtoc.heads → directory.now.records.items ≡ records_of vtoc → option_to_list (viewed found) ≡ gone_of vtoc name) }
{
    match name {
        Some(name) => records_of_set(alloc, directory, directory.records(), &name),
        None => Ok(None),
    }
}

/// The places of a data set's records, where there is one, beside those of format 5s.
fn held_with(alloc: Global, set: Option<SetRecords>, fives: Listed<Place>) -> Result<Held, NoMemory>
    ensures { IfOk result (λ held. (listed held.one ≡ map (λ set. place_of set.one) (option_to_list (viewed set)))
        × (held.threes ≡ flat_map (λ set. map place_of set.threes) (option_to_list (viewed set)))
        × (held.fives ≡ fives)) }
{
    let Some(set) = set else {
        return Ok(Held {
            one: None,
            threes: Listed::new(alloc),
            fives,
        });
    };
    Ok(Held {
        one: Some(set.one.place),
        threes: places_of(alloc, set.threes.as_slice())?,
        fives,
    })
}

/// The places of the records of the data set with a name, where one is named, and of the format 5s.
pub(crate) fn held_of(
    alloc: Global,
    volume: &Volume,
    slots: &[u8],
    base: &Ground,
    name: Option<[u8; 44]>,
) -> Result<Held, NoMemory>
    requires loads { LoadsFrom volume.now slots.now }
    requires base { OfEachVtoc volume.now slots.now (IsGroundOf base.now) }
    ensures { IfOk result (λ held. OfEachVtoc volume.now slots.now (HoldsNamed name held)) }
{
    let directory = &base.directory;
    let fives = fives_in_directory(alloc, directory, !volume.repair)?;
    let places = places_of(alloc, fives.as_slice())?;
    let set = set_of(alloc, directory, name)?;
    held_with(alloc, set, places)
}
