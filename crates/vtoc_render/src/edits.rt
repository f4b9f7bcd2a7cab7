//! The records that a change writes.

ghost use Rattle.std.specs.Prelude.{◌≡◌, ◌∷◌, ◌++◌, map, IfOk, OnOk};
ghost use Rattle.layout_edit.specs.Change.{zeroed as zeroed_in};
ghost use Rattle.vtoc_render.specs.Steps.{records_put};

use ckd_image::{Listed, NoMemory};
use std::alloc::Global;
use volume_model::{Place, Placed};
use vtoc_making::SetWritten;

/// A record that is given back.
fn zeroed(place: Place) -> Placed
    ensures { result ≡ zeroed_in place }
{
    Placed {
        place,
        bytes: [0; 140],
    }
}

/// Adds records.
fn add(edits: &mut Listed<Placed>, more: &[Placed]) -> Result<(), NoMemory>
    ensures { OnOk result (edits.new ≡ edits.old ++ more.now) }
{
    for placed in more {
        edits.push(*placed)?;
    }
    Ok(())
}

/// Adds the records of a data set that is put, if one is.
fn add_set(edits: &mut Listed<Placed>, set: Option<SetWritten>) -> Result<(), NoMemory>
    ensures { OnOk result (edits.new ≡ edits.old ++ records_put set) }
{
    let Some(set) = set else {
        return Ok(());
    };
    edits.push(set.one)?;
    if let Some(three) = set.three {
        edits.push(three)?;
    }
    Ok(())
}

/// Adds zeros over the records that are given back.
fn add_freed(edits: &mut Listed<Placed>, freed: &[Place]) -> Result<(), NoMemory>
    ensures { OnOk result (edits.new ≡ edits.old ++ map zeroed_in freed.now) }
{
    for place in freed {
        edits.push(zeroed(*place))?;
    }
    Ok(())
}

/// What a change writes: the format 4, the format 5s, the records of the data set that is put, and zeros over what is given back.
pub(crate) fn edits_with(
    alloc: Global,
    four: Placed,
    fives: &[Placed],
    set: Option<SetWritten>,
    freed: &[Place],
) -> Result<Listed<Placed>, NoMemory>
    ensures { IfOk result (λ edits. edits ≡ four ∷ (fives.now ++ (records_put set ++ map zeroed_in freed.now))) }
{
    let mut edits = Listed::new(alloc);
    edits.push(four)?;
    add(&mut edits, fives)?;
    add_set(&mut edits, set)?;
    add_freed(&mut edits, freed)?;
    Ok(edits)
}
