//! The format 5s in the order of their chain.

ghost use Rattle.std.specs.Prelude.{◌≡◌, ◌<◌, ◌≤◌, ◌∷◌, ◌++◌, ℕ, List, [], length, filter, IfOk, OnOk, IfSome, IfNone, Some, None, false};
ghost use Rattle.volume_model.specs.Check.{first_five};
ghost use Rattle.volume_model.specs.declared.place.Placed.{Placed as PlacedOf};
ghost use Rattle.vtoc_check.specs.FiveRule.{is_five};
ghost use Rattle.vtoc_check.specs.Pointers.{named};
ghost use Rattle.vtoc_check.specs.Reach.{record_in, is_marked};
ghost use Rattle.vtoc_layout.specs.Layout.{IsLinked};
ghost use Rattle.layout_found.specs.Fives.{IsOfSoundVtoc, AreItsFives};

use crate::linked::add_linked;
use ckd_image::{Listed, NoMemory};
use std::alloc::Global;
use volume_model::Placed;
use vtoc_check::{Directory, first_index, is_format_5, mark_targets};

/// Adds a record, where it is a format 5.
fn add_five(fives: &mut Listed<Placed>, placed: &Placed) -> Result<(), NoMemory>
    ensures { OnOk result (fives.new ≡ fives.old ++ filter is_five (placed.now ∷ [])) }
{
    if is_format_5(placed) {
        fives.push(*placed)?;
    }
    Ok(())
}

/// The format 5s in the order of their places.
fn fives_by_place(alloc: Global, records: &[Placed]) -> Result<Listed<Placed>, NoMemory>
    ensures { IfOk result (λ fives. fives ≡ filter is_five records.now) }
{
    let mut fives = Listed::new(alloc);
    for placed in records {
        add_five(&mut fives, placed)?;
    }
    Ok(fives)
}

/// Where the chain begins. No record has its mark at first.
fn first_by(directory: &Directory, records: &[Placed], targets: &mut [bool]) -> Option<usize>
    requires same { records.now ≡ directory.now.records.items }
    requires targets { (length targets.old ≡ length records.now) × ((k : ℕ) → is_marked targets.old k ≡ false) }
    ensures found { IfSome result (λ k. (k < length records.now) × (first_five (named directory.now.heads records.now) (filter is_five records.now) ≡ Some (record_in records.now k))) }
    ensures none { IfNone result (first_five (named directory.now.heads records.now) (filter is_five records.now) ≡ None) }
{
    mark_targets(directory, targets, records);
    first_index(directory, records, targets)
}

/// Where the chain begins.
fn chain_start(
    alloc: Global,
    directory: &Directory,
    records: &[Placed],
) -> Result<Option<usize>, NoMemory>
    requires { records.now ≡ directory.now.records.items }
    ensures found { IfOk result (λ first. IfSome first (λ k. (k < length records.now)
        × (first_five (named directory.now.heads records.now) (filter is_five records.now) ≡ Some (record_in records.now k)))) }
    ensures none { IfOk result (λ first. IfNone first (first_five (named directory.now.heads records.now) (filter is_five records.now) ≡ None)) }
{
    let mut targets = vec![in alloc; false; records.len()]?;
    Ok(first_by(directory, records, &mut targets))
}

/// A record, and those that pointers lead to from it on, where the last of them has no pointer.
fn with_linked(
    alloc: Global,
    directory: &Directory,
    records: &[Placed],
    first: Placed,
) -> Result<Listed<Placed>, NoMemory>
    requires { records.now ≡ directory.now.records.items }
    ensures { IfOk result (λ fives. (linked : List PlacedOf) → IsLinked directory.now.heads records.now first.bytes linked → length linked ≤ length records.now → fives ≡ first ∷ linked) }
{
    let mut fives = Listed::new(alloc);
    fives.push(first)?;
    add_linked(&mut fives, directory, records, &first.bytes)?;
    Ok(fives)
}

/// The format 5s in order.
fn fives_among(
    alloc: Global,
    directory: &Directory,
    records: &[Placed],
    valid: bool,
) -> Result<Listed<Placed>, NoMemory>
    requires same { records.now ≡ directory.now.records.items }
    requires sound { IsOfSoundVtoc directory.now valid }
    ensures { IfOk result (AreItsFives directory.now.heads records.now valid) }
{
    if !valid {
        return fives_by_place(alloc, records);
    }
    let Some(first) = chain_start(alloc, directory, records)? else {
        return Ok(Listed::new(alloc));
    };
    with_linked(alloc, directory, records, records[first])
}

/// The format 5s of a VTOC that breaks no rule: in the order of their chain where they are valid, and else of their places.
pub fn fives_in_directory(
    alloc: Global,
    directory: &Directory,
    valid: bool,
) -> Result<Listed<Placed>, NoMemory>
    requires { IsOfSoundVtoc directory.now valid }
    ensures { IfOk result (AreItsFives directory.now.heads directory.now.records.items valid) }
{
    fives_among(alloc, directory, directory.records(), valid)
}
