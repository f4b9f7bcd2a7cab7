//! The rule on the chain of format 5s, whole.

ghost use Rattle.std.specs.Prelude.{◌≡◌, ◌<◌, ◌≤◌, ◌&&◌, ◌||◌, not, ℕ, List, length, map, filter, IfOk, IfSome, IfNone, Some, None, false, replicate};
ghost use Rattle.volume_model.specs.declared.rule.VtocRule.TheVariants as rules;
ghost use Rattle.volume_model.specs.Check.{breach, same_target, first_of, first_five, off_chain, points, is_among, IsLowestOf, records_of, bad_fives};
ghost use Rattle.vtoc_check.specs.Pointers.{named};
ghost use Rattle.vtoc_check.specs.Reach.{record_in, is_marked};
ghost use Rattle.volume_model.specs.declared.place.Placed.{Placed};
ghost use Rattle.vtoc_check.specs.FiveChains.{AreAmong, record_if};
ghost use Rattle.vtoc_check.specs.FiveRule.{AreNamed, is_five, is_front};

use crate::directory::Directory;
use crate::fives::walk;
use crate::lowest::{add_if, lower};
use ckd_image::NoMemory;
use std::alloc::Global;
use volume_model::{Breach, Format, Placed, Vtoc, VtocRule};

/// Whether a record is a format 5.
pub fn is_format_5(placed: &Placed) -> bool
    ensures { result ≡ is_five placed.now }
{
    matches!(Format::of(&placed.bytes), Format::F5)
}

/// Marks the record that a format 5 names.
fn mark_target(directory: &Directory, marks: &mut [bool], placed: &Placed)
    requires { length marks.old ≡ length directory.now.records.items }
    ensures long { length marks.new ≡ length marks.old }
    ensures marked { (k : ℕ) → k < length directory.now.records.items → is_marked marks.new k
        ≡ (is_marked marks.old k || (is_five placed.now && same_target (named directory.now.heads directory.now.records.items placed.now) (Some (record_in directory.now.records.items k)))) }
{
    if !is_format_5(placed) {
        return;
    }
    let Some(index) = directory.target(&placed.bytes) else {
        return;
    };
    marks[index] = true;
}

/// Marks the records that format 5s among these name.
pub fn mark_targets(directory: &Directory, marks: &mut [bool], records: &[Placed])
    requires long { length marks.old ≡ length directory.now.records.items }
    requires none { (k : ℕ) → is_marked marks.old k ≡ false }
    ensures { AreNamed directory.now.heads directory.now.records.items records.now marks.new }
{
    for placed in records {
        mark_target(directory, marks, placed);
    }
}

fn is_front_five(placed: &Placed, marked: bool) -> bool
    ensures { result ≡ (is_five placed.now && not marked) }
{
    is_format_5(placed) && !marked
}

/// The first format 5 that no format 5 names.
pub fn front_five(directory: &Directory, records: &[Placed], marks: &[bool]) -> Option<usize>
    requires { AreNamed directory.now.heads records.now records.now marks.now }
    ensures found { IfSome result (λ k. (k < length records.now) × (first_of (filter (is_front directory.now.heads records.now) records.now) ≡ Some (record_in records.now k))) }
    ensures none { IfNone result (first_of (filter (is_front directory.now.heads records.now) records.now) ≡ None) }
{
    for (index, placed) in records.iter().enumerate() {
        if is_front_five(placed, marks[index]) {
            return Some(index);
        }
    }
    None
}

/// The first format 5.
pub fn any_five(records: &[Placed]) -> Option<usize>
    ensures found { IfSome result (λ k. (k < length records.now) × (first_of (filter is_five records.now) ≡ Some (record_in records.now k))) }
    ensures none { IfNone result (first_of (filter is_five records.now) ≡ None) }
{
    for (index, placed) in records.iter().enumerate() {
        if is_format_5(placed) {
            return Some(index);
        }
    }
    None
}

/// Where the chain of format 5s begins.
pub fn first_index(directory: &Directory, records: &[Placed], marks: &[bool]) -> Option<usize>
    requires { AreNamed directory.now.heads records.now records.now marks.now }
    ensures found { IfSome result (λ k. (k < length records.now) × (first_five (named directory.now.heads records.now) (filter is_five records.now) ≡ Some (record_in records.now k))) }
    ensures none { IfNone result (first_five (named directory.now.heads records.now) (filter is_five records.now) ≡ None) }
{
    match front_five(directory, records, marks) {
        Some(index) => Some(index),
        None => any_five(records),
    }
}

/// How many of the records are format 5s.
pub fn count_fives(records: &[Placed]) -> usize
    ensures value { result ≡ length (filter is_five records.now) }
    ensures most { result ≤ length records.now }
{
    let mut count = 0;
    for placed in records {
        count += usize::from(is_format_5(placed));
    }
    count
}

/// The breach of the record that ends the chain wrongly.
fn told_at(records: &[Placed], told: Option<usize>) -> Option<Breach>
    requires { IfSome told (λ k. k < length records.now) }
    ensures { IsLowestOf (map (breach rules.Pointer) (record_if records.now told)) result }
{
    let Some(index) = told else {
        return None;
    };
    add_if(None, true, records[index].place, VtocRule::Pointer)
}

/// The lowest format 5 without its mark.
fn off_marks(records: &[Placed], marks: &[bool]) -> Option<Breach>
    requires { length marks.now ≡ length records.now }
    ensures { (found : List Placed) → AreAmong records.now found marks.now
        → IsLowestOf (map (breach rules.Pointer) (filter (λ five. not (is_among found five)) (filter is_five records.now))) result }
{
    let mut told = None;
    for (index, placed) in records.iter().enumerate() {
        told = add_if(
            told,
            is_front_five(placed, marks[index]),
            placed.place,
            VtocRule::Pointer,
        );
    }
    told
}

/// The lowest format 5 off the chain, or with a pointer that leads nowhere or back. Both lists of marks are empty at first.
pub fn broken_five(
    directory: &Directory,
    records: &[Placed],
    targets: &mut [bool],
    chain: &mut [bool],
) -> Option<Breach>
    requires same { records.now ≡ directory.now.records.items }
    requires targets { (length targets.old ≡ length records.now) × ((k : ℕ) → is_marked targets.old k ≡ false) }
    requires chain { (length chain.old ≡ length records.now) × ((k : ℕ) → is_marked chain.old k ≡ false) }
    ensures { IsLowestOf (map (breach rules.Pointer) (off_chain points (named directory.now.heads records.now) (filter is_five records.now))) result }
{
    mark_targets(directory, targets, records);
    let Some(first) = first_index(directory, records, targets) else {
        return None;
    };
    let told = walk(directory, chain, first, count_fives(records));
    lower(told_at(records, told), off_marks(records, chain))
}

/// So many records without a mark.
fn unmarked(alloc: Global, count: usize) -> Result<Vec<bool>, NoMemory>
    ensures { IfOk result (λ marks. marks.items ≡ replicate count false) }
{
    Ok(vec![in alloc; false; count]?)
}

/// The lowest record that breaks the rule on the chain of format 5s, where format 5 is valid.
pub fn broken_fives(
    alloc: Global,
    vtoc: &Vtoc,
    directory: &Directory,
    records: &[Placed],
) -> Result<Option<Breach>, NoMemory>
    requires records { records.now ≡ records_of vtoc.now }
    requires directory { directory.now.records.items ≡ records_of vtoc.now }
    requires heads { directory.now.heads ≡ vtoc.now.heads }
    ensures { IfOk result (IsLowestOf (bad_fives vtoc.now)) }
{
    if !vtoc.valid {
        return Ok(None);
    }
    let mut targets = unmarked(alloc, records.len())?;
    let mut chain = unmarked(alloc, records.len())?;
    Ok(broken_five(directory, records, &mut targets, &mut chain))
}
