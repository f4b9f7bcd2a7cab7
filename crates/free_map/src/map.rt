//! The map of a volume's free tracks.

ghost use Rattle.std.specs.Prelude.{◌≡◌, ℕ, ◌+◌, ◌<◌, ◌≤◌, ◌↔◌, ◌⊎◌, All, IfOk, IfErr, IfSome, IfNone, OnOk, OnErr, map};
ghost use Rattle.free_map.specs.Runs.{HasTrack, InRuns, AreMaximalRuns};
ghost use Rattle.free_map.specs.Free.{IsFree, AreFreeRuns, IsStep, count_of, index_of};
ghost use Rattle.dscb_rec.specs.Field.{IsEntry5};
ghost use Rattle.free_map.specs.Entries.{entry_of};
ghost use Rattle.free_map.specs.Several.{AreChosen, ArePlaces, IsChoiceFault};
ghost use Rattle.free_map.specs.Place.{IsPlace, IsLowestPlace};

use crate::change::{give_run, take_run};
use crate::fault::FreeFault;
use crate::places::lowest_place;
use crate::run::{Run, Runs};
use crate::several::several_places;
use crate::sums::{count, entries, index};
use crate::unused::unused_runs;
use ckd_image::NoMemory;
use dscb_rec::Entry5;
use std::alloc::Global;
use std::marker::Model;

/// The tracks below `usable` that are free, of a volume whose cylinders have `heads` tracks.
/// Contracts see the set of them, as its maximal runs in ascending order.
#[derive(Debug, Drop)]
pub struct FreeMap {
    usable: u32,
    heads: u32,
    runs: Vec<Run>,
}

impl Model for FreeMap {
    ghost use Rattle.free_map.specs.Free.{Free, AreFreeRuns};

    ghost Value = { Free };

    ghost view = { λ map. record { usable = map.usable; heads = map.heads; runs = map.runs.items } };

    ghost invariant = { λ map. AreFreeRuns map.usable map.heads map.runs.items };
}

impl FreeMap {
    /// The tracks that no used run holds. Used runs may overlap, touch and be empty, in any order.
    pub fn from_used(
        alloc: Global,
        usable: u32,
        heads: u32,
        used: &[Run],
    ) -> Result<FreeMap, FreeFault>
        requires tracks { usable ≤ 65535 }
        requires some_heads { 1 ≤ heads }
        requires few_heads { heads ≤ 255 }
        requires within { All (λ run. run.first + run.len ≤ usable) used.now }
        ensures free { IfOk result (λ map. (track : ℕ) → IsFree map track ↔ ((track < usable) × ¬ InRuns used.now track)) }
        ensures sizes { IfOk result (λ map. (map.usable ≡ usable) × (map.heads ≡ heads)) }
        ensures memory { IfErr result (λ fault. fault ≡ FreeFault.NoMemory) }
    {
        let runs = unused_runs(alloc, usable, used)?;
        Ok(FreeMap {
            usable,
            heads,
            runs,
        })
    }

    /// The maximal runs of the free tracks, in ascending order.
    pub fn runs(&self) -> &[Run]
        ensures runs { result.now ≡ self.now.runs }
        ensures maximal { AreMaximalRuns (IsFree self.now) result.now }
        ensures kept { AreFreeRuns self.now.usable self.now.heads self.now.runs }
    {
        self.runs.as_slice()
    }

    /// The lowest track from which the need, in whole steps, is free.
    pub fn first_fit(&self, need: u32, step: u32) -> Option<u32>
        requires need { 1 ≤ need }
        requires step { IsStep self.now step }
        ensures found { IfSome result (IsLowestPlace (IsFree self.now) need step) }
        ensures none { IfNone result ((start : ℕ) → ¬ IsPlace (IsFree self.now) need step start) }
    {
        lowest_place(self.runs.as_slice(), need, step)
    }

    /// Runs of free tracks for a need in whole steps: the lowest that holds it all, or else the longest ones.
    pub fn several(&self, need: u32, step: u32) -> Result<Runs, FreeFault>
        requires step { IsStep self.now step }
        ensures chosen { IfOk result (AreChosen self.now.runs need step) }
        ensures places { IfOk result (ArePlaces (IsFree self.now) need step) }
        ensures refused { IfErr result (IsChoiceFault self.now.runs need step) }
    {
        several_places(*self.runs.allocator(), self.runs.as_slice(), need, step)
    }

    /// Takes a run of free tracks. On `Err` the map is unchanged.
    pub fn take(&mut self, run: Run) -> Result<(), FreeFault>
        requires some { 1 ≤ run.len }
        requires free { (track : ℕ) → HasTrack run track → IsFree self.old track }
        ensures taken { OnOk result ((track : ℕ) → IsFree self.new track ↔ (IsFree self.old track × ¬ HasTrack run track)) }
        ensures same { OnErr result (self.new ≡ self.old) }
        ensures sizes { (self.new.usable ≡ self.old.usable) × (self.new.heads ≡ self.old.heads) }
        ensures memory { IfErr result (λ fault. fault ≡ FreeFault.NoMemory) }
    {
        take_run(&mut self.runs, run)?;
        Ok(())
    }

    /// Gives back a run of tracks of which none is free. On `Err` the map is unchanged.
    pub fn give(&mut self, run: Run) -> Result<(), FreeFault>
        requires some { 1 ≤ run.len }
        requires within { run.first + run.len ≤ self.old.usable }
        requires used { (track : ℕ) → HasTrack run track → ¬ IsFree self.old track }
        ensures given { OnOk result ((track : ℕ) → IsFree self.new track ↔ (IsFree self.old track ⊎ HasTrack run track)) }
        ensures same { OnErr result (self.new ≡ self.old) }
        ensures sizes { (self.new.usable ≡ self.old.usable) × (self.new.heads ≡ self.old.heads) }
        ensures memory { IfErr result (λ fault. fault ≡ FreeFault.NoMemory) }
    {
        give_run(&mut self.runs, run)?;
        Ok(())
    }

    /// The entries that tell the free tracks: one for each maximal run, in ascending order.
    pub fn entries5(&self) -> Result<Vec<Entry5>, FreeFault>
        ensures told { IfOk result (λ entries. entries.items ≡ map (entry_of self.now.heads) self.now.runs) }
        ensures fits { IfOk result (λ entries. All IsEntry5 entries.items) }
        ensures memory { IfErr result (λ fault. fault ≡ FreeFault.NoMemory) }
    {
        Ok(entries(*self.runs.allocator(), self.runs.as_slice(), self.heads)?)
    }

    /// How many tracks are free.
    pub fn count(&self) -> u32
        ensures { result ≡ count_of self.now.runs }
    {
        count(self.runs.as_slice())
    }

    /// The fragmentation index, in thousandths: 0 where all free tracks are in one run, or none is free.
    pub fn index(&self) -> u32
        ensures { result ≡ index_of self.now.runs }
    {
        index(self.runs.as_slice())
    }
}

/// The tracks below the end that no run holds; it is refused for want of memory alone.
pub fn unused_tracks(
    alloc: Global,
    usable: u32,
    heads: u32,
    runs: &[Run],
) -> Result<FreeMap, NoMemory>
    requires small { usable ≤ 65535 }
    requires some_heads { 1 ≤ heads }
    requires few_heads { heads ≤ 255 }
    requires within { All (λ run. run.first + run.len ≤ usable) runs.now }
    ensures sizes { IfOk result (λ map. (map.usable ≡ usable) × (map.heads ≡ heads)) }
    ensures unused { IfOk result (λ map. AreMaximalRuns (λ track. (track < usable) × ¬ InRuns runs.now track) map.runs) }
{
    match FreeMap::from_used(alloc, usable, heads, runs) {
        Ok(map) => Ok(map),
        Err(_) => Err(NoMemory),
    }
}
