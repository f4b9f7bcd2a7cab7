//! Blocks on tracks: each on the current one where it fits, and else on the next.

ghost use Rattle.std.specs.Prelude.{◌≡◌, ◌↔◌, ◌+◌, ◌<◌, ◌≤◌, [], ◌∷◌, ◌++◌, length, map, replicate, if◌then◌else◌, All, IsTrue, IfOk, IfErr, OnOk};
ghost use Rattle.std.specs.Bool.{OnTrue, OnFalse};
ghost use Rattle.ckd_image.specs.Device.{capacity_of};
ghost use Rattle.org_reloc.specs.Content.{IsBlock};
ghost use Rattle.org_reloc.specs.Packing.{FitsAlone, track_of};
ghost use Rattle.org_reloc.specs.Refusal.{IsLengthRefusal, IsLongRefusal, number_of};
ghost use Rattle.org_reloc.specs.Filling.{Filling, ArePlaces, filled_by, filling_of, groups_of, block_cost, LeaveRoom};
ghost use Rattle.org_reloc.specs.declared.fault.Why.TheVariants as whys;

use crate::block::Block;
use crate::fault::{RelocFault, Why};
use crate::place::Place;
use ckd_image::{Device, Listed, NoMemory, Rec, Recs, Track};
use std::alloc::Global;
use std::mem;

/// The last track that a data set may have, counted from 0.
const LAST_TRACK: u16 = 65_534;

/// How far the current track is filled.
#[derive(Clone, Copy, Debug)]
struct Cursor {
    device: Device,
    number: u8,
    room: u32,
}

impl Cursor {
    fn new(device: Device) -> Cursor
        ensures { result ≡ record { device = device; number = 0; room = capacity_of device } }
    {
        Cursor {
            device,
            number: 0,
            room: device.capacity(),
        }
    }

    /// Goes on by a block, and says whether that stands on a new track.
    fn take(&mut self, block: &Block) -> bool
        requires block { IsBlock block.now }
        requires alone { block_cost self.old.device block.now ≤ capacity_of self.old.device }
        requires few { LeaveRoom self.old.device self.old.number self.old.room }
        ensures device { self.new.device ≡ self.old.device }
        ensures few { LeaveRoom self.new.device self.new.number self.new.room }
        ensures opens { IsTrue result ↔ (self.old.room < block_cost self.old.device block.now) }
        ensures stays { OnFalse result ((self.new.number ≡ self.old.number + 1) × (self.new.room + block_cost self.old.device block.now ≡ self.old.room)) }
        ensures opened { OnTrue result ((self.new.number ≡ 1) × (self.new.room + block_cost self.old.device block.now ≡ capacity_of self.old.device)) }
    {
        let cost = block.cost(self.device);
        if cost > self.room {
            self.number = 1;
            self.room = self.device.capacity() - cost;
            return true;
        }
        self.number += 1;
        self.room -= cost;
        false
    }
}

/// Refuses the first block that no track of the device takes.
pub fn check_lengths(device: Device, blocks: &[Block]) -> Result<(), RelocFault>
    requires { All IsBlock blocks.now }
    ensures fit { OnOk result (All (FitsAlone device) blocks.now) }
    ensures refused { IfErr result (IsLengthRefusal device blocks.now) }
{
    for block in blocks {
        if block.cost(device) > device.capacity() {
            return Err(RelocFault::BlockTooLong(block.body.len() as u32, device.largest()));
        }
    }
    Ok(())
}

/// The track of a block that may open a new one.
fn track_behind(track: u16, opens: bool) -> Result<u16, RelocFault>
    ensures next { IfOk result (λ next. (next ≡ (if opens then track + 1 else track)) × (track ≤ 65534 → next ≤ 65534)) }
    ensures refused { IfErr result (λ e. (e ≡ RelocFault.NotRelocatable (number_of whys.Long)) × IsTrue opens × (65534 ≤ track)) }
{
    if !opens {
        return Ok(track);
    }
    if track >= LAST_TRACK {
        return Err(RelocFault::NotRelocatable(Why::Long.number()));
    }
    Ok(track + 1)
}

/// Where each of the blocks stands, unless they take over 65,535 tracks.
pub fn places_of(
    alloc: Global,
    device: Device,
    blocks: &[Block],
) -> Result<Listed<Place>, RelocFault>
    requires blocks { All IsBlock blocks.now }
    requires fit { All (FitsAlone device) blocks.now }
    ensures placed { IfOk result (ArePlaces device blocks.now) }
    ensures few { OnOk result (length (groups_of (filling_of device blocks.now)) ≤ 65535) }
    ensures refused { IfErr result (IsLongRefusal device blocks.now) }
{
    let mut places = Listed::new(alloc);
    let mut cursor = Cursor::new(device);
    let mut track = 0;
    for block in blocks {
        let opens = cursor.take(block);
        track = track_behind(track, opens)?;
        places.push(Place {
            track,
            number: cursor.number,
        })?;
    }
    Ok(places)
}

/// Tracks that are full, the records of the current one, and how far it is filled.
#[derive(Debug, Drop)]
struct Packer {
    tracks: Listed<Track>,
    recs: Recs,
    cursor: Cursor,
}

/// A track of these records. Flag and record 0 are zero.
fn track_with(recs: Recs) -> Track
    ensures { result ≡ record { flag = 0; r0 = replicate 8 0; recs = recs } }
{
    Track {
        flag: 0,
        r0: [0; 8],
        recs,
    }
}

impl Packer {
    ghost use Rattle.org_reloc.specs.Packer.{Shows};

    /// Closes the current track where the next block opens a new one.
    fn close(&mut self, alloc: Global, opens: bool) -> Result<(), NoMemory>
        ensures cursor { self.new.cursor ≡ self.old.cursor }
        ensures kept { OnOk result (OnFalse opens ((self.new.tracks ≡ self.old.tracks) × (self.new.recs ≡ self.old.recs))) }
        ensures closed { OnOk result (OnTrue opens ((self.new.recs ≡ []) × (self.new.tracks ≡ self.old.tracks ++ record { flag = 0; r0 = replicate 8 0; recs = self.old.recs } ∷ []))) }
    {
        if !opens {
            return Ok(());
        }
        let recs = mem::replace(&mut self.recs, Recs::new(alloc));
        self.tracks.push(track_with(recs))?;
        Ok(())
    }

    /// Puts a block on the current track where it fits, and else on the next.
    fn put(&mut self, alloc: Global, block: Block) -> Result<(), NoMemory>
        requires block { IsBlock block }
        requires alone { block_cost self.old.cursor.device block ≤ capacity_of self.old.cursor.device }
        requires few { LeaveRoom self.old.cursor.device self.old.cursor.number self.old.cursor.room }
        ensures few { LeaveRoom self.new.cursor.device self.new.cursor.number self.new.cursor.room }
        ensures device { self.new.cursor.device ≡ self.old.cursor.device }
        ensures put { OnOk result ((filling : Filling) → Shows self.old filling → Shows self.new (filled_by self.old.cursor.device filling block)) }
    {
        let opens = self.cursor.take(&block);
        self.close(alloc, opens)?;
        let Block { key, body } = block;
        self.recs.push(Rec {
            r: self.cursor.number,
            key,
            body,
        })?;
        Ok(())
    }
}

/// The blocks on tracks.
pub fn pack(alloc: Global, device: Device, blocks: Listed<Block>) -> Result<Listed<Track>, NoMemory>
    requires blocks { All IsBlock blocks }
    requires fit { All (FitsAlone device) blocks }
    ensures { IfOk result (λ tracks. tracks ≡ map track_of (groups_of (filling_of device blocks))) }
{
    let mut packer = Packer {
        tracks: Listed::new(alloc),
        recs: Recs::new(alloc),
        cursor: Cursor::new(device),
    };
    for block in blocks.into_vec() {
        packer.put(alloc, block)?;
    }
    let Packer {
        mut tracks,
        recs,
        ..
    } = packer;
    tracks.push(track_with(recs))?;
    Ok(tracks)
}
