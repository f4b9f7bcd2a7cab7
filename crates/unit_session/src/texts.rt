//! Whether the tracks of a data set have texts.

ghost use Rattle.std.specs.Prelude.{◌≡◌, ◌↔◌, ◌<◌, ◌≤◌, ℕ, [], None, Some, List, IsTrue, IfOk, IfErr, IsErr, All, Contains, length, slice_get};
ghost use Rattle.ckd_image.specs.Device.{heads_of};
ghost use Rattle.dasd_pool.specs.Count.{Rose};
ghost use Rattle.dasd_pool.specs.Disk.{Runs, none};
ghost use Rattle.redo_core.specs.Reading.{journal_of};
ghost use Rattle.volume_model.specs.Pinned.{IsNameOf};
ghost use Rattle.volume_model.specs.Unit.{DataSet, OnlineVolume, UnitModel, online};
ghost use Rattle.vtoc_core.specs.declared.volume.Volume.{Volume as VolumeOf};
ghost use Rattle.volume_change.specs.Spot.{AreNamed};
ghost use Rattle.move_core.specs.Facts.{Facts, shown};
ghost use Rattle.move_core.specs.Runs.{IsRun};
ghost use Rattle.move_core.specs.Stands.{IsGood, IsSettled};
ghost use Rattle.unit_load.specs.Reads.{OnlyReads};
ghost use Rattle.unit_steps.specs.Plans.{IsLoadedAt};
ghost use Rattle.unit_session.specs.Copies.{HasSource, contents_of};
ghost use Rattle.unit_session.specs.Sessions.{IsSameSession};
ghost use Rattle.unit_session.specs.Texts.{HasTextOn, AreTextsOf, AreTracksAt};

use crate::copies::{Source, tracks_of, volume_at};
use crate::session::Session;
use ckd_image::{Device, NoMemory, TrackAt, readdress};
use dasd_pool::{Pool, PoolFault};
use dsn_filter::Dsn;
use redo_core::Journal;
use std::alloc::{AllocError, Global};
use unit_load::{UnitFault, UnitState};
use volume_change::find;

/// The tracks of a data set, and the device that they are on.
#[derive(Drop)]
struct SetTracks {
    device: Device,
    tracks: Vec<u32>,
}

/// The tracks of a data set that was loaded.
fn tracks_at(
    alloc: Global,
    units: &[UnitState],
    unit: u32,
    name: &Dsn,
) -> Result<SetTracks, NoMemory>
    requires source { HasSource units.now unit name.now }
    requires named { (unit : ℕ) (volume : VolumeOf) → IsLoadedAt units.now unit volume → AreNamed volume.rows }
    ensures { IfOk result (λ found. AreTracksAt units.now unit name.now found.device found.tracks.items) }
{
    let Some(volume) = volume_at(units, unit) else {
        unreachable!()
    };
    let Some(place) = find(volume, name) else {
        unreachable!()
    };
    let device = volume.device;
    let tracks = tracks_of(alloc, device, &volume.rows.as_slice()[place])?;
    Ok(SetTracks { device, tracks })
}

/// Room for a slot of so many bytes.
fn slot_of_size(alloc: Global, size: u32) -> Result<Vec<u8>, AllocError>
    ensures { IfOk result (λ slot. length slot.items ≡ size) }
{
    vec![in alloc; 0u8; size as usize]
}

/// Whether a track has a text.
fn has_text<P: Pool>(
    journal: &mut Journal<P>,
    device: Device,
    unit: u32,
    track: u32,
    slot: &mut [u8],
) -> Result<bool, PoolFault>
    requires unit { unit < journal_of (P.shape journal.old.pool) }
    requires track { track < (P.shape journal.old.pool).blocks unit }
    requires few { (P.shape journal.old.pool).blocks unit ≤ 65535 }
    requires size { length slot.old ≡ (P.shape journal.old.pool).block_size unit }
    requires short { length slot.old ≤ 65536 }
    ensures reads { OnlyReads P.Pool journal.old journal.new }
    ensures text { P.tells → IfOk result (λ good. IsTrue good ↔ HasTextOn (heads_of device) (contents_of P.Pool journal.old unit) track) }
    ensures cause { IsErr result → Rose (P.faults journal.old.pool) (P.faults journal.new.pool) }
{
    journal.read(unit, track, slot)?;
    let at = TrackAt::of(track, device.heads());
    let good = readdress(device, at, at, slot);
    Ok(good)
}

/// Whether each of some tracks has one.
fn have_texts<P: Pool>(
    journal: &mut Journal<P>,
    unit: u32,
    set: &SetTracks,
    slot: &mut [u8],
) -> Result<bool, PoolFault>
    requires unit { unit < journal_of (P.shape journal.old.pool) }
    requires tracks { All (λ track. track < (P.shape journal.old.pool).blocks unit) set.now.tracks.items }
    requires few { (P.shape journal.old.pool).blocks unit ≤ 65535 }
    requires size { length slot.old ≡ (P.shape journal.old.pool).block_size unit }
    requires short { length slot.old ≤ 65536 }
    ensures reads { OnlyReads P.Pool journal.old journal.new }
    ensures texts { P.tells → IfOk result (λ good. IsTrue good ↔ All (HasTextOn (heads_of set.now.device) (contents_of P.Pool journal.old unit)) set.now.tracks.items) }
    ensures cause { IsErr result → Rose (P.faults journal.old.pool) (P.faults journal.new.pool) }
{
    for track in &set.tracks {
        let good = has_text(journal, set.device, unit, *track, slot)?;
        if !good {
            return Ok(false);
        }
    }
    Ok(true)
}

impl<P: Pool> Session<P> {
    /// Whether each track of a data set has a text. Its tracks are read in order, each once, up to the first without one, and nothing is written.
    pub fn has_texts(&mut self, unit: u32, name: &Dsn) -> Result<bool, UnitFault>
        requires { HasSource self.old.units unit name.now }
        ensures texts { P.tells → IfOk result (λ good. (facts : Facts) (models : List UnitModel) (volume : OnlineVolume) (set : DataSet) → facts.shape ≡ P.shape self.old.pool
            → IsSettled facts (P.disk self.old.pool).state models → slice_get models unit ≡ Some (online volume) → Contains volume.sets set → IsNameOf name.now set.name
            → (IsTrue good ↔ All IsGood set.texts)) }
        ensures run { IsRun P.tells (shown P.Pool self.old.pool) (shown P.Pool self.new.pool) (Unit {0}) [] None }
        ensures writes { P.tells → Runs none (P.disk self.old.pool) (P.disk self.new.pool) }
        ensures same { IsSameSession P.Pool self.old self.new }
        ensures cause { IfErr result (λ fault. fault ≡ UnitFault.Pool → Rose (P.faults self.old.pool) (P.faults self.new.pool)) }
    {
        let Ok(set) = tracks_at(self.alloc, &self.units, unit, name) else {
            return Err(UnitFault::NoMemory);
        };
        let Ok(mut slot) = slot_of_size(self.alloc, self.journal.block_size(unit)) else {
            return Err(UnitFault::NoMemory);
        };
        self.journal.rests();
        match have_texts(&mut self.journal, unit, &set, &mut slot) {
            Ok(true) => {
                self.seen = Some(Source { unit, name: *name });
                Ok(true)
            }
            Ok(false) => Ok(false),
            Err(_) => Err(UnitFault::Pool),
        }
    }

    /// What stands on the tracks of data sets.
    pub fn texts(&self)
        ensures { P.tells → (facts : Facts) (models : List UnitModel) → facts.shape ≡ P.shape self.now.pool → IsSettled facts (P.disk self.now.pool).state models
            → AreTextsOf self.now.units models (P.disk self.now.pool).state.contents }
    {
        self.journal.rests();
    }
}
