//! What holds of units whose VTOC is loaded and changed, whatever does it.

ghost use Rattle.unit_change.specs.Described.{LoadedUnitsAreOnline, RefusedUnitsAreOffline, FreeTracksAreUnused};
ghost use Rattle.unit_change.specs.Changed.{RenderedUnitsStand, OnlineUnitsLoad};

/// A unit from which a volume was loaded is that volume, a refused one is offline for that reason, and free tracks hold nothing.
pub fn loaded_laws()
    ensures online { LoadedUnitsAreOnline }
    ensures offline { RefusedUnitsAreOffline }
    ensures unused { FreeTracksAreUnused }
{}

/// Where the tracks of a rendered change are written, the unit is the volume after that change.
pub fn changed_laws()
    ensures loads { OnlineUnitsLoad }
    ensures changed { RenderedUnitsStand }
{}
