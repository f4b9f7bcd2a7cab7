//! What a unit is.

ghost use Rattle.std.specs.Prelude.{◌≡◌};
ghost use Rattle.unit_load.specs.State.{is_filling_now, is_sliding_now};

use ckd_image::Bytes;
use volume_model::Why;
use vtoc_core::Volume;

/// A unit: the volume on it, or why it is offline.
#[derive(Debug, Drop)]
pub enum UnitState {
    Online(Volume),
    Offline(Why),
}

/// A unit as it was read, and the slots of its VTOC's tracks one after the other. Of an offline unit there are none.
#[derive(Debug, Drop)]
pub struct LoadedUnit {
    pub state: UnitState,
    pub slots: Bytes,
}

/// What is under way on a unit.
#[derive(Clone, Copy, Debug, PartialEq, Eq)]
pub enum UnderWay {
    /// Neither a fill nor a slide is open on it.
    Nothing,
    /// A restore of the whole volume began and did not end.
    Fill,
    /// A move of tracks to lower ones on the volume began and did not end.
    Slide,
}

impl UnderWay {
    /// Whether it is a fill.
    pub(crate) fn is_fill(self) -> bool
        ensures { result ≡ is_filling_now self }
    {
        match self {
            UnderWay::Fill => true,
            UnderWay::Nothing | UnderWay::Slide => false,
        }
    }

    /// Whether it is a slide.
    pub(crate) fn is_slide(self) -> bool
        ensures { result ≡ is_sliding_now self }
    {
        match self {
            UnderWay::Slide => true,
            UnderWay::Nothing | UnderWay::Fill => false,
        }
    }
}
