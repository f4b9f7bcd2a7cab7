//! The label of a unit.

ghost use Rattle.std.specs.Prelude.{◌≤◌, length, IfOk, IfErr};
ghost use Rattle.unit_load.specs.Stops.{IsLabelIn, IsLabelStop, IsMemory, StopsBy};

use crate::stop::{Stop, UnitFault};
use ckd_image::{CkdFault, Head, Track, TrackAt, parse_track};
use std::alloc::Global;
use vol_label::{Label, LabelFault};
use volume_model::Why;

/// The label that the slot of track 0 says.
pub(crate) fn label_in(alloc: Global, head: Head, slot: &[u8]) -> Result<Label, Stop>
    requires { length slot.now ≤ 65536 }
    ensures label { IfOk result (IsLabelIn head slot.now) }
    ensures stop { IfErr result (IsLabelStop head slot.now) }
    ensures memory { IfErr result (StopsBy IsMemory) }
{
    let at = TrackAt {
        cylinder: 0,
        head: 0,
    };
    let track = match parse_track(alloc, head.device, at, slot) {
        Ok(track) => track,
        Err(CkdFault::NoMemory) => return Err(Stop::Fault(UnitFault::NoMemory)),
        Err(_) => return Err(Stop::Offline(Why::Label(1))),
    };
    match Label::read(&track, head) {
        Ok(label) => Ok(label),
        Err(LabelFault::BadLabel(why)) => Err(Stop::Offline(Why::Label(why))),
    }
}
