//! One change of a VTOC.

ghost use Rattle.std.specs.Prelude.{◌≡◌, false, IfOk, IfErr};
ghost use Rattle.vtoc_render.specs.Change.{IsChangeWritten};
ghost use Rattle.vtoc_render.specs.Loads.{LoadsFrom, OfEachVtoc};
ghost use Rattle.vtoc_render.specs.Next.{MayChange, IsNext, IsChangeFault};
ghost use Rattle.vtoc_render.specs.Render.{LoadsAfter};

use crate::aim::aim_of;
use crate::mark::marked;
use crate::put::put_in;
use std::alloc::Global;
use volume_change::Change;
use vtoc_check::VtocFault;
use vtoc_core::Volume;
use vtoc_write::Blocks;

/// The tracks of a VTOC that a change makes other, and the volume after it.
#[derive(Drop)]
pub struct Rendered {
    pub blocks: Blocks,
    pub next: Volume,
}

/// One change of a volume's VTOC: the tracks that it makes other, each as it is to be written, and the volume after it.
///
/// `slots` are those of the VTOC's tracks, one after the other.
pub fn render(
    alloc: Global,
    volume: &Volume,
    slots: &[u8],
    change: &Change,
) -> Result<Rendered, VtocFault>
    requires loads { LoadsFrom volume.now slots.now }
    requires may { MayChange volume.now change.now }
    ensures next { IfOk result (λ rendered. IsNext volume.now change.now rendered.next) }
    ensures loads { IfOk result (LoadsAfter volume.now slots.now change.now) }
    ensures fault { IfErr result (IsChangeFault volume.now change.now) }
    ensures written { IfOk result (λ rendered. OfEachVtoc volume.now slots.now (IsChangeWritten volume.now slots.now change.now rendered)) }
    ensures unindexed { IfOk result (λ rendered. volume.now.indexed ≡ false) }
{
    if volume.indexed {
        return Err(VtocFault::Indexed);
    }
    match aim_of(change) {
        Some(aim) => put_in(alloc, volume, slots, aim),
        None => Ok(marked(alloc, volume, slots)?),
    }
}
