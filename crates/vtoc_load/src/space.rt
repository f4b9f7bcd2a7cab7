//! The usable tracks of a volume, and the free ones.

ghost use Rattle.std.specs.Prelude.{◌≡◌, ◌<◌, [], IfOk};
ghost use Rattle.volume_model.specs.Check.{records_of, bad_free};
ghost use Rattle.vtoc_check.specs.Sized.{IsSized};
ghost use Rattle.vtoc_load.specs.LoadedVtoc.{IsSpaceOf};

use ckd_image::NoMemory;
use free_map::{FreeMap, unused_tracks};
use std::alloc::Global;
use volume_model::{Placed, Vtoc};
use vtoc_check::{all_entries, all_extents, usable_tracks, used_runs};

/// So many usable tracks, and the free ones among them.
#[derive(Debug, Drop)]
pub(crate) struct Space {
    pub usable: u32,
    pub free: FreeMap,
}

/// The space of a volume whose free tracks, where they are stated, are stated rightly.
pub(crate) fn space_of(alloc: Global, vtoc: &Vtoc, records: &[Placed]) -> Result<Space, NoMemory>
    requires records { records.now ≡ records_of vtoc.now }
    requires sized { IsSized vtoc.now }
    requires stated { bad_free vtoc.now ≡ [] }
    ensures { IfOk result (λ space. IsSpaceOf vtoc.now space.usable space.free) }
{
    let extents = all_extents(alloc, records, vtoc.heads, vtoc.limit)?;
    let entries = all_entries(alloc, records, vtoc.heads)?;
    let usable = usable_tracks(vtoc, &extents, &entries);
    let used = used_runs(alloc, vtoc.run, &extents)?;
    let free = unused_tracks(alloc, usable, vtoc.heads, &used)?;
    Ok(Space { usable, free })
}
