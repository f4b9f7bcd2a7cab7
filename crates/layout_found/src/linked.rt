//! The records that pointers lead to.

ghost use Rattle.std.specs.Prelude.{◌≡◌, ◌≤◌, ◌++◌, List, length, OnOk};
ghost use Rattle.volume_model.specs.declared.place.Placed.{Placed as PlacedOf};
ghost use Rattle.vtoc_layout.specs.Layout.{IsLinked};

use ckd_image::{Listed, NoMemory};
use volume_model::Placed;
use vtoc_check::Directory;

/// Adds the records that pointers lead to from these bytes on, where the last of them has no pointer.
pub fn add_linked(
    found: &mut Listed<Placed>,
    directory: &Directory,
    records: &[Placed],
    bytes: &[u8; 140],
) -> Result<(), NoMemory>
    requires { records.now ≡ directory.now.records.items }
    ensures { OnOk result ((linked : List PlacedOf) → IsLinked directory.now.heads records.now bytes.now linked → length linked ≤ length records.now → found.new ≡ found.old ++ linked) }
{
    let mut at = directory.target(bytes);
    for step in 0..records.len() {
        let Some(index) = at else {
            return Ok(());
        };
        let placed = records[index];
        found.push(placed)?;
        at = directory.target(&placed.bytes);
    }
    Ok(())
}
