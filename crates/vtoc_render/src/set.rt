//! The data set that a change puts.

ghost use Rattle.std.specs.Prelude.{◌≡◌, ◌≢◌, ◌≤◌, ◌<◌, None, true, All, IfOk, IfSome, length, is_some};
ghost use Rattle.std.specs.Option.{option_copied};
ghost use Rattle.volume_model.specs.declared.format.Format.TheVariants.{F1};
ghost use Rattle.volume_model.specs.Dscbs.{format_of};
ghost use Rattle.dscb_made.specs.Slots.{IsThere};
ghost use Rattle.vtoc_making.specs.Places.{IsPlace};
ghost use Rattle.vtoc_render.specs.Steps.{wanted_for as wanted_in, IsSetFor, IsRowFor};

use crate::next::row_put;
use crate::space::count_runs;
use ckd_image::NoMemory;
use free_map::FreeMap;
use std::alloc::Global;
use vtoc_allot::{Allotment, Wanted};
use vtoc_core::Row;
use vtoc_making::{SetWritten, fives_for, set_with};

/// What a change wants that puts this data set, or none, and leaves these tracks free.
pub(crate) fn wanted_for(put: Option<&Row>, free: &FreeMap) -> Wanted
    ensures { result ≡ wanted_in (option_copied put.entry) (length free.now.runs) }
{
    let fives = fives_for(count_runs(free));
    match put {
        Some(row) => Wanted {
            one: true,
            three: 3 < row.extents.len(),
            fives,
        },
        None => Wanted {
            one: false,
            three: false,
            fives,
        },
    }
}

/// The records of the data set that is put, if one is, at their places.
pub(crate) fn set_for(heads: u32, put: Option<&Row>, allotment: &Allotment) -> Option<SetWritten>
    requires some_heads { 1 ≤ heads }
    requires few_heads { heads ≤ 255 }
    requires formats { IfSome (option_copied put) (λ row. format_of row.f1 ≡ F1) }
    requires few { IfSome (option_copied put) (λ row. length row.extents ≤ 16) }
    requires there { IfSome (option_copied put) (λ row. All IsThere row.extents) }
    requires one { is_some (option_copied put) ≡ true → allotment.now.one ≢ None }
    requires place { IfSome allotment.now.three IsPlace }
    ensures { IsSetFor heads (option_copied put.entry) allotment.now result }
{
    let row = put?;
    let one = allotment.one?;
    Some(set_with(heads, &row.f1, row.extents.as_slice(), one, allotment.three))
}

/// The row of the data set that is put, if one is, with its format 1 as it is written.
pub(crate) fn row_for(
    alloc: Global,
    heads: u32,
    put: Option<&Row>,
    allotment: &Allotment,
    set: Option<SetWritten>,
) -> Result<Option<Row>, NoMemory>
    requires few { IfSome (option_copied put) (λ row. length row.extents ≤ 16) }
    requires set { IsSetFor heads (option_copied put) allotment.now set }
    ensures { IfOk result (IsRowFor (option_copied put.entry) set) }
{
    let Some(row) = put else {
        return Ok(None);
    };
    let Some(set) = set else {
        return Ok(None);
    };
    Ok(Some(row_put(alloc, row, set.one.bytes)?))
}
