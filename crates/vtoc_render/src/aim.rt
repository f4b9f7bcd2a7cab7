//! The data set that a change is of.

ghost use Rattle.std.specs.Prelude.{◌≡◌, IfSome, IfNone};
ghost use Rattle.std.specs.Option.{option_copied};
ghost use Rattle.dsn_filter.specs.Dsn.{IsDsn};
ghost use Rattle.volume_change.specs.declared.change.Change.TheVariants.{Mark, Remove};
ghost use Rattle.dsn_filter.specs.declared.dsn.Dsn.{Dsn};
ghost use Rattle.volume_change.specs.Spot.{AreNamed};
ghost use Rattle.vtoc_render.specs.Steps.{gone_from as gone_in, IsAimOf, IsSpotFor};

use volume_change::{Change, Spot, name_bytes, spot_of};
use vtoc_core::Row;

/// The name of the data set that a change is of, if it is of one, and the row that is put, if one is.
#[derive(Clone, Copy)]
pub(crate) struct Aim<'a> {
    pub name: Option<[u8; 44]>,
    pub put: Option<&'a Row>,
}

/// What a change is of, if it is no mark.
pub(crate) fn aim_of(change: &Change) -> Option<Aim<'_>>
    requires { (name : Dsn) → change.now ≡ Remove name → IsDsn name }
    ensures aim { IfSome result (λ aim. IsAimOf change.now aim.name (option_copied aim.put)) }
    ensures mark { IfNone result (change.now ≡ Mark) }
{
    match change {
        Change::Repair => Some(Aim {
            name: None,
            put: None,
        }),
        Change::Put(row) | Change::Swap(_, row) => Some(Aim {
            name: Some(row.name),
            put: Some(row),
        }),
        Change::Remove(name) => Some(Aim {
            name: Some(name_bytes(name)),
            put: None,
        }),
        Change::Mark => None,
    }
}

/// Where a data set of a name is among rows; without a name nothing goes.
pub(crate) fn spot_for(rows: &[Row], name: Option<[u8; 44]>) -> Spot
    requires { AreNamed rows.now }
    ensures { IsSpotFor rows.now name result }
{
    match name {
        Some(name) => spot_of(rows, &name),
        None => Spot {
            place: 0,
            goes: false,
        },
    }
}

/// The row that goes from a spot, if one does.
pub(crate) fn gone_from(rows: &[Row], spot: Spot) -> Option<&Row>
    ensures { option_copied result ≡ gone_in rows.now spot }
{
    if spot.goes {
        rows.get(spot.place)
    } else {
        None
    }
}
