//! The rows of a volume once one is put, swapped or taken out.

ghost use Rattle.std.specs.Prelude.{◌≡◌, ◌<◌, ◌≤◌, ◌^◌, ◌++◌, IfOk, OnOk, length};
ghost use Rattle.volume_change.specs.Spot.{behind, AreNamed, Suits, rows_with};

use crate::spot::Spot;
use ckd_image::NoMemory;
use dscb_rec::Extent;
use std::alloc::Global;
use vtoc_core::{Extents, Row, Rows};

/// A copy of extents.
fn copy_extents(alloc: Global, extents: &[Extent]) -> Result<Extents, NoMemory>
    ensures { IfOk result (λ copied. copied ≡ extents.now) }
{
    let mut copied = Vec::new(alloc);
    copied.extend_from_slice(extents)?;
    Ok(Extents::from_vec(copied))
}

/// A copy of a row.
pub fn copy_row(alloc: Global, row: &Row) -> Result<Row, NoMemory>
    ensures { IfOk result (λ copied. copied ≡ row.now) }
{
    Ok(Row {
        name: row.name,
        f1: row.f1,
        extents: copy_extents(alloc, row.extents.as_slice())?,
        threes: row.threes,
    })
}

/// Adds copies of rows.
fn add_rows(alloc: Global, after: &mut Rows, rows: &[Row]) -> Result<(), NoMemory>
    ensures { OnOk result (after.new ≡ after.old ++ rows.now) }
{
    for row in rows {
        after.push(copy_row(alloc, row)?)?;
    }
    Ok(())
}

/// Where the rows behind a spot begin.
fn first_behind(spot: Spot) -> usize
    requires { behind spot < 2 ^ 64 }
    ensures { result ≡ behind spot }
{
    if spot.goes {
        spot.place + 1
    } else {
        spot.place
    }
}

/// The rows before a spot, the one that is put, and those behind the spot.
fn joined_rows(alloc: Global, rows: &[Row], spot: Spot, put: Option<Row>) -> Result<Rows, NoMemory>
    requires { behind spot ≤ length rows.now }
    ensures { IfOk result (λ after. after ≡ rows_with rows.now spot put) }
{
    let mut after = Rows::new(alloc);
    add_rows(alloc, &mut after, &rows[..spot.place])?;
    if let Some(row) = put {
        after.push(row)?;
    }
    add_rows(alloc, &mut after, &rows[first_behind(spot)..])?;
    Ok(after)
}

/// The rows once the one that goes from a spot is away, and another may stand in its place.
pub fn rows_after(
    alloc: Global,
    rows: &[Row],
    spot: Spot,
    put: Option<Row>,
) -> Result<Rows, NoMemory>
    requires { behind spot ≤ length rows.now }
    ensures rows { IfOk result (λ after. after ≡ rows_with rows.now spot put) }
    ensures named { AreNamed rows.now → Suits rows.now spot put → IfOk result AreNamed }
{
    joined_rows(alloc, rows, spot, put)
}
