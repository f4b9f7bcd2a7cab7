//! The data set name that a row has.

ghost use Rattle.std.specs.Prelude.{IfSome, IfNone};
ghost use Rattle.dsn_filter.specs.declared.dsn.Dsn.{Dsn as DsnOf};
ghost use Rattle.dsn_filter.specs.Dsn.{IsDsn};
ghost use Rattle.volume_model.specs.Pinned.{IsNameOf};

use dsn_filter::Dsn;
use vtoc_core::{Row, dsn_of};

/// The data set name that stands in a row, if its 44 bytes are one.
pub fn name_of(row: &Row) -> Option<Dsn>
    ensures found { IfSome result (λ name. IsDsn name × IsNameOf name row.now.name) }
    ensures none { IfNone result ((name : DsnOf) → IsDsn name → ¬ IsNameOf name row.now.name) }
{
    dsn_of(&row.name)
}
