//! The changes of a volume's VTOC.

use dsn_filter::Dsn;
use vtoc_core::Row;

/// One change of a volume's VTOC.
#[derive(Debug, Drop)]
pub enum Change {
    /// The free space is stated anew.
    Repair,
    /// A data set is added.
    Put(Row),
    /// A data set stands in the place of that of the name.
    Swap(Dsn, Row),
    /// The data set of the name is taken out.
    Remove(Dsn),
    /// A change was interrupted. Nothing else is changed.
    Mark,
}
