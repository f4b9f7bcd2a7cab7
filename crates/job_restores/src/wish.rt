//! What a statement asks of the parts that it restores.

/// What RESTORE says beside its filter, its input, its volume and the new names.
#[derive(Clone, Copy, Debug, PartialEq, Eq)]
pub struct RestoreWish {
    /// Unexpired data sets are replaced too.
    pub purge: bool,
    /// A data set of the new name is replaced.
    pub replace: bool,
}
