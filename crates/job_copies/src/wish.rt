//! What a statement asks of its copies.

/// What COPY says beside its filter, its volumes and the new names.
#[derive(Clone, Copy, Debug, PartialEq, Eq)]
pub struct Wish {
    /// Each data set is deleted once it is copied.
    pub delete: bool,
    /// Unexpired data sets are deleted and replaced too.
    pub purge: bool,
    /// A data set of the new name is replaced.
    pub replace: bool,
    /// Holds on data sets that are only read are passed over.
    pub tolerate: bool,
}
