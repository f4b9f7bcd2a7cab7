//! What a DUMP asks for.

ghost use Rattle.std.specs.Prelude.{◌≡◌};
ghost use Rattle.job_dumps.specs.Reasons.{changes_sets};

/// What a DUMP asks of each data set that its filter takes.
#[derive(Clone, Copy, Debug, PartialEq, Eq)]
pub struct DumpWish {
    /// Once it is dumped, it counts as that.
    pub reset: bool,
    /// Once it is dumped, it is deleted.
    pub delete: bool,
    /// So is one that is unexpired.
    pub purge: bool,
    /// Holds of data sets that are only read are passed over.
    pub tolerate: bool,
}

impl DumpWish {
    /// Whether data sets are changed that were dumped.
    pub fn changes(self) -> bool
        ensures { result ≡ changes_sets self }
    {
        self.reset || self.delete
    }
}
