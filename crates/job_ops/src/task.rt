//! What a statement does with each data set that its filter takes.

ghost use Rattle.std.specs.Prelude.{◌≡◌};
ghost use Rattle.job_ops.specs.Task.{severity_for};

use job_lines::{Reason, Severity};

/// What is done with a data set: its unused tracks are given back, or its extents become one.
#[derive(Clone, Copy, Debug, PartialEq, Eq)]
pub(crate) enum Task {
    Release,
    Consolidate,
}

impl Task {
    /// How grave it is that a data set isn't processed.
    pub(crate) fn severity(self, reason: Reason) -> Severity
        ensures { result ≡ severity_for self reason }
    {
        match (self, reason) {
            (Task::Consolidate, Reason::Pinned | Reason::Held) => Severity::Warning,
            _ => Severity::Error,
        }
    }
}
