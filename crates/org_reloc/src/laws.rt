//! What holds of refits whatever makes them.

ghost use Rattle.org_reloc.specs.RefitLaws.{OneSequentialRefit, SequentialRefitIsNotRefused, OneSequentialRefusal, OnePartitionedRefit, PartitionedRefitIsNotRefused, OnePartitionedRefusal};

/// A sequential data set has at most one refit to a device, and at most one refusal but for want of memory. Where it has a refit of no more
/// tracks than a data set may have, it has no such refusal.
pub fn sequential_laws()
    ensures one_refit { OneSequentialRefit }
    ensures not_refused { SequentialRefitIsNotRefused }
    ensures one_refusal { OneSequentialRefusal }
{}

/// A partitioned data set has at most one refit to a device, and at most one refusal but for want of memory. Where it has a refit of no more
/// tracks than a data set may have, it has no such refusal.
pub fn partitioned_laws()
    ensures one_refit { OnePartitionedRefit }
    ensures not_refused { PartitionedRefitIsNotRefused }
    ensures one_refusal { OnePartitionedRefusal }
{}
