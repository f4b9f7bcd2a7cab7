//! What holds of a VTOC that breaks no rule.

ghost use Rattle.vtoc_load.specs.Chained.{ChainsAreApart};
ghost use Rattle.vtoc_load.specs.Counted.{RecordsAreCounted};

/// Each format 3 stands in the chain of one data set.
pub fn chain_laws()
    ensures apart { ChainsAreApart }
{}

/// Each record is free, the format 4, a format 5, or of a row.
pub fn count_laws()
    ensures counted { RecordsAreCounted }
{}
