//! What holds of filters whatever reads them.

ghost use Rattle.sysin_filters.specs.Laws.{FiltersAreExact, FiltersEnd, PartsAreOperands};

/// Filters are read exactly, token by token, and a bracket ends one. The parts of filters are operands of any command.
pub fn filter_laws()
    ensures exact { FiltersAreExact }
    ensures ends { FiltersEnd }
    ensures parts { PartsAreOperands }
{}
