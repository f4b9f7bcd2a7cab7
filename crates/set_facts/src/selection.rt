//! Which data sets pass a filter.

ghost use Rattle.std.specs.Prelude.{◌↔◌, IsTrue, All};
ghost use Rattle.dsn_filter.specs.Dsn.{IsDsn};
ghost use Rattle.by_rules.specs.Day.{IsToday};
ghost use Rattle.by_rules.specs.Criterion.{Holds};
ghost use Rattle.set_facts.specs.Selection.{IsNamedBy, IsIncluded, Passes, criteria_in};

use by_rules::{Criteria, Day, RowFacts};
use dsn_filter::{Dsn, Pattern};

/// Whether some pattern stands for a name.
fn is_named_by(patterns: &[Pattern], name: &Dsn) -> bool
    requires { IsDsn name.now }
    ensures { IsTrue result ↔ IsNamedBy patterns.now name.now }
{
    patterns.iter().any(|pattern| pattern.matches(name))
}

/// Whether some pattern stands for a name, or there is none.
fn is_included(patterns: &[Pattern], name: &Dsn) -> bool
    requires { IsDsn name.now }
    ensures { IsTrue result ↔ IsIncluded patterns.now name.now }
{
    if patterns.is_empty() {
        return true;
    }
    is_named_by(patterns, name)
}

/// Whether each criterion holds.
fn is_met(by: &Option<Criteria>, today: Day, facts: &RowFacts) -> bool
    requires { IsToday today }
    ensures { IsTrue result ↔ All (λ criterion. Holds criterion facts.now today) (criteria_in by.now) }
{
    match by {
        None => true,
        Some(criteria) => criteria.holds(facts, today),
    }
}

/// Whether a name with these facts passes the patterns of INCLUDE and EXCLUDE and the criteria of BY (DFSMSdss Storage Administration,
/// filtering).
pub fn is_selected(
    include: &[Pattern],
    exclude: &[Pattern],
    by: &Option<Criteria>,
    today: Day,
    name: &Dsn,
    facts: &RowFacts,
) -> bool
    requires name { IsDsn name.now }
    requires today { IsToday today }
    ensures { IsTrue result ↔ Passes include.now exclude.now (criteria_in by.now) today name.now facts.now }
{
    if !is_included(include, name) {
        return false;
    }
    if is_named_by(exclude, name) {
        return false;
    }
    is_met(by, today, facts)
}
