//! What holds of tables and their texts whatever reads them.

ghost use Rattle.enq_table.specs.Laws.{OneHold, OneTable, NoFault, OneFault, OneAgainst};

/// A line holds one thing, a text makes one table or has one fault, and one hold is the first against another.
pub fn held_laws()
    ensures hold { OneHold }
    ensures table { OneTable }
    ensures none { NoFault }
    ensures fault { OneFault }
    ensures against { OneAgainst }
{}
