//! The criteria of a text.

ghost use Rattle.std.specs.Prelude.{◌≡◌, ◌↔◌, ◌≤◌, List, length, All, IsTrue, IfOk, IfErr};
ghost use Rattle.by_rules.specs.declared.criterion.Criterion.{Criterion};
ghost use Rattle.by_rules.specs.Day.{IsToday};
ghost use Rattle.by_rules.specs.Criterion.{Holds, IsSound};
ghost use Rattle.by_rules.specs.Token.{tokens_of};
ghost use Rattle.by_rules.specs.Grammar.{Spell};
ghost use Rattle.by_rules.specs.Refusal.{IsRefusal};

use crate::criterion::Criterion;
use crate::day::Day;
use crate::fault::ByFault;
use crate::reading::Reading;
use crate::row::RowFacts;
use crate::token::token_at;
use ckd_image::Listed;
use std::alloc::Global;
use std::marker::Model;

/// What BY(..) asks for. Contracts see the list of its criteria.
#[derive(Debug, Drop)]
pub struct Criteria {
    criteria: Listed<Criterion>,
}

impl Model for Criteria {
    ghost use Rattle.std.specs.Prelude.{List, All};
    ghost use Rattle.by_rules.specs.declared.criterion.Criterion.{Criterion};

    ghost Value = { List Criterion };

    ghost use Rattle.by_rules.specs.Criterion.{IsSound};

    ghost view = { λ c. c.criteria };

    ghost invariant = { λ c. All IsSound c.criteria };
}

impl Criteria {
    /// Reads criteria `(KEY,OP,VALUE)`, in capitals and without blanks.
    pub fn read(alloc: Global, text: &[u8]) -> Result<Criteria, ByFault>
        requires { length text.now ≤ 1048576 }

        // What is read is what the text spells.
        ensures read { IfOk result (Spell (tokens_of text.now)) }

        // A refusal has the place of the first token that is wrong.
        ensures refused { IfErr result (IsRefusal text.now) }

        // Where the text spells criteria, they are read, unless memory runs out.
        ensures only { IfErr result (λ e. (criteria : List Criterion) → Spell (tokens_of text.now) criteria → e ≡ ByFault.NoMemory) }
    {
        let criteria = criteria_at(alloc, text)?;
        Ok(Criteria { criteria })
    }

    pub(crate) fn of(criteria: Listed<Criterion>) -> Criteria
        requires { All IsSound criteria }
        ensures { result ≡ criteria }
    {
        Criteria { criteria }
    }

    /// Whether a row satisfies each of the criteria.
    pub fn holds(&self, row: &RowFacts, today: Day) -> bool
        requires { IsToday today }
        ensures { IsTrue result ↔ All (λ criterion. Holds criterion row.now today) self.now }
    {
        for criterion in self.criteria.as_slice() {
            if !criterion.holds(row, today) {
                return false;
            }
        }
        true
    }
}

/// The criteria of a text, each with its values.
fn criteria_at(alloc: Global, text: &[u8]) -> Result<Listed<Criterion>, ByFault>
    requires { length text.now ≤ 1048576 }
    ensures read { IfOk result (Spell (tokens_of text.now)) }
    ensures refused { IfErr result (IsRefusal text.now) }
{
    let mut reading = Reading::new(alloc);
    let mut rest = text;
    'tokens: while let Some((token, behind)) = token_at(rest) {
        reading.take(token, (text.len() - rest.len()) as u32)?;
        rest = behind;
    }
    if !reading.has_ended() {
        return Err(ByFault::BadCriterion(text.len() as u32));
    }
    Ok(reading.into_criteria())
}
