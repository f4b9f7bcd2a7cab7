//! Why a label is refused.

ghost use Rattle.std.specs.Prelude.{◌≡◌};
ghost use Rattle.vol_label.specs.Label.{number_of};

use thiserror::Error;

/// The rules of a label, in their order.
#[derive(Clone, Copy, Debug, PartialEq, Eq)]
pub enum LabelRule {
    NoRecord,
    Key,
    Length,
    Serial,
}

impl LabelRule {
    /// The number of the rule in a refusal.
    pub fn number(self) -> u8
        ensures { result ≡ number_of self }
    {
        match self {
            LabelRule::NoRecord => 1,
            LabelRule::Key => 2,
            LabelRule::Length => 3,
            LabelRule::Serial => 4,
        }
    }
}

/// The number of the first rule that a label breaks.
#[derive(Clone, Copy, Debug, PartialEq, Eq, Error)]
pub enum LabelFault {
    #[error("no volume label: rule {0}")]
    BadLabel(u8),
}

pub(crate) fn broken(rule: LabelRule) -> LabelFault
    ensures { result ≡ LabelFault.BadLabel (number_of rule) }
{
    LabelFault::BadLabel(rule.number())
}
