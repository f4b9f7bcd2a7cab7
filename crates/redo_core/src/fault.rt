//! Why a journal is refused.

ghost use Rattle.std.specs.Prelude.{◌≡◌};
ghost use Rattle.redo_core.specs.Faults.{number_of};
ghost use Rattle.redo_core.specs.declared.fault.JournalFault.TheVariants as faults;

use ckd_image::NoMemory;
use dasd_pool::PoolFault;
use thiserror::Error;
use vol_label::Serial;

/// The rules of a journal, in their order.
#[derive(Clone, Copy, Debug, PartialEq, Eq)]
pub enum JournalRule {
    Head,
    Registration,
    Body,
    Control,
    Slide,
    InUse,
    Busy,
}

impl JournalRule {
    /// The number of the rule in a refusal.
    pub fn number(self) -> u8
        ensures { result ≡ number_of self }
    {
        match self {
            JournalRule::Head => 1,
            JournalRule::Registration => 2,
            JournalRule::Body => 3,
            JournalRule::Control => 4,
            JournalRule::Slide => 5,
            JournalRule::InUse => 6,
            JournalRule::Busy => 7,
        }
    }
}

/// Why a call on a journal fails.
#[derive(Clone, Copy, Debug, PartialEq, Eq, Error)]
pub enum JournalFault {
    /// The pool failed, and its count of faults has risen.
    #[error("the pool failed")]
    Pool,
    /// The number of the first rule of a journal that doesn't hold.
    #[error("the journal breaks rule {0}")]
    BadJournal(u8),
    /// A unit, the serial that it should have, and the one that it has.
    #[error("unit {0} has another serial")]
    WrongUnit(u32, Serial, Serial),
    /// How many blocks the journal needs, and how many it has.
    #[error("the journal needs {0} blocks and has {1}")]
    JournalSmall(u32, u32),
    #[error("out of memory")]
    NoMemory,
}

impl From<PoolFault> for JournalFault {
    ghost from_gives = { λ _ e. e ≡ faults.Pool };

    fn from(_: PoolFault) -> JournalFault {
        JournalFault::Pool
    }
}

impl From<NoMemory> for JournalFault {
    ghost from_gives = { λ _ e. e ≡ faults.NoMemory };

    fn from(_: NoMemory) -> JournalFault {
        JournalFault::NoMemory
    }
}

pub(crate) fn broken(rule: JournalRule) -> JournalFault
    ensures { result ≡ JournalFault.BadJournal (number_of rule) }
{
    JournalFault::BadJournal(rule.number())
}
