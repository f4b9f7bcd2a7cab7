//! A hold of a data set.

ghost use Rattle.std.specs.Prelude.{◌≡◌, ◌↔◌, ◌∷◌, ◌++◌, [], IsTrue};
ghost use Rattle.enq_table.specs.declared.hold.Mode.TheVariants as modes;
ghost use Rattle.enq_table.specs.Table.{StandsAgainst, Conflicts, Has};
ghost use Rattle.enq_table.specs.HeldText.{mode_text};

use crate::holder::Holder;
use dsn_filter::Dsn;

/// How a data set is held.
#[derive(Clone, Copy, Debug, PartialEq, Eq)]
pub enum Mode {
    Shared,
    Exclusive,
}

impl Mode {
    pub(crate) fn is_exclusive(self) -> bool
        ensures { IsTrue result ↔ (self ≡ modes.Exclusive) }
    {
        match self {
            Mode::Shared => false,
            Mode::Exclusive => true,
        }
    }

    /// How it is written, with the blank behind it.
    pub(crate) fn word(self) -> [u8; 4]
        ensures { result ≡ mode_text self ++ (32 ∷ []) }
    {
        match self {
            Mode::Shared => *b"SHR ",
            Mode::Exclusive => *b"EXC ",
        }
    }
}

/// Who holds which data set, and how.
#[derive(Clone, Copy, Debug, PartialEq, Eq)]
pub struct Hold {
    pub name: Dsn,
    pub mode: Mode,
    pub holder: Holder,
}

impl Hold {
    /// Whether this stands against a hold that is asked for.
    pub(crate) fn stands_against(&self, asked: &Hold) -> bool
        ensures { IsTrue result ↔ StandsAgainst self.now asked.now }
    {
        if !self.name.is_same(&asked.name) {
            return false;
        }
        self.holder.is_same(&asked.holder) || self.mode.is_exclusive() || asked.mode.is_exclusive()
    }

    /// Whether this stands against a command.
    pub(crate) fn conflicts(&self, name: &Dsn, change: bool) -> bool
        ensures { IsTrue result ↔ Conflicts name.now change self.now }
    {
        if !self.name.is_same(name) {
            return false;
        }
        self.mode.is_exclusive() || change
    }

    /// Whether this is the holder's hold of the name.
    pub(crate) fn has(&self, name: &Dsn, holder: &Holder) -> bool
        ensures { IsTrue result ↔ Has name.now holder.now self.now }
    {
        self.name.is_same(name) && self.holder.is_same(holder)
    }
}
