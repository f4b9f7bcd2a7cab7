//! An index of a table of holds: the first hold on each name, and who has which name.

ghost use Rattle.std.specs.Prelude.{◌≡◌, ◌↔◌, ◌++◌, ◌∷◌, [], List, All, IsTrue, OnOk, OnErr};
ghost use Rattle.std.specs.BTreeSet.{IsUnchanged};
ghost use Rattle.enq_table.specs.declared.hold.Hold.{Hold};
ghost use Rattle.enq_table.specs.Table.{StandsAgainst, Conflicts, Has, IsFirstHolder, IsTable, Releases};
ghost use Rattle.enq_table.specs.Index.{name_key, hold_key, IsHad, IsFirst, IsOn, TellsHolders, IsIndexed};

use crate::hold::Hold;
use crate::holder::Holder;
use ckd_image::NoMemory;
use dsn_filter::Dsn;
use std::alloc::Global;
use std::collections::{BTreeMap, BTreeSet};

/// What a name is found by.
type NameKey = (u8, [u8; 44]);

/// What a holder's hold of a name is found by: the holder, and the name.
type HoldKey = ((u8, [u8; 8]), NameKey);

/// The first hold on each name, and each holder with each name that it has.
#[derive(Debug, Drop)]
pub(crate) struct Index {
    firsts: BTreeMap<NameKey, Hold, Global>,
    holders: BTreeSet<HoldKey, Global>,
}

impl Index {
    pub(crate) fn new(alloc: Global) -> Index
        ensures { IsIndexed [] result }
    {
        Index {
            firsts: BTreeMap::new(alloc),
            holders: BTreeSet::new(alloc),
        }
    }

    /// The first hold on a name.
    fn first(&self, name: &Dsn) -> Option<Hold>
        ensures { (table : List Hold) → IsIndexed table self.now → IsFirst (IsOn name.now) table result }
    {
        self.firsts.get(&key_of_name(name)).copied()
    }

    /// Whether a holder has a name.
    fn has(&self, name: &Dsn, holder: &Holder) -> bool
        ensures { (table : List Hold) → IsIndexed table self.now → IsHad name.now holder.now table result }
    {
        self.holders.contains(&key_of_hold(name, holder))
    }

    /// The holder of the first hold that stands against a hold that is asked for.
    pub(crate) fn against(&self, asked: &Hold) -> Option<Holder>
        ensures { (table : List Hold) → IsTable table → IsIndexed table self.now → IsFirstHolder (λ held. StandsAgainst held asked.now) table result }
    {
        let first = self.first(&asked.name)?;
        if first.stands_against(asked) {
            return Some(first.holder);
        }
        // All holds on the name are shared now, and so is the one that is asked for.
        if self.has(&asked.name, &asked.holder) {
            return Some(asked.holder);
        }
        None
    }

    /// The holder of the first hold against which a command stands.
    pub(crate) fn conflict(&self, name: &Dsn, change: bool) -> Option<Holder>
        ensures { (table : List Hold) → IsTable table → IsIndexed table self.now → IsFirstHolder (Conflicts name.now change) table result }
    {
        let first = self.first(name)?;
        if first.conflicts(name, change) {
            return Some(first.holder);
        }
        None
    }

    /// Takes up a hold that is added at the table's end.
    pub(crate) fn add(&mut self, hold: &Hold) -> Result<(), NoMemory>
        ensures ok { OnOk result ((table : List Hold) → IsIndexed table self.old → IsIndexed (table ++ (hold.now ∷ [])) self.new) }
        ensures err { OnErr result ((table : List Hold) → IsIndexed table self.old → IsIndexed table self.new) }
    {
        let key = key_of_name(&hold.name);
        if self.firsts.contains_key(&key) {
            return add_holder(&mut self.holders, hold);
        }
        self.firsts.insert(key, *hold)?;
        if let Err(fault) = add_holder(&mut self.holders, hold) {
            self.firsts.remove(&key);
            return Err(fault);
        }
        Ok(())
    }

    /// Forgets a holder's hold of a name. `first` is the first hold that stays on the name, if one does. No memory is taken.
    pub(crate) fn forget(&mut self, name: &Dsn, holder: &Holder, first: Option<Hold>)
        ensures { (old new : List Hold) → Releases name.now holder.now old new → All (λ held. ¬ Has name.now holder.now held) new
            → IsFirst (IsOn name.now) new first → IsIndexed old self.old → IsIndexed new self.new }
    {
        self.holders.remove(&key_of_hold(name, holder));
        let key = key_of_name(name);
        let Some(first) = first else {
            self.firsts.remove(&key);
            return;
        };
        if let Some(kept) = self.firsts.get_mut(&key) {
            *kept = first;
        }
    }
}

fn key_of_name(name: &Dsn) -> NameKey
    ensures { result ≡ name_key name.now }
{
    (name.len, name.text)
}

fn key_of_hold(name: &Dsn, holder: &Holder) -> HoldKey
    ensures { result ≡ hold_key name.now holder.now }
{
    ((holder.len, holder.text), key_of_name(name))
}

fn add_holder(holders: &mut BTreeSet<HoldKey, Global>, hold: &Hold) -> Result<(), NoMemory>
    ensures ok { OnOk result ((table : List Hold) → TellsHolders table holders.old → TellsHolders (table ++ (hold.now ∷ [])) holders.new) }
    ensures err { OnErr result (IsUnchanged holders.old holders.new) }
{
    holders.insert(key_of_hold(&hold.name, &hold.holder))?;
    Ok(())
}
