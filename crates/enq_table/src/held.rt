//! The table of holds.

ghost use Rattle.std.specs.Prelude.{◌≡◌, ◌<◌, ◌∷◌, ◌++◌, [], length, All, IfSome, IfNone, OnOk, OnErr, IfErr, Option, Some, None};
ghost use Rattle.std.specs.List.{HoldsAt};
ghost use Rattle.dsn_filter.specs.Dsn.{IsDsn};
ghost use Rattle.enq_table.specs.Holder.{IsHolder};
ghost use Rattle.enq_table.specs.Table.{StandsAgainst, Conflicts, Has, IsFirstHolder, IsTable, Releases};
ghost use Rattle.enq_table.specs.Index.{IsOn, IsFirst};
ghost use Rattle.enq_table.specs.Faults.{IsHoldFault, TellsHolder, IsReleaseFault};

use crate::fault::EnqFault;
use crate::hold::{Hold, Mode};
use crate::holder::Holder;
use crate::index::Index;
use ckd_image::NoMemory;
use dsn_filter::Dsn;
use std::alloc::Global;
use std::marker::Model;

/// Who holds which data set. Contracts see the list of the accepted holds in order.
#[derive(Debug, Drop)]
pub struct Held {
    holds: Vec<Hold>,
    /// With it neither a hold nor a command goes through all holds.
    index: Index,
}

impl Model for Held {
    ghost use Rattle.std.specs.Prelude.{List};
    ghost use Rattle.enq_table.specs.declared.hold.Hold.{Hold};

    ghost Value = { List Hold };

    ghost use Rattle.enq_table.specs.Table.{IsTable};
    ghost use Rattle.enq_table.specs.Index.{IsIndexed};

    ghost view = { λ h. h.holds.items };

    ghost invariant = { λ h. IsTable h.holds.items × IsIndexed h.holds.items h.index };
}

impl Held {
    pub fn new(alloc: Global) -> Held
        ensures { result ≡ [] }
    {
        Held {
            holds: Vec::new(alloc),
            index: Index::new(alloc),
        }
    }

    /// The accepted holds in order.
    pub fn as_slice(&self) -> &[Hold]
        ensures same { result.now ≡ self.now }
        ensures table { IsTable self.now }
    {
        self.holds.as_slice()
    }

    /// On `Err` the table stays as it was.
    pub fn hold(&mut self, name: Dsn, mode: Mode, holder: Holder) -> Result<(), EnqFault>
        requires name { IsDsn name }
        requires holder { IsHolder holder }

        // A hold is added at the end, where none stands against it.
        ensures held { OnOk result (self.new ≡ self.old ++ (record { name = name; mode = mode; holder = holder } ∷ [])) }
        ensures free { OnOk result (IsFirstHolder (λ held. StandsAgainst held (record { name = name; mode = mode; holder = holder })) self.old None) }

        // It is refused for the first that does.
        ensures refused { IfErr result (IsHoldFault self.old (record { name = name; mode = mode; holder = holder })) }
        ensures lawful { IfErr result TellsHolder }
        ensures err { OnErr result (self.new ≡ self.old) }
    {
        let asked = Hold { name, mode, holder };
        if let Some(against) = self.index.against(&asked) {
            return Err(EnqFault::AlreadyHeld(against));
        }
        add(&mut self.holds, asked)?;
        if let Err(NoMemory) = self.index.add(&asked) {
            self.holds.pop();
            return Err(EnqFault::NoMemory);
        }
        Ok(())
    }

    /// On `Err` the table stays as it was.
    pub fn release(&mut self, name: &Dsn, holder: &Holder) -> Result<(), EnqFault>
        // The holder's hold is taken out, and it was the only one.
        ensures released { OnOk result (Releases name.now holder.now self.old self.new) }
        ensures gone { OnOk result (All (λ held. ¬ Has name.now holder.now held) self.new) }

        // It is refused where there is none.
        ensures refused { IfErr result (IsReleaseFault self.old name.now holder.now) }
        ensures err { OnErr result (self.new ≡ self.old) }
    {
        let Some(place) = place_of(self.holds.as_slice(), name, holder) else {
            return Err(EnqFault::NotHeld);
        };
        self.holds.remove(place);
        let first = first_on(self.holds.as_slice(), name);
        self.index.forget(name, holder, first);
        Ok(())
    }

    /// The holder of the first hold against which a command stands: one that changes the data set, or one that reads it.
    pub fn conflict(&self, name: &Dsn, change: bool) -> Option<Holder>
        ensures first { IsFirstHolder (Conflicts name.now change) self.now result }
        ensures lawful { IfSome result IsHolder }
    {
        self.index.conflict(name, change)
    }
}

fn add(holds: &mut Vec<Hold>, asked: Hold) -> Result<(), NoMemory>
    ensures ok { OnOk result (holds.new.items ≡ holds.old.items ++ (asked ∷ [])) }
    ensures err { OnErr result (holds.new.items ≡ holds.old.items) }
{
    holds.push(asked)?;
    Ok(())
}

/// The place of the holder's hold of the name.
fn place_of(holds: &[Hold], name: &Dsn, holder: &Holder) -> Option<usize>
    ensures found { IfSome result (λ place. (place < length holds.now) × HoldsAt (Has name.now holder.now) holds.now place) }
    ensures none { IfNone result (All (λ held. ¬ Has name.now holder.now held) holds.now) }
{
    for (place, held) in holds.iter().enumerate() {
        if held.has(name, holder) {
            return Some(place);
        }
    }
    None
}

/// The first hold on a name.
fn first_on(holds: &[Hold], name: &Dsn) -> Option<Hold>
    ensures { IsFirst (IsOn name.now) holds.now result }
{
    for held in holds {
        if held.name.is_same(name) {
            return Some(*held);
        }
    }
    None
}
