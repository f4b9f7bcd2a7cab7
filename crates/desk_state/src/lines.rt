//! The lines of a desk's units, which contracts see as a list.

ghost use Rattle.std.specs.Prelude.{◌≡◌, ◌<◌, [], ◌∷◌, ◌++◌, length, slice_set, OnOk, OnErr, get_or};
ghost use Rattle.desk_state.specs.Ends.{with_numbers, units_of};

use ckd_image::NoMemory;
use desk_text::{UnitLine, VolumeNumbers};
use std::alloc::Global;
use std::marker::Model;

/// A line for each unit, in their order. Which units there are never changes; what is said of them does.
#[derive(Debug, Drop)]
pub struct Lines {
    items: Vec<UnitLine>,
}

impl Model for Lines {
    ghost use Rattle.std.specs.Prelude.{List};
    ghost use Rattle.desk_text.specs.declared.job.UnitLine.{UnitLine};

    ghost Value = { List UnitLine };

    ghost view = { λ l. l.items.items };
}

impl Lines {
    /// Of no units.
    pub fn new(alloc: Global) -> Lines
        ensures { result ≡ [] }
    {
        Lines {
            items: Vec::new(alloc),
        }
    }

    /// A line for each unit, in order.
    pub fn as_slice(&self) -> &[UnitLine]
        ensures { result.now ≡ self.now }
    {
        self.items.as_slice()
    }

    /// On `Err` nothing is added.
    pub fn push(&mut self, line: UnitLine) -> Result<(), NoMemory>
        ensures ok { OnOk result (self.new ≡ self.old ++ line ∷ []) }
        ensures err { OnErr result (self.new ≡ self.old) }
    {
        self.items.push(line)?;
        Ok(())
    }

    /// Sets what is said of the unit at a place. It takes no memory.
    pub fn set(&mut self, place: usize, online: Option<VolumeNumbers>)
        requires { place < length self.old }
        ensures set { self.new ≡ with_numbers self.old place online }
        ensures units { units_of self.new ≡ units_of self.old }
    {
        set_at(self.items.as_mut_slice(), place, online);
    }
}

fn set_at(lines: &mut [UnitLine], place: usize, online: Option<VolumeNumbers>)
    requires { place < length lines.old }
    ensures set { lines.new ≡ with_numbers lines.old place online }
    ensures units { units_of lines.new ≡ units_of lines.old }
{
    lines[place].online = online;
}
