//! What is to be written.

ghost use Rattle.std.specs.Prelude.{◌≡◌, Some, None, [], ◌∷◌, ◌++◌, IfOk, OnOk, OnErr};
ghost use Rattle.redo_core.specs.Statuses.{IsDown, IsSpare, HasFour, block_saying, control_alone, entries_at};

use crate::control::{Control, control_block, put_status};
use ckd_image::{Bytes, NoMemory};
use std::alloc::Global;
use std::marker::Model;

/// A block, and the bytes that go there.
#[derive(Debug, Drop)]
pub struct Entry {
    pub unit: u32,
    pub block: u32,
    pub slot: Bytes,
}

/// An entry for the control block, which is written anew for each commit of it alone.
pub(crate) fn spare_for(alloc: Global, journal: u32) -> Result<[Entry; 1], NoMemory>
    ensures { IfOk result (λ spare. IsSpare journal spare) }
{
    let slot = control_block(alloc, Control::Idle, 0)?;
    Ok([Entry {
        unit: journal,
        block: 2,
        slot,
    }])
}

/// Makes it say this.
pub(crate) fn say(spare: &mut [Entry; 1], journal: u32, control: Control, filling: u64)
    requires { IsSpare journal spare.old }
    ensures says { spare.new ≡ control_alone journal control filling }
    ensures fits { HasFour control }
{
    put_status(&mut spare[0].slot, control, filling);
}

/// The entries of one commit: for blocks of volumes, and perhaps one for the control block. Of which pool it is, the commit knows.
#[derive(Debug, Drop)]
pub struct Entries {
    list: Vec<Entry>,
    control: Option<Bytes>,
}

impl Model for Entries {
    ghost use Rattle.std.specs.Prelude.{◌<◌};
    ghost use Rattle.std.specs.Vec.{vec_len, vec_capacity};
    ghost use Rattle.redo_core.specs.Statuses.{EntriesView};

    ghost Value = { EntriesView };

    ghost view = { λ e. record { blocks = e.list.items; control = e.control } };

    ghost invariant = { λ e. vec_len e.list < vec_capacity e.list };
}

impl Entries {
    /// Room for so many entries.
    pub fn new(alloc: Global, room: u32) -> Result<Entries, NoMemory>
        ensures { IfOk result (λ entries. entries ≡ record { blocks = []; control = None }) }
    {
        let list = Vec::with_capacity(alloc, room as usize + 1)?;
        Ok(Entries {
            list,
            control: None,
        })
    }

    /// Adds a block and a copy of its bytes. On `Err` nothing is added.
    pub fn push(
        &mut self,
        alloc: Global,
        unit: u32,
        block: u32,
        slot: &[u8],
    ) -> Result<(), NoMemory>
        ensures ok { OnOk result (self.new ≡ record { blocks = self.old.blocks ++ record { unit = unit; block = block; slot = slot.now } ∷ []; control = self.old.control }) }
        ensures err { OnErr result (self.new ≡ self.old) }
    {
        let slot = Bytes::from_slice(alloc, slot)?;
        self.list.reserve(2)?; // one for the control block
        self.list.push(Entry { unit, block, slot }).unwrap();
        Ok(())
    }

    /// What the control block is to say: bit u of `filling`, that a fill of volume u is open. It takes the place of what was pushed so before. On `Err` it doesn't.
    pub fn push_control(
        &mut self,
        alloc: Global,
        control: Control,
        filling: u64,
    ) -> Result<(), NoMemory>
        requires { IsDown control }
        ensures ok { OnOk result (self.new ≡ record { blocks = self.old.blocks; control = Some (block_saying control filling) }) }
        ensures fits { HasFour control }
        ensures err { OnErr result (self.new ≡ self.old) }
    {
        let slot = control_block(alloc, control, filling)?;
        self.control = Some(slot);
        Ok(())
    }

    /// The entries as a commit over this journal puts them in place.
    pub(crate) fn into_list(self, journal: u32) -> Vec<Entry>
        ensures { result.items ≡ entries_at journal self }
    {
        let Entries { mut list, control } = self;
        if let Some(slot) = control {
            list.push(Entry {
                unit: journal,
                block: 2,
                slot,
            })
            .unwrap();
        }
        list
    }
}
