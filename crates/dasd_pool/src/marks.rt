//! One mark for each block of a pool: whether it has been written since the last successful sync.

ghost use Rattle.std.specs.Prelude.{◌≡◌, ◌<◌, ℕ, [], true, false, length, replicate, slice_set, slice_index_or, IfOk};
ghost use Rattle.dasd_pool.specs.Marks.{lists_of, first_marks, is_marked};

use crate::units::{UnitText, block_count, said_size};
use std::alloc::{AllocError, Global};
use std::marker::Model;

/// The marks of a pool that keeps no calls. Another pool has none.
#[derive(Debug, Drop)]
pub struct Marks {
    written: Vec<Vec<bool>>,
}

impl Model for Marks {
    ghost use Rattle.std.specs.Prelude.{List, Bool};
    ghost use Rattle.dasd_pool.specs.Marks.{lists_of};

    ghost Value = { List (List Bool) };

    ghost view = { λ m. lists_of m.written.items };
}

impl Marks {
    /// A mark for each block of these units, none of them set. A pool that keeps calls needs no marks.
    pub fn new(alloc: Global, units: &[UnitText], keep: u32) -> Result<Marks, AllocError>
        ensures { IfOk result (λ marks. marks ≡ first_marks keep units.now) }
    {
        let mut written = Vec::new(alloc);
        if keep > 0 {
            return Ok(Marks { written });
        }
        for unit in units {
            let count = block_count(unit.blocks.len(), said_size(&unit.head));
            written.push(vec![in alloc; false; count as usize]?)?;
        }
        Ok(Marks { written })
    }

    /// Marks a block, if it has a mark.
    pub fn set(&mut self, unit: usize, block: usize)
        ensures { self.new ≡ slice_set self.old unit (slice_set (slice_index_or self.old unit []) block true) }
    {
        if let Some(marks) = self.written.get_mut(unit) {
            set_one(marks, block);
        }
    }

    /// Takes all marks away.
    pub fn clear(&mut self)
        ensures clear { (u b : ℕ) → is_marked self.new u b ≡ false }
        ensures lengths { (u : ℕ) → length (slice_index_or self.new u []) ≡ length (slice_index_or self.old u []) }
    {
        clear_all(&mut self.written);
    }
}

fn set_one(marks: &mut Vec<bool>, block: usize)
    ensures { marks.new.items ≡ slice_set marks.old.items block true }
{
    if let Some(mark) = marks.get_mut(block) {
        *mark = true;
    }
}

fn clear_one(marks: &mut Vec<bool>)
    ensures { marks.new.items ≡ replicate (length marks.old.items) false }
{
    marks.fill(false);
}

fn clear_all(written: &mut Vec<Vec<bool>>)
    ensures clear { (u b : ℕ) → is_marked (lists_of written.new.items) u b ≡ false }
    ensures lengths { (u : ℕ) → length (slice_index_or (lists_of written.new.items) u []) ≡ length (slice_index_or (lists_of written.old.items) u []) }
{
    for unit in 0..written.len() {
        clear_one(&mut written[unit]);
    }
}
