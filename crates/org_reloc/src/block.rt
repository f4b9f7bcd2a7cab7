//! What a record holds besides its number.

ghost use Rattle.std.specs.Prelude.{◌≡◌, ◌↔◌, length, IsTrue, IfOk};
ghost use Rattle.ckd_image.specs.Device.{cost_of};
ghost use Rattle.org_reloc.specs.Content.{block_of, end_of_file, IsEnd, IsBlock};

use ckd_image::{Bytes, Device, NoMemory, Rec};
use std::alloc::Global;

/// Key and body of a record. A block without both is an end of file.
#[derive(Debug, Drop)]
pub struct Block {
    pub key: Bytes,
    pub body: Bytes,
}

impl Block {
    pub fn copy_of(alloc: Global, rec: &Rec) -> Result<Block, NoMemory>
        ensures { IfOk result (λ block. block ≡ block_of rec.now) }
    {
        let key = Bytes::from_slice(alloc, rec.key.as_slice())?;
        let body = Bytes::from_slice(alloc, rec.body.as_slice())?;
        Ok(Block { key, body })
    }

    pub fn end_of_file(alloc: Global) -> Block
        ensures { result ≡ Rattle.org_reloc.specs.Content.end_of_file }
    {
        Block {
            key: Bytes::new(alloc),
            body: Bytes::new(alloc),
        }
    }

    /// What the block takes of a track's capacity.
    pub fn cost(&self, device: Device) -> u32
        requires { IsBlock self.now }
        ensures { result ≡ cost_of device (length self.now.key) (length self.now.body) }
    {
        device.cost(self.key.len() as u32, self.body.len() as u32)
    }
}

/// Whether a record is an end of file.
pub fn is_end(rec: &Rec) -> bool
    ensures { IsTrue result ↔ IsEnd rec.now }
{
    rec.key.len() == 0 && rec.body.len() == 0
}
