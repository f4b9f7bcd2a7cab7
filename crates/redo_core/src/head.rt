//! The head of a journal.

ghost use Rattle.std.specs.Prelude.{◌≡◌, ◌↔◌, ◌+◌, IsTrue};
ghost use Rattle.redo_core.specs.Format.{head_text};
ghost use Rattle.redo_core.specs.Reading.{HasHead};

use ckd_image::text::{put_over, same};
use dasd_pool::Pool;

/// The head that the file of a journal has.
pub fn journal_head() -> [u8; 512]
    ensures { result ≡ head_text }
{
    let mut head = [0; 512];
    put_over(&mut head, 0, b"ADRJRNL1");
    put_over(&mut head, 14, &[1]);
    head
}

/// Whether the journal's head is that of one, and its blocks have that size.
pub(crate) fn has_head<P: Pool>(pool: &P, journal: u32) -> bool
    requires { journal + 1 ≡ (P.shape pool.now).units }
    ensures { IsTrue result ↔ HasHead (P.shape pool.now) }
{
    if pool.block_size(journal) != 65_536 {
        return false;
    }
    same(&pool.head(journal), &journal_head())
}
