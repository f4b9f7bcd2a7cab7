//! What is known of a unit in a file.

ghost use Rattle.std.specs.Prelude.{◌≡◌, ◌≤◌};
ghost use Rattle.dasd_pool.specs.Calls.{size_in};

/// What never changes of a unit: its head, the size and number of its blocks, and whether it may be written.
#[derive(Debug, Drop)]
pub struct FileUnit {
    pub head: [u8; 512],
    pub size: u32,
    pub count: u32,
    pub may_write: bool,
    ghost fits: { size ≤ 65536 },
    ghost said: { size ≡ size_in head },
}
