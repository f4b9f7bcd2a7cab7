//! A run of tracks.

ghost use Rattle.std.specs.Prelude.{◌≡◌, ◌+◌, ◌<◌, ◌^◌};

use ckd_image::Listed;

/// The tracks `first .. first + len - 1`.
#[derive(Clone, Copy, Debug, PartialEq, Eq)]
pub struct Run {
    pub first: u32,
    pub len: u32,
}

pub type Runs = Listed<Run>;

impl Run {
    /// The track behind its last one.
    pub fn end(self) -> u32
        requires { self.first + self.len < 2 ^ 32 }
        ensures { result ≡ self.first + self.len }
    {
        self.first + self.len
    }
}
