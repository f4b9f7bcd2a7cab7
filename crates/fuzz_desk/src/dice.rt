//! Numbers that a seed makes.

ghost use Rattle.std.specs.Prelude.{◌<◌};

use rand_core::utils::NextWord;
use rand_pcg::Pcg32;

/// Dice whose throws follow from their seed.
#[derive(Drop)]
pub struct Dice {
    words: Pcg32,
}

impl Dice {
    pub fn new(seed: u64) -> Dice {
        Dice {
            words: Pcg32::new(seed, 0),
        }
    }

    /// A number below a limit.
    pub fn below(&mut self, limit: usize) -> usize
        requires { 0 < limit }
        ensures { result < limit }
    {
        self.words.next_word() as usize % limit
    }
}
