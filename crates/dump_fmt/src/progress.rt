//! How far a dump is.

ghost use Rattle.std.specs.Prelude.{◌≡◌, ◌++◌, List, ℕ};
ghost use Rattle.sha2.specs.Hashers.{Holds256};
ghost use Rattle.sha2.specs.Sha256.{sha256};
ghost use Rattle.dump_fmt.specs.Pieces.{counted_text};
ghost use Rattle.dump_fmt.specs.Counting.{IsCounted, FitsCounts};

use crate::piece::Piece;
use crate::printing::counts_bytes;
use ckd_image::text::put;
use sha2::{Digest, Sha256};

/// How far a dump is: where its outputs stand in the list, the digest of its text so far, how many whole parts it has with how many
/// tracks, and how many tracks the part under way is to have.
#[derive(Drop)]
pub struct Progress {
    pub places: Vec<u32>,
    pub digest: Sha256,
    pub parts: u32,
    pub tracks: u32,
    pub due: u32,
}

impl Progress {
    /// Counts a piece.
    pub(crate) fn count(&mut self, piece: &Piece)
        requires { FitsCounts piece.now self.old }
        ensures { IsCounted piece.now self.old self.new }
    {
        match piece {
            Piece::Part { tracks, .. } => self.due = *tracks,
            Piece::PartEnd => {
                self.parts += 1;
                self.tracks += self.due;
            }
            Piece::Slot { .. } => {
                self.parts += 1;
                self.tracks += 1;
            }
            Piece::Track(_) | Piece::Dropped => {}
        }
    }

    /// The trailer: the counts, and the digest of all that stands before it.
    pub(crate) fn trailer(&mut self) -> [u8; 41]
        ensures text { (message : List ℕ) → Holds256 self.old.digest message
            → result ≡ counted_text self.old.parts self.old.tracks ++ sha256 (message ++ counted_text self.old.parts self.old.tracks) }
        ensures places { self.new.places ≡ self.old.places }
    {
        let counts = counts_bytes(self.parts, self.tracks);
        self.digest.update(counts.as_slice());
        both(&counts, &self.digest.finalize_reset())
    }
}

/// Counts and digest, one behind the other.
fn both(counts: &[u8; 9], digest: &[u8; 32]) -> [u8; 41]
    ensures { result ≡ counts.now ++ digest.now }
{
    let mut trailer = [0; 41];
    let end = put(&mut trailer, 0, counts);
    put(&mut trailer, end, digest);
    trailer
}
