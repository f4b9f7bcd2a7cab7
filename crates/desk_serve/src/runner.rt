//! What runs a job.

ghost use Rattle.std.specs.Prelude.{◌≡◌, ℕ, List, Option, IsSome, IsNone};
ghost use Rattle.enq_table.specs.declared.hold.Hold.{Hold};
ghost use Rattle.desk_text.specs.declared.job.UnitLine.{UnitLine};
ghost use Rattle.desk_state.specs.Ends.{units_of};
ghost use Rattle.desk_serve.specs.declared.runner.RunEnd.{RunEnd};
ghost use Rattle.desk_serve.specs.Runs.{IsGoing, HasRunCode};

use ckd_image::Bytes;
use desk_state::Lines;
use enq_table::Held;

/// How a run ended.
#[derive(Debug, Drop)]
pub enum RunEnd {
    /// It ended with a code, and printed this.
    Ended { code: u8, print: Bytes },
    /// Memory ran out before a statement started.
    NotStarted,
    /// The pool failed.
    Broken { print: Bytes },
}

/// A session that runs a job's text over its volumes.
pub trait Runner: Drop {
    /// What a run is: from a session, a text and the held table to what it leaves of the session, and how it ends.
    ghost runs: { Self → List ℕ → List Hold → Option Self → RunEnd → Type 0 };

    /// What is said of each unit as the session has it, in place of what was said before.
    ghost shows: { Self → List UnitLine → List UnitLine };

    /// Runs a text. The session comes back unless the pool failed.
    fn run(self, text: &[u8], held: &Held) -> (Option<Self>, RunEnd)
        ensures runs { runs self text.now held.now result.0 result.1 }
        ensures back { IsGoing result.1 → IsSome result.0 }
        ensures code { HasRunCode result.1 };

    /// Sets what is said of each unit. The units stay the same, and no memory is taken.
    fn show(&self, lines: &mut Lines)
        ensures shown { lines.new ≡ shows self.now lines.old }
        ensures units { units_of lines.new ≡ units_of lines.old };
}
