//! Why a step isn't planned, or isn't done.

ghost use Rattle.std.specs.Prelude.{◌≡◌};
ghost use Rattle.std.specs.Option.{option_copied};
ghost use Rattle.unit_session.specs.declared.fault.PlanFault.TheVariants as faults;

use crate::session::Session;
use ckd_image::NoMemory;
use dasd_pool::Pool;
use move_core::Step;
use std::marker::Model;
use thiserror::Error;

/// Why a plan is refused.
#[derive(Clone, Copy, Debug, PartialEq, Eq, Error)]
pub enum PlanFault {
    #[error("the pool failed")]
    Pool,
    /// A unit and a track of it that is to be copied and has no text.
    #[error("unit {0} has no text on track {1}")]
    Bad(u32, u32),
    /// How many DSCBs more are needed, and how many are free.
    #[error("the VTOC needs {0} DSCBs and has {1}")]
    Full(u32, u32),
    #[error("the VTOC has an index")]
    Indexed,
    #[error("the VTOC has too many tracks for a commit")]
    Long,
    #[error("out of memory")]
    NoMemory,
}

impl From<NoMemory> for PlanFault {
    ghost from_gives = { λ _ fault. fault ≡ faults.NoMemory };

    fn from(_: NoMemory) -> PlanFault {
        PlanFault::NoMemory
    }
}

/// What a refused plan leaves: the session as it was, and why; or a pool that failed.
#[derive(Drop)]
pub enum PlanStop<P: Pool> {
    Kept(Session<P>, PlanFault),
    Failed(Broken<P>),
}

/// A pool that failed, and the step that was under way, if one was.
#[derive(Drop)]
pub struct Broken<P> {
    pub(crate) pool: P,
    pub(crate) pending: Option<Step>,
}

impl<P> Model for Broken<P> {
    ghost use Rattle.unit_session.specs.Sessions.{BrokenView};

    ghost Value = { BrokenView P };

    ghost view = { λ b. record { pool = b.pool; pending = b.pending } };
}

impl<P> Broken<P> {
    /// The step that was under way.
    pub fn pending(&self) -> Option<&Step>
        ensures { option_copied result ≡ self.now.pending }
    {
        self.pending.as_ref()
    }

    /// The pool alone.
    pub fn into_pool(self) -> P
        ensures { result ≡ self.pool }
    {
        let Broken { pool, .. } = self;
        pool
    }

    /// The pool, and the step that was under way.
    pub fn into_parts(self) -> (P, Option<Step>)
        ensures pool { result.0 ≡ self.pool }
        ensures pending { result.1 ≡ self.pending }
    {
        let Broken { pool, pending } = self;
        (pool, pending)
    }
}

impl<P: Pool> From<Session<P>> for Broken<P> {
    ghost use Rattle.std.specs.Prelude.{◌≡◌, None};

    ghost from_gives = { λ session broken. (broken.pool ≡ session.pool) × (broken.pending ≡ None) };

    fn from(session: Session<P>) -> Broken<P> {
        Broken {
            pool: session.into_pool(),
            pending: None,
        }
    }
}
