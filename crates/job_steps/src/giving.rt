//! The step of a part of a dump, whose texts are given one after the other.

ghost use Rattle.std.specs.Prelude.{◌≡◌, ◌<◌, [], ◌∷◌, None, replicate, IfOk, IfErr};
ghost use Rattle.ckd_image.specs.Track.{IsTrack};
ghost use Rattle.volume_model.specs.Unit.{good};
ghost use Rattle.move_core.specs.Facts.{Original, shown};
ghost use Rattle.move_core.specs.Runs.{AreCalls, IsRunFor, Ended};
ghost use Rattle.move_core.specs.Steps.{empty_text};
ghost use Rattle.unit_session.specs.Given.{FitsAt, count_given};
ghost use Rattle.unit_session.specs.Planned.{HoldsOriginal, done_by, pool_switched};
ghost use Rattle.job_steps.specs.Carried.{AreAfter, IsUnderWay, pending_made};
ghost use Rattle.job_steps.specs.Giving.{GivesMore, HasGiven, next_place, pool_giving};

use ckd_image::{Listed, Track};
use dasd_pool::Pool;
use std::alloc::Global;
use std::marker::Model;
use unit_session::{Broken, Planned, Session};

/// A planned part of a dump that is given to its new tracks, one text after the other.
#[derive(Drop)]
pub struct Giving<P: Pool> {
    planned: Planned<P>,
    left: u32,
}

impl<P: Pool> Model for Giving<P> {
    ghost use Rattle.job_steps.specs.Giving.{GivingView, IsGiving};

    ghost Value = { GivingView P };

    ghost view = { λ g. record { planned = g.planned; left = g.left } };

    ghost invariant = { λ g. IsGiving (record { planned = g.planned; left = g.left }) };
}

impl<P: Pool> Giving<P> {
    /// None of the texts was given yet.
    pub fn of(planned: Planned<P>) -> Giving<P>
        ensures planned { result.planned ≡ planned }
        ensures left { result.left ≡ count_given planned.given }
    {
        let left = planned.to_give();
        Giving { planned, left }
    }

    /// How many tracks have no text yet.
    pub fn left(&self) -> u32
        ensures { result ≡ self.now.left }
    {
        self.left
    }

    /// Gives the next track its text. No memory is taken.
    pub fn give(self, track: &Track) -> Result<Giving<P>, Broken<P>>
        requires place { 0 < self.left }
        requires track { IsTrack track.now }
        requires fits { FitsAt self.planned.given (next_place self) track.now }
        ensures run { AreCalls P.tells (shown P.Pool self.planned.session.pool) (shown P.Pool (pool_giving result)) (Ended result) [] None }
        ensures given { IfOk result (λ next. GivesMore P.Pool self next (good track.now ∷ [])) }
        ensures pending { IfErr result (IsUnderWay self.planned.plan.step) }
    {
        let Giving { planned, left } = self;
        let place = planned.to_give() - left;
        let planned = planned.give(place, track)?;
        Ok(Giving {
            planned,
            left: left - 1,
        })
    }

    /// Gives the tracks behind the last text an empty one each.
    fn fill(self, alloc: Global) -> Result<Giving<P>, Broken<P>>
        ensures run { AreCalls P.tells (shown P.Pool self.planned.session.pool) (shown P.Pool (pool_giving result)) (Ended result) [] None }
        ensures given { IfOk result (λ next. GivesMore P.Pool self next (replicate self.left empty_text)) }
        ensures pending { IfErr result (IsUnderWay self.planned.plan.step) }
    {
        let empty = Track {
            flag: 0,
            r0: [0; 8],
            recs: Listed::new(alloc),
        };
        let left = self.left;
        let mut giving = self;
        for _ in 0..left {
            giving = giving.give(&empty)?;
        }
        Ok(giving)
    }

    /// Makes the step: each track behind the last text gets an empty one, all is made durable, and one commit puts the part.
    pub fn make(self, alloc: Global) -> Result<Session<P>, Broken<P>>
        ensures run { (original : Original) → HasGiven P.Pool self original
            → IsRunFor (HoldsOriginal self.planned.plan.step original) P.tells (shown P.Pool self.planned.session.pool) (shown P.Pool (pool_switched result)) (Ended result) (done_by self.planned.plan.step result) (pending_made result) }
        ensures after { (original : Original) → HasGiven P.Pool self original → IfOk result (AreAfter P.Pool self.planned) }
        ensures pending { IfErr result (IsUnderWay self.planned.plan.step) }
    {
        let Giving { planned, .. } = self.fill(alloc)?;
        planned.copy()?.switch()
    }

    /// Leaves the step undone. Nothing rests on the texts that were given.
    pub fn abandon(self) -> Session<P>
        ensures { result ≡ self.planned.session }
    {
        let Giving { planned, .. } = self;
        planned.abandon()
    }
}
