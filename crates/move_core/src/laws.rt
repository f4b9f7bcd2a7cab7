//! What holds of the units that a pool stands for, whatever reads or changes them.

ghost use Rattle.move_core.specs.Facts.{shown};
ghost use Rattle.move_core.specs.Laws.{KeepsMeaning, EachImageStands, OpeningStands, OpenedIsSettled, CommitStands, CommittedIsSettled, OneMeaning};
ghost use Rattle.move_core.specs.Loaded.{OneVtoc, LoadedIsOnline};
ghost use Rattle.move_core.specs.Resuming.{FormattedIsSettled, SyncedIsSettled, SameBlocksStand, NoneIsOpen, StandingMayOpen};
ghost use Rattle.move_core.specs.Runs.{Ended};
ghost use Rattle.move_core.specs.RunLaws.{RunThen, CallsThen, RunsAndCalls, RunAllows, RunStill, RunQuiet, RunBehind, RunDemoted, RunSwitched, RunKept, RunStops};

use dasd_pool::{Pool, PoolFault};

/// A stop, an opening and a commit leave what a pool stands for, or what the commit makes of it. An image says at most one list of units, and stands for
/// at most one where no slide is open.
pub fn standing_laws()
    ensures meaning { KeepsMeaning }
    ensures image { EachImageStands }
    ensures opening { OpeningStands }
    ensures opened { OpenedIsSettled }
    ensures commit { CommitStands }
    ensures committed { CommittedIsSettled }
    ensures one { OneMeaning }
{}

/// A journal that was made leads into a run, and what a stop left into the next opening and the next run.
pub fn resuming_laws()
    ensures formatted { FormattedIsSettled }
    ensures synced { SyncedIsSettled }
    ensures blocks { SameBlocksStand }
    ensures closed { NoneIsOpen }
    ensures opens { StandingMayOpen }
{}

/// A VTOC reads in one way, and a unit on which a loader finds a volume is online.
pub fn online_laws()
    ensures vtoc { OneVtoc }
    ensures online { LoadedIsOnline }
{}

/// Calls on a pool chain: what they do to the units that it stood for follows from what each does.
pub fn running_laws<P: Pool>(
    old: &P,
    mid: &P,
    new: &P,
    first: &Result<(), PoolFault>,
    second: &Result<(), PoolFault>,
)
    ensures then { RunThen P.tells (shown P.Pool old.now) (shown P.Pool mid.now) (shown P.Pool new.now) (Ended first.now) (Ended second.now) }
    ensures calls_then { CallsThen P.tells (shown P.Pool old.now) (shown P.Pool mid.now) (shown P.Pool new.now) (Ended first.now) (Ended second.now) }
    ensures runs_and_calls { RunsAndCalls P.tells (shown P.Pool old.now) (shown P.Pool mid.now) (Ended first.now) }
    ensures allows { RunAllows P.tells (shown P.Pool old.now) (shown P.Pool mid.now) (Ended first.now) }
    ensures still { RunStill P.tells (shown P.Pool old.now) (shown P.Pool mid.now) (Ended first.now) }
    ensures quiet { RunQuiet P.tells (shown P.Pool old.now) (shown P.Pool mid.now) (Ended first.now) }
    ensures behind { RunBehind P.tells (shown P.Pool old.now) (shown P.Pool mid.now) (shown P.Pool new.now) (Ended first.now) (Ended second.now) }
    ensures demoted { RunDemoted P.tells (shown P.Pool old.now) (shown P.Pool mid.now) (Ended first.now) (Ended second.now) }
    ensures switched { RunSwitched P.tells (shown P.Pool old.now) (shown P.Pool mid.now) (Ended first.now) }
    ensures kept { RunKept P.tells (shown P.Pool old.now) (shown P.Pool mid.now) (Ended first.now) }
    ensures stops { RunStops P.tells (shown P.Pool old.now) (shown P.Pool mid.now) (Ended first.now) }
{}
