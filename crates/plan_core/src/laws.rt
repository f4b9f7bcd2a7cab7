//! What holds of a release whatever plans it.

ghost use Rattle.plan_core.specs.Release.{KeptOfTracks};

/// A release keeps the used tracks of a data set of one extent of tracks, and no more than it has.
pub fn release_laws()
    ensures { KeptOfTracks }
{}
