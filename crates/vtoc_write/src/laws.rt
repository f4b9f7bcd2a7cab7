//! What holds of a VTOC of which some records get other bytes.

ghost use Rattle.vtoc_write.specs.Laws.{KeepsTracks, KeepsPlaces};

/// The tracks that are written read as the records with the edits made, each in its place.
pub fn edit_laws()
    ensures tracks { KeepsTracks }
    ensures places { KeepsPlaces }
{}
