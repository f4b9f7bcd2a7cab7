//! What holds of names and spots.

ghost use Rattle.volume_change.specs.Spot.{HigherNamesAreBehind, NameIsOneText};

/// Rows behind a spot have higher names.
pub fn spot_laws()
    ensures behind { HigherNamesAreBehind }
{}

/// A name has one text in the code page.
pub fn name_laws()
    ensures one { NameIsOneText }
{}
