//! What an advance of an open slide may write: the law of places.
#![tactic(auto)]

ghost use Rattle.slide_places.specs.Places.{NextPlacesAreUnused, NextPlacesMayBeLost, OneMoreIsAPlace};

/// No meaning rests on the places that the next tracks go to, as many as the slide goes down: whatever a stop makes of them, the units stay. One track more would be
/// written over a text that hasn't gone.
pub fn slide_places()
    ensures unused { NextPlacesAreUnused }
    ensures lost { NextPlacesMayBeLost }
    ensures bound { OneMoreIsAPlace }
{}
