//! What an image stands for, also while a slide is open.
#![tactic(auto)]

ghost use Rattle.slide_laws.specs.OneList.{OneList};

/// What an image stands for is one list of units.
pub fn slide_laws()
    ensures one { OneList }
{}
