//! What stands in a VTOC that breaks no rule.

ghost use Rattle.layout_found.specs.Found.{SoundVtocsHaveLayouts};

/// A VTOC that breaks no rule has a layout.
pub fn sound_laws()
    ensures layout { SoundVtocsHaveLayouts }
{}
