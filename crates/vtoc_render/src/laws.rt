//! What holds of changes whatever makes them.

ghost use Rattle.vtoc_render.specs.Loads.{LoadedVolumesLoadFrom};

/// A volume that was loaded from slots may be changed on them.
pub fn loading_laws()
    ensures loads { LoadedVolumesLoadFrom }
{}
