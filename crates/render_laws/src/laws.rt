//! What holds of a volume whose VTOC was changed as it was planned.

ghost use Rattle.render_laws.specs.Rendered.{RenderedVolumesLoad, MarkedVolumesLoad};

/// The slots that are written load to the volume after the change, and while the format 4 alone is marked to the volume before it.
pub fn render_laws()
    ensures change { RenderedVolumesLoad }
    ensures mark { MarkedVolumesLoad }
{}
