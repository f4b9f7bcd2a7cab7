//! Two pools byte by byte, one in the middle of a slide and one in the middle of a fill, and what they stand for.
#![tactic(auto)]

ghost use Rattle.open_samples.specs.Fill.{ClosedIsOther, ClosedStands, FillStands, FillStandsStill};
ghost use Rattle.open_samples.specs.Slide.{SlideStands, SlideStandsStill};

/// A pool in the middle of a slide stands for the volume after it, whatever is on the tracks that hold nothing.
pub fn open_slide()
    ensures stands { SlideStands }
    ensures still { SlideStandsStill }
{}

/// A pool in the middle of a fill stands for an unfinished volume, whatever is on all tracks but two. With the fill closed it stands for what they say.
pub fn open_fill()
    ensures stands { FillStands }
    ensures still { FillStandsStill }
    ensures closed { ClosedStands }
    ensures other { ClosedIsOther }
{}
