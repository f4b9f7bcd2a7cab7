//! What holds of track texts whatever reads or writes them.

ghost use Rattle.ckd_image.specs.TrackLaws.{OneText, NoTextWhereWrong, OnePlace};

/// A slot spells one track at most, and none where a field is wrong; the first wrong field is one.
pub fn track_laws()
    ensures one { OneText }
    ensures none { NoTextWhereWrong }
    ensures place { OnePlace }
{}
