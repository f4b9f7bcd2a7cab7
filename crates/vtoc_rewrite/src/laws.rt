//! What holds of a VTOC whose tracks are written anew.

ghost use Rattle.vtoc_rewrite.specs.Rewrite.{RewrittenVtocsStand, OneReading};

/// The slots read as the VTOC with the edits made, and slots read as one VTOC at most.
pub fn rewrite_laws()
    ensures stands { RewrittenVtocsStand }
    ensures one { OneReading }
{}
