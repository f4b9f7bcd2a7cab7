//! What holds of names and patterns whatever reads them.

ghost use Rattle.dsn_filter.specs.Laws.{OneSpelling, OnePattern, OneName, OnePlace, OnePatternPlace, OneRename};

/// A text has one reading, or one place at which it is wrong; a rename makes one name of a name.
pub fn name_laws()
    ensures spelling { OneSpelling }
    ensures pattern { OnePattern }
    ensures name { OneName }
    ensures place { OnePlace }
    ensures pattern_place { OnePatternPlace }
    ensures rename { OneRename }
{}
