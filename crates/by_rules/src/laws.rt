//! What holds of days, tokens and criteria whatever reads them.

ghost use Rattle.by_rules.specs.Laws.{OneDay, YearsFollow, TokensCover, EachToken, WordsApart, OneReading, OnePlace, NothingWhereWrong, ReadIsSpelled, SpelledIsRead, ReadIsRight, StoppedIsWrong};

/// The number of a day says which day of the calendar it is.
pub fn day_laws()
    ensures one { OneDay }
    ensures follow { YearsFollow }
{}

/// A text is its tokens, and each word is as long as it can be.
pub fn token_laws()
    ensures cover { TokensCover }
    ensures each { EachToken }
    ensures apart { WordsApart }
{}

/// A text spells one list of criteria at most; one that is refused spells none, and has one place.
pub fn criteria_laws()
    ensures one { OneReading }
    ensures place { OnePlace }
    ensures nothing { NothingWhereWrong }
{}

/// Tokens that are handed in one by one are read exactly where they spell criteria, and the first that is wrong is refused.
pub fn reading_laws()
    ensures spelled { ReadIsSpelled }
    ensures read { SpelledIsRead }
    ensures right { ReadIsRight }
    ensures wrong { StoppedIsWrong }
{}
