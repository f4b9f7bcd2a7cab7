//! What holds of values whatever reads them.

ghost use Rattle.sysin_values.specs.Values.{SaysSerial, SaysDdName, SaysPattern, SaysName, SaysPrefix};
ghost use Rattle.sysin_values.specs.Laws.{SaysOne, NumberIsOne, PatternsAreExact, PatternsTellWhy, OutputsAreExact, OutputsTellWhy, PairsAreExact, PairsTellWhy, NamesAreExact, NamesTellWhy, WaitIsExact, WaitTellsWhy, CriteriaAreExact, EachIsOne, EachEnds};

/// A word says one value of a kind at most.
pub fn word_laws()
    ensures serial { SaysOne SaysSerial }
    ensures dd_name { SaysOne SaysDdName }
    ensures pattern { SaysOne SaysPattern }
    ensures name { SaysOne SaysName }
    ensures prefix { SaysOne SaysPrefix }
    ensures number { NumberIsOne }
{}

/// Lists of words are read exactly, token by token, and a refusal tells why.
pub fn list_laws()
    ensures patterns { PatternsAreExact }
    ensures patterns_why { PatternsTellWhy }
    ensures outputs { OutputsAreExact }
    ensures outputs_why { OutputsTellWhy }
{}

/// So are pairs of names, and new names.
pub fn name_laws()
    ensures pairs { PairsAreExact }
    ensures pairs_why { PairsTellWhy }
    ensures names { NamesAreExact }
    ensures names_why { NamesTellWhy }
{}

/// So are the numbers of WAIT, and criteria; tokens say one value of a kind at most, and a bracket ends it.
pub fn other_laws()
    ensures wait { WaitIsExact }
    ensures wait_why { WaitTellsWhy }
    ensures criteria { CriteriaAreExact }
    ensures one { EachIsOne }
    ensures ends { EachEnds }
{}
