//! What holds of operands whatever reads them.

ghost use Rattle.sysin_operands.specs.Laws.{ContentsAreExact, ContentsTellWhy, ContentsAreOne, ContentsEnd, OperandsAreExact, OperandsAreOne, OperandsEnd};

/// What stands in brackets is read exactly, token by token; tokens say one operand at most, and a bracket ends it.
pub fn content_laws()
    ensures exact { ContentsAreExact }
    ensures why { ContentsTellWhy }
    ensures one { ContentsAreOne }
    ensures ends { ContentsEnd }
{}

/// So are operands, and no token goes on with one.
pub fn operand_laws()
    ensures exact { OperandsAreExact }
    ensures one { OperandsAreOne }
    ensures ends { OperandsEnd }
{}
