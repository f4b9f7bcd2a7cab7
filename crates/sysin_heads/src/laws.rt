//! What holds of SET and IF whatever reads them.

ghost use Rattle.sysin_heads.specs.Laws.{HeadsAreExact, EachIsOne};

/// They are read exactly, token by token, and tokens are one of them at most.
pub fn head_laws()
    ensures exact { HeadsAreExact }
    ensures one { EachIsOne }
{}
