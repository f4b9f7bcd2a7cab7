//! What holds of texts whatever reads them.

ghost use Rattle.sysin_read.specs.Laws.{TextsAreExact, TextsAreOne, TextsAreNotRefused, TextsAreRefusedOnce};

/// They are read exactly, token by token. Tokens are one text at most, and where they are none they are refused at one place and for one reason.
pub fn text_laws()
    ensures exact { TextsAreExact }
    ensures one { TextsAreOne }
    ensures apart { TextsAreNotRefused }
    ensures refused { TextsAreRefusedOnce }
{}
