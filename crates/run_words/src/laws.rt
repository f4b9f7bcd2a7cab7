//! What is so of any words.

ghost use Rattle.run_words.specs.Laws.{HaveOneRun};

/// Words ask for one run at most.
pub fn one_run()
    ensures { HaveOneRun }
{}
