//! What holds of journals, whatever opens or makes them.

ghost use Rattle.redo_core.specs.Laws.{OnlyFaultsRefuse, OnlyFaultsRefuseMaking, LawfulIsControlBlock};

/// A journal against which nothing stands is opened, unless the pool fails or memory runs out.
pub fn opening_laws()
    ensures { OnlyFaultsRefuse }
{}

/// A journal against which nothing stands is made, unless the pool fails or memory runs out.
pub fn making_laws()
    ensures { OnlyFaultsRefuseMaking }
{}

/// What `Entries::push_control` adds for a lawful control may be committed.
pub fn control_laws()
    ensures { LawfulIsControlBlock }
{}
