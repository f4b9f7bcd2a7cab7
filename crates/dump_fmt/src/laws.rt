//! What holds of the texts of dumps whatever reads or writes them.

ghost use Rattle.dump_fmt.specs.Text.{TextGrows};

/// The text of what stands so far grows piece by piece.
pub fn text_laws()
    ensures { TextGrows }
{}
