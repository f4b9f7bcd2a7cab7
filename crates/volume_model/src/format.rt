//! The format of a VTOC record.

ghost use Rattle.std.specs.Prelude.{◌≡◌};
ghost use Rattle.volume_model.specs.Dscbs.{format_of};

use dscb_rec::{Dscb, read_dscb};

/// The formats of a VTOC record, and a record that is no DSCB.
#[derive(Clone, Copy, Debug, PartialEq, Eq)]
pub enum Format {
    Broken,
    Free,
    F1,
    F3,
    F4,
    F5,
}

impl Format {
    /// The format of the 140 bytes of a record.
    pub fn of(bytes: &[u8; 140]) -> Format
        ensures { result ≡ format_of bytes.now }
    {
        match read_dscb(bytes) {
            Ok(Dscb::Free) => Format::Free,
            Ok(Dscb::F1(_)) => Format::F1,
            Ok(Dscb::F3(_)) => Format::F3,
            Ok(Dscb::F4(_)) => Format::F4,
            Ok(Dscb::F5(_)) => Format::F5,
            Err(_) => Format::Broken,
        }
    }
}
