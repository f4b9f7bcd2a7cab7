//! The bytes with which pieces and the trailer begin.

ghost use Rattle.std.specs.Prelude.{◌≡◌, ◌≢◌, IfSome, IfNone};
ghost use Rattle.dump_read.specs.Marks.{byte_of};
ghost use Rattle.dump_read.specs.declared.mark.Mark.{Mark as MarkOf};

/// What stands next in a dump.
#[derive(Clone, Copy, Debug, PartialEq, Eq)]
pub enum Mark {
    Part,
    Track,
    PartEnd,
    Dropped,
    Slot,
    Trailer,
}

impl Mark {
    /// The mark of a byte.
    pub fn of(byte: u8) -> Option<Mark>
        ensures found { IfSome result (λ mark. byte_of mark ≡ byte) }
        ensures none { IfNone result ((mark : MarkOf) → byte_of mark ≢ byte) }
    {
        match byte {
            0x50 => Some(Mark::Part),
            0x01 => Some(Mark::Track),
            0x00 => Some(Mark::PartEnd),
            0xff => Some(Mark::Dropped),
            0x54 => Some(Mark::Slot),
            0x5a => Some(Mark::Trailer),
            _ => None,
        }
    }
}
