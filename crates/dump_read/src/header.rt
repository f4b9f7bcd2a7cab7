//! Reading the header of a dump.

ghost use Rattle.std.specs.Prelude.{◌≡◌, IfOk, IfErr};
ghost use Rattle.ckd_image.specs.Bytes.{Begins};
ghost use Rattle.dump_fmt.specs.Head.{IsDumpHead, header_text};
ghost use Rattle.dump_read.specs.Header.{offset_of, why_of, IsHeaderStop};

use crate::fields::{day_in, device_in, fixed_in, kind_in, serial_in, tracks_in, vtoc_in};
use dump_fmt::DumpHead;

/// The fields of a header that may be wrong.
#[derive(Clone, Copy, Debug, PartialEq, Eq)]
pub enum HeaderField {
    Magic,
    Kind,
    Device,
    Serial,
    Tracks,
    Vtoc,
    Zeros,
}

impl HeaderField {
    /// Where the field is in the dump.
    pub fn offset(self) -> u64
        ensures { result ≡ offset_of self }
    {
        match self {
            HeaderField::Magic => 0,
            HeaderField::Kind => 8,
            HeaderField::Device => 9,
            HeaderField::Serial => 10,
            HeaderField::Tracks => 16,
            HeaderField::Vtoc => 24,
            HeaderField::Zeros => 28,
        }
    }

    /// The number of the refusal: 1 the name of the format, 2 kind, 3 device, 4 the rest of the header.
    pub fn why(self) -> u8
        ensures { result ≡ why_of self }
    {
        match self {
            HeaderField::Magic => 1,
            HeaderField::Kind => 2,
            HeaderField::Device => 3,
            _ => 4,
        }
    }
}

/// Why no header is read: a field is wrong, or the bytes end before the header does.
#[derive(Clone, Copy, Debug, PartialEq, Eq)]
pub enum HeaderStop {
    Wrong(HeaderField),
    Cut,
}

/// Reads the header of a dump from its first 32 bytes, or from all where there are fewer.
pub fn read_header(bytes: &[u8]) -> Result<DumpHead, HeaderStop>
    ensures read { IfOk result (λ head. IsDumpHead head × Begins (header_text head) bytes.now) }
    ensures stops { IfErr result (IsHeaderStop bytes.now) }
{
    let rest = fixed_in(HeaderField::Magic, bytes, b"ADRDUMP1")?;
    let (full, rest) = kind_in(rest)?;
    let (device, rest) = device_in(rest)?;
    let (serial, rest) = serial_in(rest)?;
    let (tracks, rest) = tracks_in(device, rest)?;
    let (day, rest) = day_in(rest)?;
    let (vtoc, rest) = vtoc_in(full, tracks, rest)?;
    fixed_in(HeaderField::Zeros, rest, &[0; 4])?;
    Ok(DumpHead {
        full,
        device,
        serial,
        tracks,
        day,
        vtoc,
    })
}
