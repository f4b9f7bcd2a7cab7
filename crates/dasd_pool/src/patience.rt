//! Calls that are made again where they were interrupted, or would have waited.

ghost use Rattle.std.specs.Prelude.{◌≤◌, length, IfOk};

use std::fs::OpenFile;
use std::io;

/// Whether a call that failed so is made again.
fn is_passing(error: &io::Error) -> bool {
    matches!(
        error.kind(),
        io::ErrorKind::Interrupted | io::ErrorKind::WouldBlock
    )
}

/// What is said where a call was made often enough.
fn too_often() -> io::Error {
    io::Error::from(io::ErrorKind::TimedOut)
}

/// Reads some bytes to the front of a buffer.
pub(crate) fn read_some<R: io::Read>(reader: &mut R, buf: &mut [u8]) -> io::Result<usize>
    ensures { IfOk result (λ count. count ≤ length buf.new) }
{
    for _ in 0..u32::MAX {
        match reader.read(buf) {
            Err(error) if is_passing(&error) => {}
            done => return done,
        }
    }
    Err(too_often())
}

/// Writes a front of a piece.
pub(crate) fn write_some<W: io::Write>(writer: &mut W, piece: &[u8]) -> io::Result<usize>
    ensures { IfOk result (λ count. count ≤ length piece.now) }
{
    for _ in 0..u32::MAX {
        match writer.write(piece) {
            Err(error) if is_passing(&error) => {}
            done => return done,
        }
    }
    Err(too_often())
}

/// Syncs a file.
pub(crate) fn sync_file<F: OpenFile>(file: &F) -> io::Result<()> {
    for _ in 0..u32::MAX {
        match file.sync_all() {
            Err(error) if is_passing(&error) => {}
            done => return done,
        }
    }
    Err(too_often())
}
