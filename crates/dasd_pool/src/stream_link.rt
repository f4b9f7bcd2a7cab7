//! A connection over a stream.

ghost use Rattle.std.specs.Prelude.{◌≡◌, ◌≤◌, None};

use crate::link::Link;
use crate::outside::{ReadFault, WriteFault};
use crate::patience::{read_some, write_some};
use crate::units::risen;
use std::io;

/// A link over a stream such as a socket, which tells neither what is left nor what it took. A call that was interrupted is made again.
#[derive(Debug, Drop)]
pub struct StreamLink<S> {
    stream: S,
    faults: u64,
}

impl<S: io::Read + io::Write> StreamLink<S> {
    pub fn new(stream: S) -> StreamLink<S>
        ensures { ⟦<StreamLink<S> as Link>⟧.faults result ≡ 0 }
    {
        StreamLink { stream, faults: 0 }
    }

    /// The stream, once the connection is done.
    pub fn into_stream(self) -> S
        ensures { result ≡ self.stream }
    {
        let StreamLink { stream, .. } = self;
        stream
    }
}

impl<S: io::Read + io::Write> Link for StreamLink<S> {
    ghost faults = { λ l. l.faults };

    ghost left = { λ _. None };

    ghost taken = { λ _. None };

    fn receive(&mut self, buf: &mut [u8]) -> Result<usize, ReadFault> {
        match read_some(&mut self.stream, buf) {
            Ok(count) => Ok(count),
            Err(_) => {
                self.faults = risen(self.faults);
                Err(ReadFault)
            }
        }
    }

    fn send(&mut self, piece: &[u8]) -> Result<usize, WriteFault> {
        match write_some(&mut self.stream, piece) {
            Ok(count) if count > 0 || piece.is_empty() => Ok(count),
            _ => {
                self.faults = risen(self.faults);
                Err(WriteFault)
            }
        }
    }
}
