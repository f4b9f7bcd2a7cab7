//! Sources and sinks in memory and over files.

ghost use Rattle.std.specs.Prelude.{◌≡◌, ◌<◌, ◌≤◌, ◌+◌, [], length, drop, IfOk, Some, None};

use crate::outside::{ReadFault, Sink, Source, WriteFault};
use crate::patience::{read_some, write_some};
use crate::units::risen;
use ckd_image::text::put;
use ckd_image::{Bytes, NoMemory};
use std::alloc::Global;
use std::io;

/// A source in memory, which tells what is left, and fails at the calls that it is told.
#[derive(Debug, Drop)]
pub struct MemorySource {
    text: Bytes,
    place: usize,
    failing: Vec<u64>,
    calls: u64,
    faults: u64,
    ghost within: { place ≤ length text },
}

impl MemorySource {
    /// A source of this text. Its reads are counted from 0, and those with these numbers fail.
    pub fn new(text: Bytes, failing: Vec<u64>) -> MemorySource
        ensures left { ⟦<MemorySource as Source>⟧.left result ≡ Some text }
        ensures faults { ⟦<MemorySource as Source>⟧.faults result ≡ 0 }
    {
        MemorySource {
            text,
            place: 0,
            failing,
            calls: 0,
            faults: 0,
        }
    }
}

impl Source for MemorySource {
    ghost faults = { λ s. s.faults };

    ghost left = { λ s. Some (drop s.place s.text) };

    fn read(&mut self, buf: &mut [u8]) -> Result<usize, ReadFault> {
        let call = self.calls;
        self.calls = call.saturating_add(1);
        if self.failing.contains(&call) {
            self.faults = risen(self.faults);
            return Err(ReadFault);
        }
        let left = self.text.as_slice().len() - self.place;
        let count = left.min(buf.len());
        let end = self.place + count;
        put(buf, 0, &self.text.as_slice()[self.place..end]);
        self.place = end;
        Ok(count)
    }
}

/// A sink in memory with room for so many bytes, which tells what it took, and fails at the calls that it is told.
#[derive(Debug, Drop)]
pub struct MemorySink {
    taken: Vec<u8>,
    room: usize,
    failing: Vec<u64>,
    calls: u64,
    faults: u64,
}

impl MemorySink {
    /// A sink with room for so many bytes. Its writes are counted from 0, and those with these numbers fail.
    pub fn new(alloc: Global, room: u32, failing: Vec<u64>) -> Result<MemorySink, NoMemory>
        ensures empty { IfOk result (λ sink. ⟦<MemorySink as Sink>⟧.taken sink ≡ Some []) }
        ensures faults { IfOk result (λ sink. ⟦<MemorySink as Sink>⟧.faults sink ≡ 0) }
    {
        let taken = Vec::with_capacity(alloc, room as usize)?;
        Ok(MemorySink {
            taken,
            room: room as usize,
            failing,
            calls: 0,
            faults: 0,
        })
    }

    /// What it took so far.
    pub fn text(&self) -> &[u8]
        ensures { ⟦<MemorySink as Sink>⟧.taken self.now ≡ Some result.now }
    {
        self.taken.as_slice()
    }
}

impl Sink for MemorySink {
    ghost faults = { λ s. s.faults };

    ghost taken = { λ s. Some s.taken.items };

    fn write(&mut self, piece: &[u8]) -> Result<usize, WriteFault> {
        let call = self.calls;
        self.calls = call.saturating_add(1);
        let count = piece.len().min(self.room.saturating_sub(self.taken.len()));
        let fails = self.failing.contains(&call) || (count == 0 && !piece.is_empty());
        if fails || self.taken.extend_from_slice(&piece[..count]).is_err() {
            self.faults = risen(self.faults);
            return Err(WriteFault);
        }
        Ok(count)
    }
}

/// A source over a reader such as a file, which doesn't tell what is left.
#[derive(Debug, Drop)]
pub struct FileSource<R> {
    reader: R,
    faults: u64,
}

impl<R: io::Read> FileSource<R> {
    pub fn new(reader: R) -> FileSource<R>
        ensures { ⟦<FileSource<R> as Source>⟧.faults result ≡ 0 }
    {
        FileSource { reader, faults: 0 }
    }
}

impl<R: io::Read> Source for FileSource<R> {
    ghost faults = { λ s. s.faults };

    ghost left = { λ _. None };

    fn read(&mut self, buf: &mut [u8]) -> Result<usize, ReadFault> {
        match read_some(&mut self.reader, buf) {
            Ok(count) => Ok(count),
            Err(_) => {
                self.faults = risen(self.faults);
                Err(ReadFault)
            }
        }
    }
}

/// A sink over a writer such as a file, which doesn't tell what it took.
#[derive(Debug, Drop)]
pub struct FileSink<W> {
    writer: W,
    faults: u64,
}

impl<W: io::Write> FileSink<W> {
    pub fn new(writer: W) -> FileSink<W>
        ensures { ⟦<FileSink<W> as Sink>⟧.faults result ≡ 0 }
    {
        FileSink { writer, faults: 0 }
    }
}

impl<W: io::Write> Sink for FileSink<W> {
    ghost faults = { λ s. s.faults };

    ghost taken = { λ _. None };

    fn write(&mut self, piece: &[u8]) -> Result<usize, WriteFault> {
        match write_some(&mut self.writer, piece) {
            Ok(count) if count > 0 || piece.is_empty() => Ok(count),
            _ => {
                self.faults = risen(self.faults);
                Err(WriteFault)
            }
        }
    }
}
