//! Media and reels in memory and over files.

ghost use Rattle.std.specs.Prelude.{◌≡◌, ◌≤◌, [], take, drop, length, vec_len, IfOk, IsErr, Some, None};
ghost use Rattle.dasd_pool.specs.Count.{Rose};

use crate::failures::Failures;
use crate::outside::{Medium, MediumFault, Reel, ReelFault};
use crate::patience::{read_some, sync_file};
use crate::units::{one_more, risen};
use ckd_image::text::put;
use ckd_image::{Bytes, NoMemory};
use std::alloc::Global;
use std::fs::OpenFile;
use std::io::{self, SeekFrom};

/// The calls of an object that are to fail, none of which was made yet.
fn none_made(failing: Vec<u64>) -> Failures
    ensures { result.faults ≡ 0 }
{
    Failures {
        told: failing,
        count: 0,
        faults: 0,
    }
}

/// A medium in memory with room for so many bytes, which tells what it holds, and fails at the calls that it is told.
#[derive(Debug, Drop)]
pub struct MemoryMedium {
    bytes: Vec<u8>,
    count: usize,
    puts: u64,
    finished: bool,
    failures: Failures,
    ghost within: { count ≤ vec_len bytes },
}

impl MemoryMedium {
    /// A medium with room for so many bytes. Its calls are counted from 0, and those with these numbers fail.
    pub fn new(alloc: Global, room: u32, failing: Vec<u64>) -> Result<MemoryMedium, NoMemory>
        ensures empty { IfOk result (λ medium. ⟦<MemoryMedium as Medium>⟧.held medium ≡ Some []) }
        ensures faults { IfOk result (λ medium. ⟦<MemoryMedium as Medium>⟧.faults medium ≡ 0) }
    {
        let bytes = vec![in alloc; 0u8; room as usize]?;
        Ok(MemoryMedium {
            bytes,
            count: 0,
            puts: 0,
            finished: false,
            failures: none_made(failing),
        })
    }

    /// What it holds.
    pub fn text(&self) -> &[u8]
        ensures { ⟦<MemoryMedium as Medium>⟧.held self.now ≡ Some result.now }
    {
        &self.bytes[..self.count]
    }
}

impl Medium for MemoryMedium {
    ghost faults = { λ m. m.failures.faults };

    ghost held = { λ m. Some (take m.count m.bytes.items) };

    ghost puts = { λ m. m.puts };

    ghost finished = { λ m. m.finished };

    fn put(&mut self, piece: &[u8]) -> Result<(), MediumFault> {
        self.puts = one_more(self.puts);
        self.finished = false;
        let full = self.bytes.len() - self.count < piece.len();
        if self.failures.next_fails(full) {
            return Err(MediumFault);
        }
        self.count = put(self.bytes.as_mut_slice(), self.count, piece);
        Ok(())
    }

    fn finish(&mut self) -> Result<(), MediumFault> {
        if self.failures.next_fails(false) {
            return Err(MediumFault);
        }
        self.finished = true;
        Ok(())
    }
}

/// A reel in memory, which tells what it holds and what is left, and fails at the calls that it is told.
#[derive(Debug, Drop)]
pub struct MemoryReel {
    text: Bytes,
    place: usize,
    failures: Failures,
    ghost within: { place ≤ length text },
}

impl MemoryReel {
    /// A reel of this text, at its first byte. Its calls are counted from 0, and those with these numbers fail.
    pub fn new(text: Bytes, failing: Vec<u64>) -> MemoryReel
        ensures held { ⟦<MemoryReel as Reel>⟧.held result ≡ Some text }
        ensures left { ⟦<MemoryReel as Reel>⟧.left result ≡ Some text }
        ensures faults { ⟦<MemoryReel as Reel>⟧.faults result ≡ 0 }
    {
        MemoryReel {
            text,
            place: 0,
            failures: none_made(failing),
        }
    }
}

impl Reel for MemoryReel {
    ghost faults = { λ r. r.failures.faults };

    ghost held = { λ r. Some r.text };

    ghost left = { λ r. Some (drop r.place r.text) };

    fn read(&mut self, buf: &mut [u8]) -> Result<usize, ReelFault> {
        if self.failures.next_fails(false) {
            return Err(ReelFault);
        }
        let left = self.text.as_slice().len() - self.place;
        let count = left.min(buf.len());
        let end = self.place + count;
        put(buf, 0, &self.text.as_slice()[self.place..end]);
        self.place = end;
        Ok(count)
    }

    fn rewind(&mut self) -> Result<(), ReelFault> {
        if self.failures.next_fails(false) {
            return Err(ReelFault);
        }
        self.place = 0;
        Ok(())
    }
}

/// A medium over a file that was made for it, which doesn't tell what it holds. Where it is finished the file is on the disk, and its
/// name too, which its folder has.
#[derive(Debug, Drop)]
pub struct FileMedium<F> {
    file: F,
    folder: F,
    puts: u64,
    finished: bool,
    faults: u64,
}

impl<F: io::Write + OpenFile + Drop> FileMedium<F> {
    pub fn new(file: F, folder: F) -> FileMedium<F>
        ensures { ⟦<FileMedium<F> as Medium>⟧.faults result ≡ 0 }
    {
        FileMedium {
            file,
            folder,
            puts: 0,
            finished: false,
            faults: 0,
        }
    }

    /// Hands on whether a call on a file went well, and counts it where it didn't.
    fn counted(&mut self, done: io::Result<()>) -> Result<(), MediumFault>
        ensures later { self.old.faults ≤ self.new.faults }
        ensures cause { IsErr result → Rose self.old.faults self.new.faults }
        ensures puts { self.new.puts ≡ self.old.puts }
        ensures finished { self.new.finished ≡ self.old.finished }
    {
        match done {
            Ok(()) => Ok(()),
            Err(_) => {
                self.faults = risen(self.faults);
                Err(MediumFault)
            }
        }
    }
}

impl<F: io::Write + OpenFile + Drop> Medium for FileMedium<F> {
    ghost faults = { λ m. m.faults };

    ghost held = { λ _. None };

    ghost puts = { λ m. m.puts };

    ghost finished = { λ m. m.finished };

    fn put(&mut self, piece: &[u8]) -> Result<(), MediumFault> {
        self.puts = one_more(self.puts);
        self.finished = false;
        let done = self.file.write_all(piece);
        self.counted(done)
    }

    fn finish(&mut self) -> Result<(), MediumFault> {
        let done = sync_file(&self.file);
        self.counted(done)?;
        let done = sync_file(&self.folder);
        self.counted(done)?;
        self.finished = true;
        Ok(())
    }
}

/// A reel over a file, which doesn't tell what it holds.
#[derive(Debug, Drop)]
pub struct FileReel<R> {
    reader: R,
    faults: u64,
}

impl<R: io::Read + io::Seek + Drop> FileReel<R> {
    pub fn new(reader: R) -> FileReel<R>
        ensures { ⟦<FileReel<R> as Reel>⟧.faults result ≡ 0 }
    {
        FileReel { reader, faults: 0 }
    }

    /// Counts a call that failed.
    fn fail(&mut self) -> ReelFault
        ensures later { self.old.faults ≤ self.new.faults }
        ensures rises { Rose self.old.faults self.new.faults }
    {
        self.faults = risen(self.faults);
        ReelFault
    }
}

impl<R: io::Read + io::Seek + Drop> Reel for FileReel<R> {
    ghost faults = { λ r. r.faults };

    ghost held = { λ _. None };

    ghost left = { λ _. None };

    fn read(&mut self, buf: &mut [u8]) -> Result<usize, ReelFault> {
        match read_some(&mut self.reader, buf) {
            Ok(count) => Ok(count),
            Err(_) => Err(self.fail()),
        }
    }

    fn rewind(&mut self) -> Result<(), ReelFault> {
        match self.reader.seek(SeekFrom::Start(0)) {
            Ok(_) => Ok(()),
            Err(_) => Err(self.fail()),
        }
    }
}
