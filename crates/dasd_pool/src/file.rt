//! A pool over seekable files, which doesn't tell what it holds.

ghost use Rattle.std.specs.Prelude.{◌≡◌, ◌+◌, ◌<◌, ◌≤◌, ◌^◌, true, false, All, IfOk, OnOk, length, map, slice_index_or, vec_len};
ghost use Rattle.dasd_pool.specs.Count.{Rose};
ghost use Rattle.dasd_pool.specs.Files.{shape_of_files, untold};

use crate::file_unit::FileUnit;
use crate::patience::sync_file;
use crate::pool::{Pool, PoolFault};
use crate::units::{block_count, risen, said_size};
use std::alloc::Global;
use std::fs::OpenFile;
use std::io::{self, Read, Seek, SeekFrom, Write};

/// Where the blocks begin in a file.
const HEAD: u64 = 512;

/// Why a call of a pool over files failed: the unit whose file it was, and the system's reason.
#[derive(Debug, Drop)]
pub struct FileFailure {
    pub unit: u32,
    pub reason: io::Error,
}

/// A unit's file, and whether it was opened or written since it was last synced: what an earlier run wrote may not be synced either.
#[derive(Debug, Drop)]
struct UnitFile<F> {
    file: F,
    unsynced: bool,
}

/// A pool over files, one for each unit: a head of 512 bytes, and then blocks.
#[derive(Debug, Drop)]
pub struct FilePool<F> {
    files: Vec<UnitFile<F>>,
    units: Vec<FileUnit>,
    faults: u64,
    failure: Option<FileFailure>,
    ghost together: { vec_len files ≡ vec_len units },
    ghost few: { vec_len units < 2 ^ 32 },
}

/// Reads a file's head and finds how many blocks it has. A file that is shorter than a head is filled up with zeros.
fn unit_of<F: Read + Seek>(file: &mut F, may_write: bool) -> io::Result<FileUnit>
    ensures { IfOk result (λ unit. unit.may_write ≡ may_write) }
{
    let end = file.seek(SeekFrom::End(0))?;
    file.seek(SeekFrom::Start(0))?;
    let mut head = [0; 512];
    let present = end.min(HEAD) as usize;
    file.read_exact(&mut head[..present])?;
    let size = said_size(&head);
    let count = block_count(end.saturating_sub(HEAD) as usize, size);
    Ok(FileUnit {
        head,
        size,
        count,
        may_write,
    })
}

fn seek_block<F: Seek>(file: &mut F, block: u32, size: usize) -> io::Result<()> {
    let start = u64::from(block)
        .saturating_mul(size as u64)
        .saturating_add(HEAD);
    file.seek(SeekFrom::Start(start))?;
    Ok(())
}

fn read_block<F: Read + Seek>(file: &mut F, block: u32, buf: &mut [u8]) -> io::Result<()> {
    seek_block(file, block, buf.len())?;
    file.read_exact(buf)
}

fn write_block<F: Write + Seek>(file: &mut F, block: u32, buf: &[u8]) -> io::Result<()> {
    seek_block(file, block, buf.len())?;
    file.write_all(buf)
}

impl<F: OpenFile> UnitFile<F> {
    /// Syncs the file, unless it is synced.
    fn sync(&mut self) -> io::Result<()>
        ensures { OnOk result (self.new.unsynced ≡ false) }
    {
        if self.unsynced {
            sync_file(&self.file)?;
            self.unsynced = false;
        }
        Ok(())
    }
}

/// Syncs the files up to the first that fails.
fn sync_files<F: OpenFile>(files: &mut [UnitFile<F>]) -> Result<(), FileFailure>
    requires { length files.old < 2 ^ 32 }
    ensures long { length files.new ≡ length files.old }
    ensures synced { OnOk result (All (λ it. it.unsynced ≡ false) files.new) }
{
    for unit in 0..files.len() {
        if let Err(reason) = files[unit].sync() {
            let unit = unit as u32;
            return Err(FileFailure { unit, reason });
        }
    }
    Ok(())
}

impl<F: Read + Write + Seek + OpenFile + Drop> FilePool<F> {
    /// A pool without units.
    pub fn new(alloc: Global) -> FilePool<F>
        ensures { (⟦<FilePool<F> as Pool>⟧.shape result).units ≡ 0 }
    {
        FilePool {
            files: Vec::new(alloc),
            units: Vec::new(alloc),
            faults: 0,
            failure: None,
        }
    }

    /// The last call that failed.
    pub fn failure(&self) -> Option<&FileFailure> {
        self.failure.as_ref()
    }

    /// Counts a call that failed, and keeps why.
    fn fail(&mut self, failure: FileFailure) -> PoolFault
        ensures later { self.old.faults ≤ self.new.faults }
        ensures rises { Rose self.old.faults self.new.faults }
        ensures units { self.new.units ≡ self.old.units }
    {
        self.faults = risen(self.faults);
        self.failure = Some(failure);
        PoolFault
    }

    /// Adds a file that was opened for reading and writing as the next unit; on `Err` the pool is as it was.
    pub fn add(&mut self, file: F) -> io::Result<()>
        ensures more { OnOk result ((⟦<FilePool<F> as Pool>⟧.shape self.new).units ≡ (⟦<FilePool<F> as Pool>⟧.shape self.old).units + 1) }
        ensures may { OnOk result ((⟦<FilePool<F> as Pool>⟧.shape self.new).may_write (⟦<FilePool<F> as Pool>⟧.shape self.old).units ≡ true) }
        ensures count { ⟦<FilePool<F> as Pool>⟧.faults self.new ≡ ⟦<FilePool<F> as Pool>⟧.faults self.old }
    {
        self.add_unit(file, true)
    }

    /// Adds a file that was opened for reading alone as the next unit; on `Err` the pool is as it was.
    pub fn add_read_only(&mut self, file: F) -> io::Result<()>
        ensures more { OnOk result ((⟦<FilePool<F> as Pool>⟧.shape self.new).units ≡ (⟦<FilePool<F> as Pool>⟧.shape self.old).units + 1) }
        ensures may { OnOk result ((⟦<FilePool<F> as Pool>⟧.shape self.new).may_write (⟦<FilePool<F> as Pool>⟧.shape self.old).units ≡ false) }
        ensures count { ⟦<FilePool<F> as Pool>⟧.faults self.new ≡ ⟦<FilePool<F> as Pool>⟧.faults self.old }
    {
        self.add_unit(file, false)
    }

    /// Adds a file, which isn't known to be synced.
    fn add_unit(&mut self, file: F, may_write: bool) -> io::Result<()>
        ensures more { OnOk result ((⟦<FilePool<F> as Pool>⟧.shape self.new).units ≡ (⟦<FilePool<F> as Pool>⟧.shape self.old).units + 1) }
        ensures may { OnOk result ((⟦<FilePool<F> as Pool>⟧.shape self.new).may_write (⟦<FilePool<F> as Pool>⟧.shape self.old).units ≡ may_write) }
        ensures unsynced { OnOk result (slice_index_or (map (λ it. it.unsynced) self.new.files.items) (vec_len self.old.files) false ≡ true) }
        ensures count { ⟦<FilePool<F> as Pool>⟧.faults self.new ≡ ⟦<FilePool<F> as Pool>⟧.faults self.old }
    {
        let mut file = file;
        if self.units.len() >= u32::MAX as usize {
            return Err(io::Error::from(io::ErrorKind::OutOfMemory));
        }
        let unit = unit_of(&mut file, may_write)?;
        self.units.push(unit)?;
        let unsynced = true;
        match self.files.push(UnitFile { file, unsynced }) {
            Ok(()) => Ok(()),
            Err(full) => {
                self.units.pop();
                Err(full.into())
            }
        }
    }
}

impl<F: Read + Write + Seek + OpenFile + Drop> Pool for FilePool<F> {
    ghost shape = { λ p. shape_of_files p.units.items };

    ghost faults = { λ p. p.faults };

    ghost tells = { ⊥ };

    ghost disk = { λ _. untold };

    fn units(&self) -> u32 {
        self.units.len() as u32
    }

    fn head(&self, unit: u32) -> [u8; 512] {
        self.units[unit as usize].head
    }

    fn block_size(&self, unit: u32) -> u32 {
        self.units[unit as usize].size
    }

    fn sizes(&self) {}

    fn blocks(&self, unit: u32) -> u32 {
        self.units[unit as usize].count
    }

    fn read(&mut self, unit: u32, block: u32, buf: &mut [u8]) -> Result<(), PoolFault> {
        match read_block(&mut self.files[unit as usize].file, block, buf) {
            Ok(()) => Ok(()),
            Err(reason) => Err(self.fail(FileFailure { unit, reason })),
        }
    }

    fn ask_to_write(&mut self, unit: u32) -> Result<(), PoolFault> {
        if self.units[unit as usize].may_write {
            return Ok(());
        }
        let reason = io::Error::from(io::ErrorKind::PermissionDenied);
        Err(self.fail(FileFailure { unit, reason }))
    }

    fn write(&mut self, unit: u32, block: u32, buf: &[u8]) -> Result<(), PoolFault> {
        let it = &mut self.files[unit as usize];
        it.unsynced = true;
        match write_block(&mut it.file, block, buf) {
            Ok(()) => Ok(()),
            Err(reason) => Err(self.fail(FileFailure { unit, reason })),
        }
    }

    fn sync(&mut self) -> Result<(), PoolFault> {
        match sync_files(self.files.as_mut_slice()) {
            Ok(()) => Ok(()),
            Err(failure) => Err(self.fail(failure)),
        }
    }
}
