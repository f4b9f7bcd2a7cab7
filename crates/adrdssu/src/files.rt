//! The files of a run, each held by a lock while the run lives.

use crate::say::say_file;
use adr_top::UnitPaths;
use dasd_pool::FilePool;
use std::fs::{File, OpenOptions};
use std::io;
use std::path::Path;

/// For reading and writing.
pub fn both() -> OpenOptions {
    let mut options = File::options();
    options.read(true).write(true);
    options
}

/// Opens a file for reading and writing, and holds it alone.
pub fn open_alone(rt: &HostRuntime, path: &str) -> io::Result<File> {
    let file = both().open(rt, path)?;
    file.try_lock()?;
    Ok(file)
}

/// Opens a file for reading, and holds it against those that would write it.
fn open_shared(rt: &HostRuntime, path: &str) -> io::Result<File> {
    let file = File::open(rt, path)?;
    file.try_lock_shared()?;
    Ok(file)
}

/// The folder of a file.
pub fn folder_of(rt: &HostRuntime, path: &str) -> io::Result<File> {
    let folder = match Path::new(path).parent() {
        Some(folder) if !folder.as_str().is_empty() => folder,
        _ => Path::new("."),
    };
    File::open(rt, folder)
}

/// Adds a volume's file as the pool's next unit: for reading and writing, or for reading alone where it may not be written.
fn add_volume(rt: &HostRuntime, pool: &mut FilePool<File>, path: &str) -> io::Result<()> {
    match open_alone(rt, path) {
        Err(error) if is_read_only(error.kind()) => {
            let file = named(rt, path, open_shared(rt, path))?;
            named(rt, path, pool.add_read_only(file))
        }
        opened => add(rt, pool, path, opened),
    }
}

fn is_read_only(kind: io::ErrorKind) -> bool {
    matches!(
        kind,
        io::ErrorKind::PermissionDenied | io::ErrorKind::ReadOnlyFilesystem
    )
}

/// Hands on what a call on a file gave, and says on standard error why it failed.
pub fn named<T>(rt: &HostRuntime, path: &str, done: io::Result<T>) -> io::Result<T> {
    if let Err(error) = &done {
        say_file(rt, path, error);
    }
    done
}

/// A pool whose first units are these volumes.
pub fn open_volumes(rt: &HostRuntime, units: &UnitPaths) -> io::Result<FilePool<File>> {
    let mut pool = FilePool::new(rt.alloc());
    for (_, path) in units.as_slice() {
        add_volume(rt, &mut pool, path.as_str())?;
    }
    Ok(pool)
}

/// Adds a file as the pool's next unit.
pub fn add(
    rt: &HostRuntime,
    pool: &mut FilePool<File>,
    path: &str,
    opened: io::Result<File>,
) -> io::Result<()> {
    let file = named(rt, path, opened)?;
    named(rt, path, pool.add(file))
}
