//! The file of a journal, which comes to be whole or not at all. No other file is removed for it.

use crate::files::{both, folder_of, open_alone};
use redo_core::journal_head;
use std::fs::{self, File};
use std::io::{self, Read, Write};
use std::os::unix::fs::MetadataExt;
use std::path::Path;

/// The bytes of a block.
const BLOCK: usize = 65_536;

/// The blocks of the largest journal.
const MOST_BLOCKS: u32 = 8_195;

/// What the name of a journal that is being made ends with.
const MAKING: &str = "adrdssu-new";

/// A journal's file, and its path where this run made it.
#[derive(Drop)]
pub struct JournalFile {
    pub file: File,
    pub made: Option<String>,
}

/// What stands at a path, held by this run.
#[derive(Drop)]
enum AtPath {
    Nothing,
    Empty(File),
    Journal(File),
}

/// Opens the file for a journal. Where there is none, or an empty one, one with so much room is made, at the end of a path's links.
pub fn journal_file(rt: &HostRuntime, path: &str, room: u32) -> io::Result<JournalFile> {
    if let AtPath::Journal(file) = present(rt, path)? {
        let name = making_name(rt, path)?;
        take_back(rt, Path::new(name.as_str()), &file)?; // the other name of one that a stopped run made
        return Ok(JournalFile { file, made: None });
    }
    let path = match fs::canonicalize(rt, path) {
        Ok(path) => path.into_string(),
        Err(_) => String::from_str(rt.alloc(), path)?,
    };
    make(rt, path, room)
}

/// The file at a path.
fn present(rt: &HostRuntime, path: &str) -> io::Result<AtPath> {
    match open_alone(rt, path) {
        Ok(file) => {
            let about = file.metadata()?;
            Ok(if about.is_file() && about.len() == 0 {
                AtPath::Empty(file)
            } else {
                AtPath::Journal(file)
            })
        }
        Err(error) if error.kind() == io::ErrorKind::NotFound => Ok(AtPath::Nothing),
        Err(error) => Err(error),
    }
}

/// The name that the file of a journal has while it is made.
fn making_name(rt: &HostRuntime, path: &str) -> io::Result<String> {
    Ok(format!(in rt.alloc(); "{path}.{MAKING}")?)
}

/// Makes the file under another name in its folder, unless another run was faster, and then gives it its name.
fn make(rt: &HostRuntime, path: String, room: u32) -> io::Result<JournalFile> {
    let name = making_name(rt, path.as_str())?;
    let making = Path::new(name.as_str());
    let mut file = new_file(rt, making)?;
    let placed = match present(rt, path.as_str()) {
        Ok(AtPath::Journal(other)) => {
            take_back(rt, making, &file)?;
            return Ok(JournalFile {
                file: other,
                made: None,
            });
        }
        Ok(AtPath::Empty(empty)) => {
            fill(&mut file, room).and_then(|()| replace(rt, making, path.as_str(), &empty))
        }
        Ok(AtPath::Nothing) => {
            fill(&mut file, room).and_then(|()| add_name(rt, making, path.as_str(), &file))
        }
        Err(error) => Err(error),
    };
    match placed.and_then(|()| sync_folder(rt, path.as_str())) {
        Ok(()) => Ok(JournalFile {
            file,
            made: Some(path),
        }),
        Err(error) => {
            let _ = take_back(rt, making, &file);
            let _ = take_back(rt, Path::new(path.as_str()), &file);
            Err(error)
        }
    }
}

/// Removes a name, where it is one of this file.
pub fn take_back(rt: &HostRuntime, path: Path<'_>, file: &File) -> io::Result<()> {
    let Ok(found) = fs::symlink_metadata(rt, path) else {
        return Ok(());
    };
    let own = file.metadata()?;
    if found.dev() == own.dev() && found.ino() == own.ino() {
        return fs::remove_file(rt, path);
    }
    Ok(())
}

/// A new file that this run holds. One of the name that no run holds goes, where a run that was stopped can have left it.
fn new_file(rt: &HostRuntime, path: Path<'_>) -> io::Result<File> {
    let made = match both().create_new(true).open(rt, path) {
        Err(error) if error.kind() == io::ErrorKind::AlreadyExists => {
            let mut left = open_alone(rt, path.as_str())?;
            if !is_unfinished(&mut left)? {
                return Err(error);
            }
            take_back(rt, path, &left)?;
            both().create_new(true).open(rt, path)
        }
        made => made,
    };
    let file = made?;
    file.try_lock()?;
    Ok(file)
}

/// Whether a file holds no more than a front of what a journal is made of: its head, and zeros.
fn is_unfinished(file: &mut File) -> io::Result<bool> {
    let mut block = [0; BLOCK];
    let count = file.read(&mut block[..512])?;
    if block[..count] != journal_head()[..count] {
        return Ok(false);
    }
    for _ in 0..=MOST_BLOCKS {
        let count = file.read(&mut block)?;
        if count == 0 {
            return Ok(true);
        }
        if block[..count].iter().any(|byte| *byte != 0) {
            return Ok(false);
        }
    }
    Ok(false)
}

/// Writes the head of a journal and its blocks of zeros, so that their room on the disk is taken, and syncs them.
fn fill(file: &mut File, room: u32) -> io::Result<()> {
    let zeros = [0; BLOCK];
    file.write_all(&journal_head())?;
    for _ in 0..room.saturating_add(4) {
        file.write_all(&zeros)?;
    }
    file.sync_all()
}

/// Gives a file the name of an empty one, which this run holds, and its mode.
fn replace(rt: &HostRuntime, making: Path<'_>, path: &str, empty: &File) -> io::Result<()> {
    let about = empty.metadata()?;
    if about.len() > 0 {
        return Err(io::Error::from(io::ErrorKind::AlreadyExists));
    }
    fs::set_permissions(rt, making, about.permissions())?;
    fs::rename(rt, making, path)
}

/// Gives a file its name, which no file has, in place of the one under which it was made. A rename would take the place of a file that came
/// there meanwhile, so it is done only where the file system has no links.
fn add_name(rt: &HostRuntime, making: Path<'_>, path: &str, file: &File) -> io::Result<()> {
    match fs::hard_link(rt, making, path) {
        Ok(()) => take_back(rt, making, file),
        Err(error) if is_without_links(error.kind()) => fs::rename(rt, making, path),
        Err(error) => Err(error),
    }
}

fn is_without_links(kind: io::ErrorKind) -> bool {
    matches!(
        kind,
        io::ErrorKind::PermissionDenied | io::ErrorKind::Unsupported
    )
}

fn sync_folder(rt: &HostRuntime, path: &str) -> io::Result<()> {
    folder_of(rt, path)?.sync_all()
}
