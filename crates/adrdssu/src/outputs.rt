//! The files of a run's outputs. Each is made new, or is there and empty; any other file stays as it is.

use crate::files::{both, folder_of, named};
use adr_top::{DdName, DdPaths};
use std::fs::File;
use std::io;

/// The file of an output, which this run holds alone.
fn output_file(rt: &HostRuntime, path: &str) -> io::Result<File> {
    let file = match both().create_new(true).open(rt, path) {
        Err(error) if error.kind() == io::ErrorKind::AlreadyExists => both().open(rt, path),
        made => made,
    }?;
    file.try_lock()?;
    let about = file.metadata()?;
    if !about.is_file() || about.len() > 0 {
        return Err(io::Error::from(io::ErrorKind::AlreadyExists));
    }
    Ok(file)
}

/// The file of an output, and the folder in which it is.
#[derive(Drop)]
pub struct OutputFile {
    pub name: DdName,
    pub file: File,
    pub folder: File,
}

fn output(rt: &HostRuntime, name: DdName, path: &str) -> io::Result<OutputFile> {
    let file = output_file(rt, path)?;
    let folder = folder_of(rt, path)?;
    Ok(OutputFile { name, file, folder })
}

/// The files of a run's outputs, in the order of its words.
pub fn open_outputs(rt: &HostRuntime, dds: &DdPaths) -> io::Result<Vec<OutputFile>> {
    let mut files = Vec::new(rt.alloc());
    for (name, path) in dds.as_slice() {
        let path = path.as_str();
        files.push(named(rt, path, output(rt, *name, path))?)?;
    }
    Ok(files)
}
