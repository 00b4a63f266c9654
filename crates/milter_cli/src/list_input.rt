//! The reading of the lists of a rule file.

use crate::file_error::{FileError, InputFile};
use crate::file_input::read_file;
use milter_rules::{ListFile, ListSource, RuleFault, list_sources};
use milter_wire::{NoMemory, Text};
use std::alloc::Global;
use std::fs::{self, File};
use std::io::ErrorKind;
use std::path::{Path, PathBuf};

/// Where the file of a list is.
#[derive(Drop)]
pub struct ListPath {
    /// The name by which conditions refer to the list.
    pub name: Text,
    /// The path of its file.
    pub path: PathBuf,
}

/// Where the lists are that the rule file at this path names, which has these bytes: a relative path of a list begins
/// in the folder of the rule file. A list whose path isn't UTF-8 is left out; and there is none where the line of a
/// list is at fault, which reading the rules says.
pub fn list_paths(alloc: Global, path: &str, bytes: &[u8]) -> Result<Vec<ListPath>, NoMemory> {
    match list_sources(alloc, bytes) {
        Ok(sources) => paths_of(alloc, path, sources.as_slice()),
        Err(RuleFault::NoMemory) => Err(NoMemory),
        Err(_) => Ok(Vec::new(alloc)),
    }
}

/// Where these lists are, which the rule file at this path names.
fn paths_of(alloc: Global, path: &str, sources: &[ListSource]) -> Result<Vec<ListPath>, NoMemory> {
    let mut paths = Vec::new(alloc);
    for source in sources {
        if let Some(found) = named_path(alloc, path, source)? {
            paths.push(found)?;
        }
    }
    Ok(paths)
}

/// Where the list is, which the rule file at this path names, with its name.
fn named_path(
    alloc: Global,
    path: &str,
    source: &ListSource,
) -> Result<Option<ListPath>, NoMemory> {
    let Some(path) = list_path(alloc, path, source)? else {
        return Ok(None);
    };
    match Text::copy_of(alloc, source.name.as_slice()) {
        Ok(name) => Ok(Some(ListPath { name, path })),
        Err(error) => {
            drop(path);
            Err(error)
        }
    }
}

/// The path of a list that the rule file at this path names; none where it isn't UTF-8.
pub(crate) fn list_path(
    alloc: Global,
    path: &str,
    source: &ListSource,
) -> Result<Option<PathBuf>, NoMemory> {
    let Ok(file) = str::from_utf8(source.file.as_slice()) else {
        return Ok(None);
    };
    let folder = Path::new(path).parent().unwrap_or(Path::new(""));
    Ok(Some(folder.join(alloc, file)?))
}

/// The file of a list, opened; none where the system doesn't open it.
pub fn open_list(files: &HostRuntime, path: Path<'_>) -> Result<Option<File>, NoMemory> {
    match fs::open(files, path) {
        Ok(file) => Ok(Some(file)),
        Err(error) => match error.kind() {
            ErrorKind::OutOfMemory => Err(NoMemory),
            _ => Ok(None),
        },
    }
}

/// All bytes of the open file of a list; none where it isn't read to its end, or has more than 134,217,728 bytes.
pub fn read_list(alloc: Global, file: File) -> Result<Option<Vec<u8>>, NoMemory> {
    match read_file(alloc, InputFile::Rules, file) {
        Ok(bytes) => Ok(Some(bytes)),
        Err(FileError::NoMemory) => Err(NoMemory),
        Err(_) => Ok(None),
    }
}

/// All bytes of the file of a list at this path; none where it isn't opened or not read.
pub(crate) fn read_list_at(
    files: &HostRuntime,
    alloc: Global,
    path: Path<'_>,
) -> Result<Option<Vec<u8>>, NoMemory> {
    match open_list(files, path)? {
        Some(file) => read_list(alloc, file),
        None => Ok(None),
    }
}

/// The files of the lists that the rule file at this path names, which has these bytes. One that can't be read, or that
/// has more than 134,217,728 bytes, is left out.
pub fn read_lists(
    files: &HostRuntime,
    alloc: Global,
    path: &str,
    bytes: &[u8],
) -> Result<Vec<ListFile>, NoMemory> {
    match list_paths(alloc, path, bytes) {
        Ok(paths) => read_lists_at(files, alloc, paths.as_slice()),
        Err(error) => Err(error),
    }
}

/// The files of the lists at these paths, but those that can't be read.
fn read_lists_at(
    files: &HostRuntime,
    alloc: Global,
    paths: &[ListPath],
) -> Result<Vec<ListFile>, NoMemory> {
    let mut lists = Vec::new(alloc);
    for list in paths {
        if let Some(bytes) = read_list_at(files, alloc, list.path.as_path())? {
            lists.push(list_file(alloc, list, bytes)?)?;
        }
    }
    Ok(lists)
}

/// The file of the list, which has these bytes.
pub fn list_file(alloc: Global, list: &ListPath, bytes: Vec<u8>) -> Result<ListFile, NoMemory> {
    match Text::copy_of(alloc, list.name.as_slice()) {
        Ok(name) => Ok(ListFile {
            name,
            bytes: Text::new(bytes),
        }),
        Err(error) => {
            drop(bytes);
            Err(error)
        }
    }
}
