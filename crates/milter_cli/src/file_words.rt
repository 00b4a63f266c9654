//! What is said of files that can't be read.

use crate::file_error::{FileError, InputFile};
use crate::file_input::{FILE_MAX, read_file};
use milter_text::put_escaped;
use milter_wire::NoMemory;
use std::alloc::Global;
use std::fs;
use std::io::ErrorKind;
use std::path::Path;

/// Why the file at this path can't be read, and what to do.
pub(crate) fn unread_reason(files: &HostRuntime, path: Path<'_>) -> &'static str {
    match fs::metadata(files, path) {
        Ok(found) if found.is_dir() => "is a folder, and a file is due",
        Ok(found) if found.len() > FILE_MAX => "has more than 134,217,728 bytes",
        Ok(found) if found.is_file() => unopened_reason(files, path),
        Ok(_) => "isn't read to an end, or has more than 134,217,728 bytes",
        Err(error) => missing_reason(files, path, error.kind()),
    }
}

/// The same of a file of any size, which is read piece by piece.
pub(crate) fn unstreamed_reason(files: &HostRuntime, path: Path<'_>) -> &'static str {
    match fs::metadata(files, path) {
        Ok(found) if found.is_dir() => "is a folder, and a file is due",
        Ok(found) if found.is_file() => unopened_reason(files, path),
        Ok(_) => "isn't read to an end",
        Err(error) => missing_reason(files, path, error.kind()),
    }
}

/// Why the file at this path, which is there, can't be read.
fn unopened_reason(files: &HostRuntime, path: Path<'_>) -> &'static str {
    match fs::open(files, path) {
        Ok(_) => "could not be read, and now can be opened: try again",
        Err(error) => kind_reason(error.kind()),
    }
}

/// Why there is no file at this path, for which the system answers so.
fn missing_reason(files: &HostRuntime, path: Path<'_>, kind: ErrorKind) -> &'static str {
    if kind == ErrorKind::NotFound && !has_folder(files, path) {
        "no such folder: its path begins in the folder where the program is started, or with /"
    } else {
        kind_reason(kind)
    }
}

/// Why traces can't be recorded in the folder at this path.
pub(crate) fn unmade_reason(files: &HostRuntime, path: Path<'_>) -> &'static str {
    match fs::metadata(files, path) {
        Ok(found) if found.is_dir() => {
            "has traces already, of which none is replaced: move them away, or take another folder"
        }
        Ok(_) => "is a file, and a folder is due",
        Err(error) => match error.kind() {
            ErrorKind::PermissionDenied | ErrorKind::NotFound => {
                "it couldn't be made: the user who runs the program has to be allowed to make the folder"
            }
            kind => kind_reason(kind),
        },
    }
}

/// Whether the folder of this path is there.
pub(crate) fn has_folder(files: &HostRuntime, path: Path<'_>) -> bool {
    match path.parent() {
        Some(folder) if !folder.as_str().is_empty() => folder.is_dir(files),
        _ => true,
    }
}

/// What the system's answer means for a file.
fn kind_reason(kind: ErrorKind) -> &'static str {
    match kind {
        ErrorKind::NotFound => {
            "no such file: its path begins in the folder where the program is started, or with /"
        }
        ErrorKind::PermissionDenied => {
            "permission denied: the user who runs the program has to be allowed to read it"
        }
        ErrorKind::NotADirectory => "a part of the path is a file, where a folder is due",
        ErrorKind::IsADirectory => "is a folder, and a file is due",
        ErrorKind::FilesystemLoop => "the links of the path go in a circle",
        ErrorKind::InvalidFilename => "the name is too long",
        ErrorKind::InvalidInput => "a path has no NUL",
        _ => "the system doesn't read it",
    }
}

/// The bytes of the file at this path, read again; none where it is no regular file, or can't be read any more. A pipe
/// isn't read again, since its bytes come once.
pub(crate) fn bytes_again(
    files: &HostRuntime,
    alloc: Global,
    file: InputFile,
    path: &str,
) -> Result<Option<Vec<u8>>, NoMemory> {
    match fs::metadata(files, path) {
        Ok(found) if found.is_file() => {}
        Ok(_) => return Ok(None),
        Err(error) => return no_bytes(error.kind()),
    }
    match fs::open(files, path) {
        Ok(opened) => match read_file(alloc, file, opened) {
            Ok(bytes) => Ok(Some(bytes)),
            Err(FileError::NoMemory) => Err(NoMemory),
            Err(_) => Ok(None),
        },
        Err(error) => no_bytes(error.kind()),
    }
}

/// That there are no bytes, for which the system answers so.
fn no_bytes(kind: ErrorKind) -> Result<Option<Vec<u8>>, NoMemory> {
    match kind {
        ErrorKind::OutOfMemory => Err(NoMemory),
        _ => Ok(None),
    }
}

/// The name as it is; with the escapes of a text where it has control characters, so that it stays in its line.
pub(crate) fn shown_name(alloc: Global, name: &str) -> Result<String, NoMemory> {
    if !name.bytes().any(|byte| byte.is_ascii_control()) {
        return Ok(String::from_str(alloc, name)?);
    }
    let mut shown = Vec::new(alloc);
    put_escaped(&mut shown, name.as_bytes())?;
    match str::from_utf8(shown.as_slice()) {
        Ok(text) => Ok(String::from_str(alloc, text)?),
        Err(_) => Ok(String::new(alloc)),
    }
}
