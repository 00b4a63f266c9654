//! The directory of the traces.

use std::alloc::{AllocError, Global};
use std::fs::{self, File};
use std::io;

/// Makes the directory, with those that it is in, where it isn't there.
pub fn create_directory(files: &HostRuntime, directory: &str) -> io::Result<()> {
    fs::create_dir_all(files, directory)
}

/// Whether the directory has the trace of a first connection.
pub fn has_traces(files: &HostRuntime, alloc: Global, directory: &str) -> Result<bool, AllocError> {
    let path = trace_path(alloc, directory, 1)?;
    Ok(fs::symlink_metadata(files, path.as_str()).is_ok())
}

/// Makes the file of the trace of the connection with this number: an error where there is a file of its name.
pub(crate) fn create_trace(
    files: &HostRuntime,
    alloc: Global,
    directory: &str,
    number: u64,
) -> io::Result<File> {
    let path = trace_path(alloc, directory, number)?;
    File::create_new(files, path.as_str())
}

/// The path of the trace of the connection with this number.
fn trace_path(alloc: Global, directory: &str, number: u64) -> Result<String, AllocError> {
    format!(in alloc; "{directory}/{number}.trace")
}
