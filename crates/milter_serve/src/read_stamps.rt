//! The stamps of a rule file and of the files of its lists.

use crate::file_stamp::FileStamp;
use crate::known_file::FileStamps;
use milter_cli::ListPath;
use milter_wire::NoMemory;
use std::alloc::Global;
use std::fs::{self, File};
use std::path::Path;

/// The stamps of files that are read, and whether these are trusted.
#[derive(Drop)]
pub(crate) struct ReadStamps {
    // When the reading began; `None` where the system doesn't say it.
    second: Option<u64>,
    stamps: FileStamps,
    are_trusted: bool,
}

impl ReadStamps {
    /// Those of no files, whose reading begins at this second. Doesn't allocate.
    pub(crate) fn new(alloc: Global, second: Option<u64>) -> Self {
        ReadStamps {
            second,
            stamps: FileStamps::new(Vec::new(alloc)),
            are_trusted: second.is_some(),
        }
    }

    /// Adds that of a file that was opened; `None` where the system doesn't say it. It is trusted where it is older
    /// than the second in which the reading began.
    pub(crate) fn push_read(&mut self, found: Option<FileStamp>) -> Result<(), NoMemory> {
        if trusted_stamp(found, self.second).is_none() {
            self.are_trusted = false;
        }
        self.stamps.push(found)
    }

    /// Adds that of a file that wasn't opened. It is trusted, since the file has another one once it is there.
    pub(crate) fn push_missing(&mut self) -> Result<(), NoMemory> {
        self.stamps.push(None)
    }

    /// All of them, where these are trusted. Doesn't allocate.
    pub(crate) fn into_trusted(self) -> Option<FileStamps> {
        if self.are_trusted {
            Some(self.stamps)
        } else {
            None
        }
    }
}

/// This stamp, where it is trusted at this second.
fn trusted_stamp(found: Option<FileStamp>, second: Option<u64>) -> Option<FileStamp> {
    found?.trusted_at(second?)
}

/// The stamps of the rule file at this path and of the files of these lists.
pub(crate) fn stamps_at(
    files: &HostRuntime,
    alloc: Global,
    path: &str,
    lists: &[ListPath],
) -> Result<FileStamps, NoMemory> {
    let mut stamps = FileStamps::new(Vec::new(alloc));
    stamps.push(stamp_at(files, Path::new(path)))?;
    for list in lists {
        stamps.push(stamp_at(files, list.path.as_path()))?;
    }
    Ok(stamps)
}

/// The stamp of the file at this path; `None` where the system doesn't say it.
fn stamp_at(files: &HostRuntime, path: Path<'_>) -> Option<FileStamp> {
    let found = fs::metadata(files, path).ok()?;
    Some(FileStamp::of(&found))
}

/// The stamp of this open file; `None` where the system doesn't say it.
pub(crate) fn stamp_of(file: &File) -> Option<FileStamp> {
    let found = file.metadata().ok()?;
    Some(FileStamp::of(&found))
}
