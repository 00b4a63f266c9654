//! Rule files that may change, and their lists, while their rules are in use.

use crate::file_stamp::current_second;
use crate::known_file::{KnownFile, ReadFile, RuleBytes};
use crate::read_stamps::{ReadStamps, stamp_of, stamps_at};
use crate::rule_lines::RuleLines;
use milter_cli::{
    FILE_MAX, FileError, InputFile, ListPath, RuleUse, explain_file, list_file, list_paths,
    open_list, read_error, read_file, read_list,
};
use milter_rules::{ListFile, Rules};
use milter_wire::{List, NoMemory, Text};
use std::alloc::Global;
use std::fs;
use std::marker::Model;
use std::os::unix::fs::FileTypeExt;
use std::path::Path;

/// A rule file as the log names it.
#[derive(Clone, Copy)]
pub struct RuleText<'a> {
    /// Its path.
    pub path: &'a str,
    /// The bytes that were last taken of it, where they are meant.
    pub bytes: Option<&'a [u8]>,
}

/// Where rules come from, which may change.
pub trait RuleSource {
    ghost use Rattle.std.specs.Prelude.{IfErr, IfSome, Option, Result};
    ghost use Rattle.milter_filter_rules.specs.declared.rules.Rules.{Rules};
    ghost use Rattle.milter_cli.specs.declared.file_error.FileError.{FileError};
    ghost use Rattle.milter_cli.specs.FileRun.{IsFileFault};

    /// Holds of a source, what it answers when it is asked, and the source then. It claims nothing where an impl leaves
    /// it out.
    ghost answers: { Self → Option (Result Rules FileError) → Self → Type 0 } = { λ _ _ _. Unit {0} };

    /// Holds of a source that looks at all there is when it is asked next, and not only at whether it changed.
    ghost looks_again: { Self → Type 0 } = { λ _. Unit {0} };

    /// The rules, where they changed since they were last asked for, or why they can't be given. After an error that is
    /// no fault of what there is, it looks again when it is asked next.
    fn changed(&mut self, alloc: Global) -> Option<Result<Rules, FileError>>
        ensures answered { answers self.old result self.new }
        ensures again { IfSome result (λ given. IfErr given (λ e. ¬ IsFileFault e → looks_again self.new)) };

    /// Has it give the rules again when it is asked next, also where they did not change: who asked didn't keep them.
    fn forget(&mut self)
        ensures { looks_again self.new };

    /// The lines that explain in words why the rules can't be given.
    fn explain(&self, alloc: Global, error: FileError) -> Result<Vec<u8>, NoMemory>;

    /// The file of which the rules were last taken, or a fault of what it has; `None` where the rules are of none.
    /// Doesn't allocate.
    fn text(&self) -> Option<RuleText<'_>>;
}

/// A rule file, and its lists.
#[derive(Drop)]
pub struct RuleFile<'r> {
    files: &'r HostRuntime,
    // None where there are no rules, which never change.
    path: Option<&'r str>,
    usage: RuleUse,
    known: KnownFile,
    // Where the lists are that the file named when it was last read.
    lists: Vec<ListPath>,
}

impl<'r> Model for RuleFile<'r> {
    ghost use Rattle.milter_serve.specs.KnownFiles.{Source};

    ghost Value = { Source };

    ghost view = { λ source. record {
      known = source.known;
      usage = source.usage;
    } };
}

impl<'r> RuleFile<'r> {
    ghost use Rattle.std.specs.Prelude.{◌≡◌, IfOk};
    ghost use Rattle.milter_serve.specs.KnownFiles.{new_source};

    /// The file at this path, of which nothing is known yet, and how its rules are used; without a path there are no
    /// rules.
    pub fn new(files: &'r HostRuntime, alloc: Global, path: Option<&'r str>, usage: RuleUse) -> Self
        ensures { result ≡ new_source usage }
    {
        RuleFile {
            files,
            path,
            usage,
            known: KnownFile::new(),
            lists: Vec::new(alloc),
        }
    }
}

impl<'r> RuleSource for RuleFile<'r> {
    ghost use Rattle.std.specs.Prelude.{◌≡◌, IfErr, IfSome, None};
    ghost use Rattle.milter_cli.specs.FileRun.{IsFileFault};
    ghost use Rattle.milter_serve.specs.KnownFiles.{LooksAt};

    ghost answers = { LooksAt };

    ghost looks_again = { λ source. source.known.stamps ≡ None };

    fn changed(&mut self, alloc: Global) -> Option<Result<Rules, FileError>> {
        let path = self.path?;
        if let Ok(stamps) = stamps_at(self.files, alloc, path, self.lists.as_slice()) {
            if self.known.is_current(&stamps) {
                return None;
            }
        }
        let read = read_files(self.files, alloc, path, &mut self.lists);
        self.known.note(alloc, read, self.usage)
    }

    fn forget(&mut self) {
        self.known.forget();
    }

    fn explain(&self, alloc: Global, error: FileError) -> Result<Vec<u8>, NoMemory> {
        explain_file(self.files, alloc, self.path.unwrap_or(""), error)
    }

    fn text(&self) -> Option<RuleText<'_>> {
        Some(RuleText {
            path: self.path?,
            bytes: self.known.file_bytes(),
        })
    }
}

/// Reads the rule file at this path, and its lists, the paths of whose files take the place of those in `lists`.
fn read_files(
    files: &HostRuntime,
    alloc: Global,
    path: &str,
    lists: &mut Vec<ListPath>,
) -> Result<ReadFile, FileError> {
    let mut stamps = ReadStamps::new(alloc, current_second(files));
    match read_bytes(files, alloc, path, lists, &mut stamps) {
        Ok(bytes) => Ok(ReadFile {
            bytes,
            stamps: stamps.into_trusted(),
        }),
        Err(error) => {
            drop(stamps);
            Err(error)
        }
    }
}

/// The bytes of the rule file at this path and of its lists, with their stamps.
fn read_bytes(
    files: &HostRuntime,
    alloc: Global,
    path: &str,
    lists: &mut Vec<ListPath>,
    stamps: &mut ReadStamps,
) -> Result<RuleBytes, FileError> {
    let file = read_rule_file(files, alloc, path, stamps)?;
    match read_named_lists(files, alloc, path, file.as_slice(), lists, stamps) {
        Ok(found) => Ok(RuleBytes {
            file: Text::new(file),
            lists: found,
        }),
        Err(NoMemory) => {
            drop(file);
            Err(FileError::NoMemory)
        }
    }
}

/// Reads the lists that the rule file at this path names, which has these bytes, but those that can't be read. The
/// paths of their files take the place of those in `lists`.
fn read_named_lists(
    files: &HostRuntime,
    alloc: Global,
    path: &str,
    bytes: &[u8],
    lists: &mut Vec<ListPath>,
    stamps: &mut ReadStamps,
) -> Result<List<ListFile>, NoMemory> {
    let paths = list_paths(alloc, path, bytes)?;
    match read_lists(files, alloc, paths.as_slice(), stamps) {
        Ok(found) => {
            *lists = paths;
            Ok(found)
        }
        Err(error) => {
            drop(paths);
            Err(error)
        }
    }
}

/// Whether a file at this path can be opened and read without a wait, since it is no pipe, no socket and no folder, or
/// the system doesn't say what it is.
fn is_read_at_once(files: &HostRuntime, path: Path<'_>) -> bool {
    let Ok(found) = fs::metadata(files, path) else {
        return true;
    };
    let kind = found.file_type();
    !(kind.is_fifo() || kind.is_socket() || kind.is_dir())
}

/// Reads the rule file at this path, without its lists. Of a file that is too large nothing is read, since it is looked
/// at again at each look; and one that isn't read at once isn't opened.
fn read_rule_file(
    files: &HostRuntime,
    alloc: Global,
    path: &str,
    stamps: &mut ReadStamps,
) -> Result<Vec<u8>, FileError> {
    if !is_read_at_once(files, Path::new(path)) {
        return Err(FileError::Read(InputFile::Rules));
    }
    let file = match fs::open(files, path) {
        Ok(file) => file,
        Err(error) => return Err(read_error(InputFile::Rules, error.kind())),
    };
    let stamp = stamp_of(&file);
    if stamp.is_some_and(|stamp| stamp.size > FILE_MAX) {
        drop(file);
        return Err(FileError::Read(InputFile::Rules));
    }
    match stamps.push_read(stamp) {
        Ok(()) => read_file(alloc, InputFile::Rules, file),
        Err(_) => {
            drop(file);
            Err(FileError::NoMemory)
        }
    }
}

/// Reads the lists at these paths, but those that can't be read.
fn read_lists(
    files: &HostRuntime,
    alloc: Global,
    paths: &[ListPath],
    stamps: &mut ReadStamps,
) -> Result<List<ListFile>, NoMemory> {
    let mut lists = List::new(Vec::new(alloc));
    for path in paths {
        if let Some(bytes) = read_list_at(files, alloc, path, stamps)? {
            lists.push(list_file(alloc, path, bytes)?)?;
        }
    }
    Ok(lists)
}

/// Reads the list at this path; none where it can't be read, or not at once.
fn read_list_at(
    files: &HostRuntime,
    alloc: Global,
    path: &ListPath,
    stamps: &mut ReadStamps,
) -> Result<Option<Vec<u8>>, NoMemory> {
    let path = path.path.as_path();
    if !is_read_at_once(files, path) {
        stamps.push_missing()?;
        return Ok(None);
    }
    let Some(file) = open_list(files, path)? else {
        stamps.push_missing()?;
        return Ok(None);
    };
    match stamps.push_read(stamp_of(&file)) {
        Ok(()) => read_list(alloc, file),
        Err(error) => {
            drop(file);
            Err(error)
        }
    }
}

/// The lines of the rules of a file; none where there is no file, it wasn't read, or memory is refused.
pub fn lines_in(alloc: Global, file: Option<RuleText<'_>>) -> RuleLines {
    let bytes = match file {
        Some(file) => file.bytes.unwrap_or(&[]),
        None => &[],
    };
    match RuleLines::of(alloc, bytes) {
        Ok(lines) => lines,
        Err(NoMemory) => RuleLines::none(alloc),
    }
}
