//! What is said of a rule file that can't be used, and of its lists.

use crate::file_words::{shown_name, unread_reason};
use crate::list_check::say_lists;
use crate::list_input::list_paths;
use milter_rule_words::say_fault;
use milter_rules::{Notes, RuleFault, Span, read_rule_lines};
use milter_wire::NoMemory;
use std::alloc::Global;
use std::fs;
use std::path::Path;

/// Says why the rule file at this path, which has these bytes, can't be used: its first fault, or that of its lists,
/// unless one of them is no file, whose end might never come.
pub(crate) fn say_rules(
    files: &HostRuntime,
    notes: &mut Notes<'_>,
    path: &str,
    bytes: &[u8],
) -> Result<(), NoMemory> {
    match read_rule_lines(notes.alloc(), bytes) {
        Ok(rules) => {
            drop(rules);
            if has_endless_list(files, notes.alloc(), path, bytes)? {
                return Ok(());
            }
            say_lists(files, notes, path, bytes)
        }
        Err(RuleFault::NoMemory) => Err(NoMemory),
        Err(fault) => say_fault(notes, bytes, fault),
    }
}

/// Whether something is in the place of a list of the rule file at this path, which has these bytes, that is neither a
/// file nor a folder.
fn has_endless_list(
    files: &HostRuntime,
    alloc: Global,
    path: &str,
    bytes: &[u8],
) -> Result<bool, NoMemory> {
    let paths = list_paths(alloc, path, bytes)?;
    for list in paths.as_slice() {
        if is_endless(files, list.path.as_path()) {
            return Ok(true);
        }
    }
    Ok(false)
}

/// Whether there is something at this path that is neither a file nor a folder.
fn is_endless(files: &HostRuntime, path: Path<'_>) -> bool {
    match fs::metadata(files, path) {
        Ok(found) => !found.is_file() && !found.is_dir(),
        Err(_) => false,
    }
}

/// The lines that say why lists of the rule file at this path can't be read, which has these bytes.
pub(crate) fn unread_lists(
    files: &HostRuntime,
    alloc: Global,
    path: &str,
    bytes: &[u8],
) -> Result<Vec<u8>, NoMemory> {
    let paths = list_paths(alloc, path, bytes)?;
    let mut said = Vec::new(alloc);
    for list in paths.as_slice() {
        put_unread_list(files, alloc, list.path.as_path(), &mut said)?;
    }
    Ok(said)
}

/// Puts the line that says why the list at this path can't be read, if it can't.
fn put_unread_list(
    files: &HostRuntime,
    alloc: Global,
    path: Path<'_>,
    said: &mut Vec<u8>,
) -> Result<(), NoMemory> {
    if path.is_file(files) && fs::open(files, path).is_ok() {
        return Ok(());
    }
    let name = shown_name(alloc, path.as_str())?;
    let mut notes = Notes::new(alloc, name.as_str());
    match notes.say(&[Span::Plain(unread_reason(files, path).as_bytes())]) {
        Ok(()) => Ok(said.extend_from_slice(notes.text())?),
        Err(error) => Err(error),
    }
}
