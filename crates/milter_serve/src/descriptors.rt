//! How many connections the descriptors of the process allow.

use milter_cli::{InputFile, read_file};
use std::alloc::Global;
use std::fs::{self, File};

/// The file in which the system says what a process is allowed, the beginning of the line about descriptors, and how
/// many descriptors are looked at to see which are open when the program begins. Source: proc_pid_limits(5).
const LIMITS_FILE: &str = "/proc/self/limits";

const LIMITS_LINE: &str = "Max open files";

const FIRST_DESCRIPTORS: u32 = 64;
/// How many descriptors are those of standard input, output and error, which come first; and a file without bytes.
const STANDARD: u32 = 3;

const NO_FILE: &str = "/dev/null";

/// How many descriptors the process may open yet, of the first [`FIRST_DESCRIPTORS`] of which some are open; `None`
/// where the system doesn't say how many it may have.
pub fn free_descriptors(files: &HostRuntime, alloc: Global) -> Option<u64> {
    let file = fs::open(files, LIMITS_FILE).ok()?;
    let bytes = read_file(alloc, InputFile::Rules, file).ok()?;
    let most = most_descriptors(str::from_utf8(bytes.as_slice()).ok()?)?;
    Some(most.saturating_sub(open_descriptors(files, alloc)))
}

/// How many descriptors a process may have, by this text of what it is allowed.
fn most_descriptors(text: &str) -> Option<u64> {
    for line in text.lines() {
        if let Some(rest) = line.strip_prefix(LIMITS_LINE) {
            return rest.split_whitespace().next()?.parse().ok();
        }
    }
    None
}

/// How many of the first descriptors are open.
fn open_descriptors(files: &HostRuntime, alloc: Global) -> u64 {
    let mut count = 0u64;
    for number in 0..FIRST_DESCRIPTORS {
        if is_open(files, alloc, number) {
            count = count.saturating_add(1);
        }
    }
    count
}

/// Whether the descriptor of this number is open.
fn is_open(files: &HostRuntime, alloc: Global, number: u32) -> bool {
    match format!(in alloc; "/proc/self/fd/{number}") {
        Ok(path) => fs::symlink_metadata(files, path.as_str()).is_ok(),
        Err(_) => false,
    }
}

/// Opens a file without bytes for each of standard input, output and error that is closed, so that no socket gets its
/// number, by which lines would go there. The files are to be kept.
pub fn fill_standard(files: &HostRuntime, alloc: Global) -> Vec<File> {
    let mut kept = Vec::new(alloc);
    for number in 0..STANDARD {
        if !is_open(files, alloc, number) {
            if let Ok(file) = fs::open(files, NO_FILE) {
                drop(kept.push(file));
            }
        }
    }
    kept
}
