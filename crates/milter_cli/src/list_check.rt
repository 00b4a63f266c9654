//! What is said of the lists of a rule file.

use crate::list_input::{list_path, read_list_at};
use milter_filter_rules::{ListFault, ListKind, ListSource, TextList};
use milter_rules::{Notes, RuleFault, Span, list_sources};
use milter_text::{LineCursor, LineFault, TextFault, write_text};
use milter_wire::NoMemory;
use std::alloc::Global;
use std::io::Write;
use std::path::Path;

/// Writes a line for each list that the rule file at this path names, which has these bytes, if the list's file can't
/// be read, or has a line that is no entry, or is too large. Answers whether there was one.
///
/// A line is `PATH:LINE: TEXT`, with the line of the list in the rule file. No line is written where the line of a list
/// is at fault; nor where memory is refused.
pub(crate) fn check_lists<W: Write>(
    files: &HostRuntime,
    alloc: Global,
    path: &str,
    bytes: &[u8],
    writer: &mut W,
) -> Result<bool, TextFault> {
    let mut notes = Notes::new(alloc, path);
    match say_lists(files, &mut notes, path, bytes) {
        Ok(()) => write_notes(&notes, writer),
        Err(error) => Err(TextFault::from(error)),
    }
}

/// Writes what was said. Answers whether there was something.
fn write_notes<W: Write>(notes: &Notes<'_>, writer: &mut W) -> Result<bool, TextFault> {
    write_text(writer, notes.text())?;
    Ok(notes.severity().is_some())
}

/// Says of each list that the rule file at this path names, which has these bytes, why it can't be used, if it can't.
/// Of none it says so where the line of a list is at fault.
pub fn say_lists(
    files: &HostRuntime,
    notes: &mut Notes<'_>,
    path: &str,
    bytes: &[u8],
) -> Result<(), NoMemory> {
    match list_sources(notes.alloc(), bytes) {
        Ok(sources) => say_sources(files, notes, path, bytes, sources.as_slice()),
        Err(RuleFault::NoMemory) => Err(NoMemory),
        Err(_) => Ok(()),
    }
}

/// Says of each of these lists, which the rule file names, why it can't be used, if it can't.
fn say_sources(
    files: &HostRuntime,
    notes: &mut Notes<'_>,
    path: &str,
    bytes: &[u8],
    sources: &[ListSource],
) -> Result<(), NoMemory> {
    let alloc = notes.alloc();
    let mut lines = LineCursor::new(bytes);
    // The lists follow the line that gives the form.
    next_number(alloc, &mut lines)?;
    for source in sources {
        notes.go_to(next_number(alloc, &mut lines)?);
        say_list(files, notes, path, source)?;
    }
    Ok(())
}

/// The number of the line at the cursor, behind which it moves; none where there is no line.
fn next_number(alloc: Global, lines: &mut LineCursor<'_>) -> Result<Option<u64>, NoMemory> {
    match lines.next(alloc) {
        Ok(line) => Ok(line.map(|line| line.number)),
        Err(LineFault::NoMemory) => Err(NoMemory),
        Err(LineFault::NotInWords(number)) => Ok(Some(number)),
    }
}

/// Says why the list can't be used, if it can't.
fn say_list(
    files: &HostRuntime,
    notes: &mut Notes<'_>,
    path: &str,
    source: &ListSource,
) -> Result<(), NoMemory> {
    let Some(file) = list_path(notes.alloc(), path, source)? else {
        return say_unread(notes, source, source.file.as_slice());
    };
    let shown = file.as_path().as_str().as_bytes();
    match read_list_at(files, notes.alloc(), file.as_path())? {
        Some(bytes) => say_entries(notes, source, shown, bytes.as_slice()),
        None => say_unread(notes, source, shown),
    }
}

/// Says that the file of the list, shown so, isn't read.
fn say_unread<'x>(
    notes: &mut Notes<'_>,
    source: &'x ListSource,
    shown: &'x [u8],
) -> Result<(), NoMemory> {
    notes.say(&[
        Span::Plain(b"list "),
        Span::Plain(source.name.as_slice()),
        Span::Plain(b": "),
        Span::Quoted(shown),
        Span::Plain(b" can't be read, or has more than 134,217,728 bytes"),
    ])
}

/// Says which line of the file of the list, shown so, is at fault, if one is.
fn say_entries<'x>(
    notes: &mut Notes<'_>,
    source: &'x ListSource,
    shown: &'x [u8],
    bytes: &[u8],
) -> Result<(), NoMemory> {
    let (line, said) = match TextList::read(notes.alloc(), source.kind, bytes) {
        Ok(_) => return Ok(()),
        Err(ListFault::BadEntry(line)) => (line, bad_entry(source.kind)),
        Err(ListFault::TooLarge(line)) => (line, TOO_LARGE),
        Err(ListFault::NoMemory) => return Err(NoMemory),
    };
    notes.say(&[
        Span::Plain(b"list "),
        Span::Plain(source.name.as_slice()),
        Span::Plain(b": line "),
        Span::Number(line),
        Span::Plain(b" of "),
        Span::Quoted(shown),
        Span::Plain(said),
    ])
}

/// What is said of a line with which a list is too large.
const TOO_LARGE: &[u8] =
    b" is more than a list has room for: 1,000,000 entries, of 209,715,200 bytes together";

/// What is said of a line that is no entry of a list of this kind.
fn bad_entry(kind: ListKind) -> &'static [u8] {
    match kind {
        ListKind::Addresses => b" is no address",
        ListKind::Domains => b" is no domain",
        ListKind::Networks => b" is no network",
        ListKind::Texts => b" is no text",
    }
}
