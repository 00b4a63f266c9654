//! The form of a rule file, by its first line.

use milter_text::{LineCursor, LineFault, Word};
use milter_wire::NoMemory;
use std::alloc::Global;

/// The form of a rule file.
#[derive(Clone, Copy, PartialEq, Eq)]
pub enum FileForm {
    /// The form of files without a first line `rules 2`.
    First,
    /// The wider form of files with it.
    Second,
}

/// The form of a file with these bytes. Lines that are skipped don't count, and a first line that isn't in words is of
/// the first form. Allocates the words of that line.
pub fn form_of_file(alloc: Global, bytes: &[u8]) -> Result<FileForm, NoMemory> {
    match LineCursor::new(bytes).next(alloc) {
        Ok(Some(line)) if is_form_line(line.words.as_slice()) => Ok(FileForm::Second),
        Ok(_) | Err(LineFault::NotInWords(_)) => Ok(FileForm::First),
        Err(LineFault::NoMemory) => Err(NoMemory),
    }
}

/// Whether the words are the line that gives a file the second form.
pub fn is_form_line(words: &[Word]) -> bool {
    match words {
        [first, number] => first.is_keyword(b"rules") && number.is_keyword(b"2"),
        _ => false,
    }
}
