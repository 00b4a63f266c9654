//! The check of a rule file.

use milter_rule_check::say_findings;
use milter_rule_words::say_fault;
use milter_rules::{Notes, Severity, read_rule_lines};
use milter_text::{TextFault, write_text};
use std::alloc::Global;
use std::io::Write;

/// Writes a line for each thing that is to be said of a rule file of this name; answers with the highest severity of
/// these lines, or none where there was none.
///
/// A line is `NAME:LINE: TEXT`, in the order of the lines of the file; what is said of the file as a whole comes last,
/// as `NAME: TEXT`. Of a file that has no rules its first fault is said, and nothing else. Long words of the file are
/// cut off, so that a line has a few hundred bytes beside the name. The error is `NoMemory` where memory is refused,
/// and nothing is written then; and `Write` where a write fails, also one that is interrupted, or takes nothing.
pub(crate) fn check_rules<W: Write>(
    alloc: Global,
    name: &str,
    bytes: &[u8],
    writer: &mut W,
) -> Result<Option<Severity>, TextFault> {
    let mut notes = Notes::new(alloc, name);
    match read_rule_lines(alloc, bytes) {
        Ok(rules) => say_findings(&mut notes, bytes, &rules)?,
        Err(fault) => say_fault(&mut notes, bytes, fault)?,
    }
    write_text(writer, notes.text())?;
    Ok(notes.severity())
}
