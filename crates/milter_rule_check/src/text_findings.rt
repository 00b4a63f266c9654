//! What is said of the texts of conditions, of which mail servers send no such values.

use crate::address_findings::say_part_text;
use crate::client_findings::say_client_text;
use crate::compared::{say_empty, say_unfound};
use crate::macro_findings::{say_listed_macro, say_macro_text};
use crate::path_findings::say_path_text;
use crate::rule_findings::CheckedFile;
use crate::wildcards::say_wildcard;
use milter_filter_rules::{Check, Condition, Field, PathPart, TextCheck};
use milter_rules::{Compared, Notes};
use milter_wire::NoMemory;

/// Says what is to be said of the texts of these conditions of the file, and of their macros in lists.
pub(crate) fn say_texts(
    notes: &mut Notes<'_>,
    file: CheckedFile<'_>,
    conditions: &[Condition],
) -> Result<(), NoMemory> {
    for condition in conditions {
        match &condition.check {
            Check::Text(check) => say_texts_of(notes, file, condition.negated, check)?,
            Check::In(Field::Macro(name), _) => {
                say_listed_macro(notes, file, condition, name.as_slice())?;
            }
            Check::Within(_) | Check::Over(..) | Check::In(..) => {}
        }
    }
    Ok(())
}

/// Says what is to be said of the texts of the check, which is negated or not.
fn say_texts_of(
    notes: &mut Notes<'_>,
    file: CheckedFile<'_>,
    negated: bool,
    check: &TextCheck,
) -> Result<(), NoMemory> {
    for text in check.texts.as_slice() {
        let compared = Compared::new(negated, check, text.as_slice());
        if !say_wildcard(notes, file.form, compared)? {
            say_text(notes, file, compared)?;
        }
    }
    Ok(())
}

/// Says what is to be said of a text without wildcards.
fn say_text(
    notes: &mut Notes<'_>,
    file: CheckedFile<'_>,
    compared: Compared<'_>,
) -> Result<(), NoMemory> {
    match compared.field {
        Field::Host | Field::Helo => say_empty(notes, compared),
        Field::Address => say_client_text(notes, file.form, compared),
        Field::Rcpt(PathPart::Sent) | Field::Recipients(PathPart::Sent)
            if compared.text.is_empty() => { say_empty(notes, compared) }
        Field::Sender(part) | Field::Rcpt(part) | Field::Recipients(part) => match part {
            PathPart::Sent => say_path_text(notes, file, compared),
            PathPart::Address | PathPart::Domain => say_part_text(notes, compared, *part),
        },
        Field::Header(_) => say_header_text(notes, compared),
        Field::Body => say_body_text(notes, compared),
        Field::Macro(name) => say_macro_text(notes, file, compared, name.as_slice()),
    }
}

/// Says of a text with a CR that no header field has it.
fn say_header_text(notes: &mut Notes<'_>, compared: Compared<'_>) -> Result<(), NoMemory> {
    if !compared.text.contains(&b'\r') {
        return Ok(());
    }
    let reason = b"between the lines of a header field mail servers send \\n alone";
    say_unfound(notes, compared, reason, None)
}

/// Says of a text with a LF after another byte than CR that no body has it.
fn say_body_text(notes: &mut Notes<'_>, compared: Compared<'_>) -> Result<(), NoMemory> {
    if !has_lone_line_feed(compared.text) {
        return Ok(());
    }
    let reason = b"mail servers send \\r\\n at the end of each line of a body";
    say_unfound(notes, compared, reason, None)
}

/// Whether there is a LF that comes after another byte than CR.
fn has_lone_line_feed(text: &[u8]) -> bool {
    let mut last = b'\r';
    for byte in text {
        if *byte == b'\n' && last != b'\r' {
            return true;
        }
        last = *byte;
    }
    false
}
