//! What is said of the first fault of a session file.

use crate::faulty_line::{Content, FaultyLine, first_word, line_at};
use crate::known_names::{has_name, say_unknown};
use crate::session_forms::{
    FAMILIES, FIRST_WORDS, MACRO_STAGES, due_after, form_of, has_form, unquoted_text,
};
use milter_mail_file::{SessionFault, read_session};
use milter_rule_words::say_fault;
use milter_rules::{Notes, RuleFault, Span};
use milter_text::Word;
use milter_wire::NoMemory;

/// Says why a file with these bytes has no session.
pub(crate) fn say_session(notes: &mut Notes<'_>, bytes: &[u8]) -> Result<(), NoMemory> {
    let fault = match read_session(notes.alloc(), bytes) {
        Ok(session) => {
            drop(session);
            return Ok(());
        }
        Err(fault) => fault,
    };
    let Some(number) = fault.line() else {
        return Err(NoMemory);
    };
    notes.go_to(Some(number));
    let line = line_at(notes.alloc(), bytes, number)?;
    match &line.content {
        // A line that isn't in words is one of no file.
        Content::NoWords => say_fault(notes, bytes, RuleFault::UnknownWord(number)),
        Content::End => say_end(notes, &line),
        Content::Words(words) => say_line(notes, &line, words.as_slice(), fault),
    }
}

/// Says what the file lacks at its end.
fn say_end(notes: &mut Notes<'_>, line: &FaultyLine) -> Result<(), NoMemory> {
    let due = due_after(first_before(line));
    let spans = [
        Span::Plain(b"the file ends here, where a line is due that begins with "),
        Span::List(due),
    ];
    notes.say(&spans)
}

/// The first word of the line before.
fn first_before(line: &FaultyLine) -> &[u8] {
    match &line.before {
        Some(words) => first_word(words.as_slice()),
        None => b"",
    }
}

/// Says what is wrong with a line of these words.
fn say_line(
    notes: &mut Notes<'_>,
    line: &FaultyLine,
    words: &[Word],
    fault: SessionFault,
) -> Result<(), NoMemory> {
    match fault {
        SessionFault::UnknownLine(_) | SessionFault::NoEnd(_) => {
            say_unknown_line(notes, line, words)
        }
        SessionFault::BadClient(_) => say_bad_client(notes, line, words),
        SessionFault::NoRecipient(_) => {
            let text =
                b"the message that ends here has no line recipient; one or more stand after its sender";
            notes.say(&[Span::Plain(text)])
        }
        SessionFault::BadHeader(_) => say_bad_header(notes, words),
        SessionFault::TooLarge(_) => { notes.say(&[Span::Plain(limit_of(words).as_bytes())]) }
        SessionFault::Nul(_) => {
            let text = b"a text has a NUL, which is left to the texts of a body";
            notes.say(&[Span::Plain(text)])
        }
        SessionFault::NoMemory => Err(NoMemory),
    }
}

/// What the line is too much for.
fn limit_of(words: &[Word]) -> &'static str {
    match first_word(words) {
        b"end" => "the message that ends here has more than 16,777,216 bytes",
        b"macro" =>
            "the macros of this stage are too large for a packet, which has room for 65,535 bytes",
        _ => "a text is too large for a packet, which has room for 65,535 bytes",
    }
}

/// Says what is wrong with a line that isn't known where it stands.
fn say_unknown_line(
    notes: &mut Notes<'_>,
    line: &FaultyLine,
    words: &[Word],
) -> Result<(), NoMemory> {
    let first = first_word(words);
    if !has_name(FIRST_WORDS, first) {
        return say_unknown_first(notes, words);
    }
    if !has_name(due_after(first_before(line)), first) {
        return say_not_due(notes, line, first);
    }
    match words {
        [first, stage, ..] if first.is_keyword(b"macro") && !is_macro_stage(stage) => {
            say_unknown(notes, "stage", MACRO_STAGES, stage.text.as_slice())
        }
        words if !has_form(words) => say_bad_form(notes, words),
        _ => say_not_due(notes, line, first),
    }
}

/// Whether the word is a stage that has macros.
fn is_macro_stage(word: &Word) -> bool {
    !word.quoted && has_name(MACRO_STAGES, word.text.as_slice())
}

/// Says that the first of the words is none of a line.
fn say_unknown_first(notes: &mut Notes<'_>, words: &[Word]) -> Result<(), NoMemory> {
    match words {
        [first, ..] => { say_unknown(notes, "first word", FIRST_WORDS, first.text.as_slice()) }
        [] => Ok(()),
    }
}

/// Says that a line with this first word isn't due here, and which one is.
fn say_not_due<'x>(
    notes: &mut Notes<'_>,
    line: &'x FaultyLine,
    first: &'x [u8],
) -> Result<(), NoMemory> {
    let before = first_before(line);
    let due = Span::List(due_after(before));
    let first = Span::Plain(first);
    if before.is_empty() {
        let middle = Span::Plain(b" can't be the first line, which begins with ");
        return notes.say(&[first, middle, due]);
    }
    let spans = [
        first,
        Span::Plain(b" can't stand after "),
        Span::Plain(before),
        Span::Plain(b"; a line is due that begins with "),
        due,
    ];
    notes.say(&spans)
}

/// Says how a line of these words is written.
fn say_bad_form(notes: &mut Notes<'_>, words: &[Word]) -> Result<(), NoMemory> {
    let form = Span::Plain(form_of(first_word(words)).as_bytes());
    match unquoted_text(words) {
        Some(word) => {
            let middle = b" is due in double quotes; the line is written ";
            let shown = Span::Quoted(word.text.as_slice());
            notes.say(&[Span::Plain(b"the text "), shown, Span::Plain(middle), form])
        }
        None => {
            let begin = Span::Plain(b"the line has too few words or too many; it is written ");
            notes.say(&[begin, form])
        }
    }
}

/// Says what is wrong with the line of the client, or with one that stands in its place.
fn say_bad_client(
    notes: &mut Notes<'_>,
    line: &FaultyLine,
    words: &[Word],
) -> Result<(), NoMemory> {
    match words {
        [first, family, ..] if first.is_keyword(b"client") => {
            if !has_name(FAMILIES, family.keyword().unwrap_or(b"")) {
                let name = family.text.as_slice();
                return say_unknown(notes, "family", FAMILIES, name);
            }
            say_bad_endpoint(notes, words)
        }
        [first, ..] if !first.is_keyword(b"client") => {
            if has_name(FIRST_WORDS, first_word(words)) {
                say_not_due(notes, line, first_word(words))
            } else {
                say_unknown_first(notes, words)
            }
        }
        words => say_bad_form(notes, words),
    }
}

/// Says what is wrong with the words of a client's line after a family that is known.
fn say_bad_endpoint(notes: &mut Notes<'_>, words: &[Word]) -> Result<(), NoMemory> {
    match words {
        [_, _, host, port, address] if host.quoted && address.quoted && !is_port(port) => {
            let shown = Span::Quoted(port.text.as_slice());
            let end = b" is no port, which is a number up to 65535 without quotes";
            notes.say(&[shown, Span::Plain(end)])
        }
        words => say_bad_form(notes, words),
    }
}

/// Whether the word is a port.
fn is_port(word: &Word) -> bool {
    word.number()
        .is_some_and(|number| u16::try_from(number).is_ok())
}

/// Says what is wrong with a header line.
fn say_bad_header(notes: &mut Notes<'_>, words: &[Word]) -> Result<(), NoMemory> {
    match words {
        [_, name, value] if name.quoted && value.quoted => {
            let shown = Span::Quoted(name.text.as_slice());
            let end = b" is no name of a header field: visible ASCII characters without a colon";
            notes.say(&[shown, Span::Plain(end)])
        }
        words => say_bad_form(notes, words),
    }
}
