//! What is said of the first fault of an event file.

use crate::faulty_line::{Content, first_word, line_at};
use crate::known_names::{has_name, say_unknown};
use crate::session_forms::beside;
use milter_rule_words::say_fault;
use milter_rules::{Notes, RuleFault, Span};
use milter_text::Word;
use milter_wire::NoMemory;
use milter_world::{EventFault, read_events};

/// The first words of lines.
const FIRST_WORDS: &str = "dial|send|to-filter|answer|to-mta|die|lose|timeout|round|rounds";

/// The greatest number of a line.
const NUMBER_MAX: u64 = 4_294_967_295;

/// Says why a file with these bytes has no events.
pub(crate) fn say_events(notes: &mut Notes<'_>, bytes: &[u8]) -> Result<(), NoMemory> {
    let number = match read_events(notes.alloc(), bytes) {
        Ok(_) => return Ok(()),
        Err(EventFault::NoMemory) => return Err(NoMemory),
        Err(EventFault::TooMany(number)) => {
            notes.go_to(Some(number));
            let text = b"with this line there are more than 10,000,000 events, the most of a file";
            return notes.say(&[Span::Plain(text)]);
        }
        Err(EventFault::UnknownLine(number)) => number,
    };
    notes.go_to(Some(number));
    let line = line_at(notes.alloc(), bytes, number)?;
    match &line.content {
        Content::Words(words) => say_line(notes, words.as_slice()),
        // A line that isn't in words is one of no file.
        Content::NoWords | Content::End => {
            say_fault(notes, bytes, RuleFault::UnknownWord(number))
        }
    }
}

/// Says what is wrong with a line of these words.
fn say_line(notes: &mut Notes<'_>, words: &[Word]) -> Result<(), NoMemory> {
    if let Some(word) = words.iter().find(|word| word.quoted) {
        let shown = Span::Quoted(word.text.as_slice());
        let end = Span::Plain(b" is due without quotes");
        return notes.say(&[shown, end]);
    }
    let first = first_word(words);
    if !has_name(FIRST_WORDS, first) {
        return say_unknown(notes, "first word", FIRST_WORDS, first);
    }
    match no_number(words) {
        Some(word) => {
            let shown = Span::Quoted(word.text.as_slice());
            let end = Span::Plain(b" is no number up to 4,294,967,295, of ten digits at most");
            notes.say(&[shown, end])
        }
        None => {
            let begin = Span::Plain(b"the line has too few words or too many; it is written ");
            notes.say(&[begin, Span::Plain(form_of(first).as_bytes())])
        }
    }
}

/// The first word after the first one that is no number.
fn no_number(words: &[Word]) -> Option<&Word> {
    match words {
        [_, rest @ ..] => rest.iter().find(|word| !is_number(word)),
        [] => None,
    }
}

/// Whether the word is a number of a line.
fn is_number(word: &Word) -> bool {
    word.number().is_some_and(|number| number <= NUMBER_MAX)
}

/// How a line with this first word is written.
const FORMS: &[(&str, &str)] = &[
    ("dial", "dial"),
    ("send", "send N"),
    ("to-filter", "to-filter N"),
    ("answer", "answer N"),
    ("to-mta", "to-mta N"),
    ("die", "die"),
    ("lose", "lose"),
    ("timeout", "timeout"),
    ("round", "round N"),
];

/// How a line with this first word is written; any other as `rounds`.
fn form_of(first: &[u8]) -> &'static str {
    beside(FORMS, first).unwrap_or("rounds COUNT N")
}
