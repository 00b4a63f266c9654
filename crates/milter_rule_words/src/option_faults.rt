//! What is said of a line that is no rule.

use crate::known_words::{
    FIRST_WORD, Kind, MACRO_STAGE, STAGE, VERSION, has_name, is_one_of, say_unknown,
    say_unknown_name, say_unquoted,
};
use milter_protocol::{ACTIONS_MAX, PROTOCOL_MAX};
use milter_rules::{Notes, Span};
use milter_text::Word;
use milter_wire::{Actions, NoMemory, Protocol};
use std::str;

/// Says what is wrong with a line of these words, which is a repeated line of options, or none.
pub(crate) fn say_bad_option(
    notes: &mut Notes<'_>,
    words: &[Word],
    is_repeated: bool,
) -> Result<(), NoMemory> {
    let [first, rest @ ..] = words else {
        return Ok(());
    };
    if is_repeated {
        return say_repeated(notes, first, rest);
    }
    if first.is_keyword(b"version") {
        say_bad_version(notes, rest)
    } else if first.is_keyword(b"actions") {
        say_bad_actions(notes, first, rest)
    } else if first.is_keyword(b"protocol") {
        say_bad_protocol(notes, first, rest)
    } else if first.is_keyword(b"symbols") {
        say_bad_symbols(notes, rest)
    } else if is_one_of(first, STAGE.names) {
        let begin = Span::Plain(b"at is missing before the stage ");
        notes.say(&[begin, Span::Quoted(first.text.as_slice())])
    } else {
        say_unknown(notes, &FIRST_WORD, first)
    }
}

/// Says that the line is there already.
fn say_repeated<'x>(
    notes: &mut Notes<'_>,
    first: &'x Word,
    rest: &'x [Word],
) -> Result<(), NoMemory> {
    let end = Span::Plain(b" is given a second time; it is given once in a file");
    match rest {
        [stage, _] => {
            let blank = Span::Plain(b" ");
            notes.say(&[Span::Word(first), blank, Span::Word(stage), end])
        }
        _ => notes.say(&[Span::Word(first), end]),
    }
}

/// Says what is wrong with the words after `version`.
fn say_bad_version(notes: &mut Notes<'_>, rest: &[Word]) -> Result<(), NoMemory> {
    let text = b"version is followed by one number from 2 to 6";
    match rest {
        [version] => say_unknown(notes, &VERSION, version),
        _ => notes.say(&[Span::Plain(text)]),
    }
}

/// Says what is wrong with the words after `actions`.
fn say_bad_actions(notes: &mut Notes<'_>, first: &Word, rest: &[Word]) -> Result<(), NoMemory> {
    let mut known = Vec::new(notes.alloc());
    Actions(ACTIONS_MAX).put_names(&mut known)?;
    say_bad_names(notes, first, rest, b"action", known.as_slice())
}

/// Says what is wrong with the words after `protocol`.
fn say_bad_protocol(notes: &mut Notes<'_>, first: &Word, rest: &[Word]) -> Result<(), NoMemory> {
    let mut known = Vec::new(notes.alloc());
    Protocol(PROTOCOL_MAX).put_names(&mut known)?;
    say_bad_names(notes, first, rest, b"protocol bit", known.as_slice())
}

/// Says what is wrong with the words after the first one, which are to be one: of these known names, joined by `|`.
fn say_bad_names(
    notes: &mut Notes<'_>,
    first: &Word,
    rest: &[Word],
    called: &[u8],
    known: &[u8],
) -> Result<(), NoMemory> {
    let names = match rest {
        [names] => names.keyword(),
        _ => None,
    };
    let Some(names) = names else {
        let end = b" is followed by one word without quotes: names joined by |, or none";
        return notes.say(&[Span::Word(first), Span::Plain(end)]);
    };
    let (Ok(names), Ok(known)) = (str::from_utf8(names), str::from_utf8(known)) else {
        return Ok(());
    };
    let kind = Kind {
        called,
        names: known,
        others: &[],
    };
    match names.split('|').find(|name| is_no_name(known, name)) {
        Some(name) => say_unknown_name(notes, &kind, name.as_bytes()),
        None => notes.say(&[Span::Plain(b"none isn't joined with other names")]),
    }
}

/// Whether the name is neither among the known ones nor `none`.
fn is_no_name(known: &str, name: &str) -> bool {
    name != "none" && !has_name(known, name.as_bytes())
}

/// Says what is wrong with the words after `symbols`.
fn say_bad_symbols(notes: &mut Notes<'_>, rest: &[Word]) -> Result<(), NoMemory> {
    match rest {
        [stage, _] if !is_one_of(stage, MACRO_STAGE.names) => {
            say_unknown(notes, &MACRO_STAGE, stage)
        }
        [_, names] if names.quoted => {
            let text = b"the names of macros can't have a NUL";
            notes.say(&[Span::Plain(text)])
        }
        [stage, _] => say_unquoted(notes, b"a text", stage, &rest[1..]),
        _ => {
            let text = b"symbols is followed by a stage and a text in double quotes";
            notes.say(&[Span::Plain(text)])
        }
    }
}
