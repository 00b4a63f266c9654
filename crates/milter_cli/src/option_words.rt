//! What is said of values of options.

use milter_command_line::GivenMacro;
use milter_rule_words::say_fault;
use milter_rules::{Notes, RuleFault, Span};
use milter_wire::NoMemory;
use std::alloc::Global;

/// What is said of a value of `--macro` that gives no macro.
const MACRO_FORM: &[u8] =
    b" isn't STAGE:NAME=VALUE, where STAGE is connect, helo, mail, rcpt, data, eoh or eom";

/// What is said of macros that make the session too large.
const MACROS_TOO_LARGE: &[u8] =
    b"a packet has room for 65535 bytes of macros, and a message with its macros for 16777216 bytes";

/// Says why the value of an option names no set: as of the line of a rule file with this first word, after which the
/// same names stand.
pub(crate) fn say_bad_names(
    notes: &mut Notes<'_>,
    first_word: &str,
    names: &str,
) -> Result<(), NoMemory> {
    if names.is_empty() {
        let text = b"no value is given; it is names joined by |, or none";
        return notes.say(&[Span::Plain(text)]);
    }
    let line = line_of_names(notes.alloc(), first_word, names)?;
    let mut said = Notes::new(notes.alloc(), "");
    match say_fault(&mut said, line.as_slice(), RuleFault::UnknownWord(1)) {
        Ok(()) => notes.say(&[Span::Plain(after_place(said.text()))]),
        Err(error) => Err(error),
    }
}

/// The line of a rule file with this first word and these names.
fn line_of_names(alloc: Global, first_word: &str, names: &str) -> Result<Vec<u8>, NoMemory> {
    let mut line = Vec::new(alloc);
    line.extend_from_slice(first_word.as_bytes())?;
    line.push(b' ')?;
    line.extend_from_slice(names.as_bytes())?;
    Ok(line)
}

/// The line that was said, without its place, `:1: `, and its end.
fn after_place(said: &[u8]) -> &[u8] {
    let text = said.strip_prefix(b":1: ").unwrap_or(said);
    text.strip_suffix(b"\n").unwrap_or(text)
}

/// Says of each of these values of `--macro` that gives no macro what is due; or, where each gives one, that they are
/// too large with the session.
pub(crate) fn say_bad_macros(notes: &mut Notes<'_>, macros: &[&str]) -> Result<(), NoMemory> {
    let mut are_macros = true;
    for given in macros {
        if GivenMacro::parse(given).is_none() {
            let spans = [Span::Quoted(given.as_bytes()), Span::Plain(MACRO_FORM)];
            notes.say(&spans)?;
            are_macros = false;
        }
    }
    if are_macros {
        notes.say(&[Span::Plain(MACROS_TOO_LARGE)])?;
    }
    Ok(())
}

/// Says that no trials have this name.
pub(crate) fn say_bad_trials(notes: &mut Notes<'_>, name: &str) -> Result<(), NoMemory> {
    let spans = [
        Span::Plain(b"no trials have the name "),
        Span::Quoted(name.as_bytes()),
        Span::Plain(b"; milter_tool help probe lists the names"),
    ];
    notes.say(&spans)
}

/// Says why these digits are no mode.
pub(crate) fn say_bad_mode(notes: &mut Notes<'_>, digits: u32) -> Result<(), NoMemory> {
    let spans = [
        Span::Number(u64::from(digits)),
        Span::Plain(b" has a digit above 7; a mode is up to three octal digits, as 660"),
    ];
    notes.say(&spans)
}
