//! What is said of the line of a list.

use crate::file_head::FileHead;
use crate::form_faults::say_needs_form;
use crate::known_words::{is_one_of, say_missing, say_unknown, say_unquoted};
use crate::list_words::LIST_KIND;
use milter_lists::is_list_name;
use milter_rules::{FileForm, Notes, Span};
use milter_text::Word;
use milter_wire::NoMemory;

/// Says what is wrong with a line that begins with `list`, in a file that begins so.
pub(crate) fn say_bad_list_line(
    notes: &mut Notes<'_>,
    head: FileHead<'_>,
    words: &[Word],
) -> Result<(), NoMemory> {
    if head.form == FileForm::First {
        return say_needs_form(notes, Span::Plain(b"list"), b"");
    }
    match words {
        [_, name, ..] if !is_name(name) => say_bad_name(notes, name),
        [_, name] => say_missing(notes, &LIST_KIND, Span::Word(name)),
        [_, _, kind, ..] if !is_one_of(kind, LIST_KIND.names) => {
            say_unknown(notes, &LIST_KIND, kind)
        }
        [_, name, kind, path @ ..] => match path {
            [path] if path.quoted => say_no_place(notes, head, name),
            [path, ..] if path.quoted => say_form(notes),
            _ => say_unquoted(notes, b"a path", kind, path),
        },
        _ => say_form(notes),
    }
}

/// Whether the word is the name of a list.
fn is_name(word: &Word) -> bool {
    word.keyword().is_some_and(|name| is_list_name(name))
}

/// Says that the word is no name of a list.
fn say_bad_name(notes: &mut Notes<'_>, word: &Word) -> Result<(), NoMemory> {
    let text = word.text.as_slice();
    if is_list_name(text) {
        let begin = Span::Plain(b"name ");
        let end = Span::Plain(b" is due without quotes");
        return notes.say(&[begin, Span::Quoted(text), end]);
    }
    let end = b" is no name of a list: that is ASCII letters, digits, - . and _";
    notes.say(&[Span::Quoted(text), Span::Plain(end)])
}

/// Says what the form of a list's line is.
fn say_form(notes: &mut Notes<'_>) -> Result<(), NoMemory> {
    let text = b"the form is list NAME KIND FILE, with FILE in double quotes";
    notes.say(&[Span::Plain(text)])
}

/// Says why a line with the form of a list's can't be where it is: the name is given before, or another line comes
/// before it.
fn say_no_place(notes: &mut Notes<'_>, head: FileHead<'_>, name: &Word) -> Result<(), NoMemory> {
    if head.lists.is_some() {
        let text = b"lists are due right behind the first line, before all others";
        return notes.say(&[Span::Plain(text)]);
    }
    let begin = Span::Plain(b"list ");
    let end = Span::Plain(b" is given a second time; each list has a name of its own");
    notes.say(&[begin, Span::Word(name), end])
}
