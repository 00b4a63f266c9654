//! What is said of `not` and `any-case` where they can't stand.

use crate::form_faults::say_needs_form;
use crate::known_words::is_one_of;
use milter_rules::{FileForm, Notes, Span};
use milter_text::Word;
use milter_wire::NoMemory;

/// Whether the word is meant to turn a condition into its opposite.
pub(crate) fn is_not(word: &Word) -> bool {
    is_one_of(word, "not|isn't|!=|!")
}

/// Says where `not` is due.
pub(crate) fn say_not_place(notes: &mut Notes<'_>, form: FileForm) -> Result<(), NoMemory> {
    match form {
        FileForm::First => {
            let end = b", and is due before the field; lacks TEXT holds where has TEXT doesn't";
            say_needs_form(notes, Span::Plain(b"not"), end)
        }
        FileForm::Second => {
            let text = b"not is due before the field: not FIELD TEST TEXT";
            notes.say(&[Span::Plain(text)])
        }
    }
}

/// Says where `any-case` is due.
pub(crate) fn say_any_case_place(notes: &mut Notes<'_>, form: FileForm) -> Result<(), NoMemory> {
    match form {
        FileForm::First => say_needs_form(notes, Span::Plain(b"any-case"), b""),
        FileForm::Second => {
            let text = b"any-case is due after a test, before its texts";
            notes.say(&[Span::Plain(text)])
        }
    }
}

/// Says that `any-case` doesn't go with this field or this test.
pub(crate) fn say_no_case(notes: &mut Notes<'_>, word: &Word) -> Result<(), NoMemory> {
    let begin = Span::Plain(b"any-case isn't written with ");
    let end = Span::Plain(b", where the case of letters never counts");
    notes.say(&[begin, Span::Word(word), end])
}
