//! What is said of a condition that compares a number.

use crate::condition_words::FieldWords;
use crate::flag_faults::{is_not, say_not_place};
use crate::known_words::is_joint;
use crate::number_words::{has_digits_alone, has_needless_zero, highest_of};
use milter_rules::{FileForm, Notes, Span};
use milter_text::Word;
use milter_wire::NoMemory;

/// Says what is wrong with what stands after this field, which is a number, in a file of the second form.
pub(crate) fn say_bad_over(notes: &mut Notes<'_>, found: FieldWords<'_>) -> Result<(), NoMemory> {
    let due = Span::Plain(b"over NUMBER is due after ");
    let field = Span::Word(found.field);
    match found.rest {
        [word, ..] if is_not(word) => say_not_place(notes, FileForm::Second),
        [test, rest @ ..] if test.is_keyword(b"over") => {
            say_bad_number(notes, found.field, rest)
        }
        [word, ..] if !is_joint(word) => {
            let quoted = Span::Quoted(word.text.as_slice());
            notes.say(&[due, field, Span::Plain(b", in place of "), quoted])
        }
        _ => notes.say(&[due, field]),
    }
}

/// Says what is wrong with the number that is due after `over`, for this field.
fn say_bad_number(notes: &mut Notes<'_>, field: &Word, words: &[Word]) -> Result<(), NoMemory> {
    match words {
        [word, ..] if is_not(word) => say_not_place(notes, FileForm::Second),
        [number, ..] if number.quoted && has_digits_alone(number) => {
            let quoted = Span::Quoted(number.text.as_slice());
            let end = Span::Plain(b" is due without quotes");
            notes.say(&[Span::Plain(b"number "), quoted, end])
        }
        [number, ..] if !number.quoted && has_needless_zero(number) => {
            let begin = Span::Plain(b"a number after over is due without zeros before it: ");
            notes.say(&[begin, Span::Quoted(number.text.as_slice())])
        }
        [word, ..] if !is_joint(word) => say_number_due(notes, field, Some(word)),
        _ => say_number_due(notes, field, None),
    }
}

/// Says that a number for this field is due after `over`, in place of the word that stands there, if there is one.
fn say_number_due<'x>(
    notes: &mut Notes<'_>,
    field: &'x Word,
    word: Option<&'x Word>,
) -> Result<(), NoMemory> {
    let begin = Span::Plain(b"a number of at most ");
    let highest = Span::Number(highest_of(field));
    let due = Span::Plain(b" is due after over");
    match word {
        Some(word) => {
            let quoted = Span::Quoted(word.text.as_slice());
            let middle = Span::Plain(b", in place of ");
            notes.say(&[begin, highest, due, middle, quoted])
        }
        None => notes.say(&[begin, highest, due]),
    }
}
