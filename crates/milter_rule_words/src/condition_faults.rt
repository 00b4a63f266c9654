//! What is said of a rule with a fault before its action.

ghost use Rattle.std.specs.Prelude.{◌<◌, IfSome, length};

use crate::condition_words::{
    FieldWords, after_stage, condition_in, field_in, flag_in, words_after,
};
use crate::file_head::FileHead;
use crate::flag_faults::{is_not, say_any_case_place, say_not_place};
use crate::form_faults::{WITHOUT_NOT, WITHOUT_OR, say_needs_form};
use crate::known_words::{
    FIELD, FIRST_JOINT, Kind, NAMED_FIELDS, NEXT_JOINT, NUMBER_FIELDS, STAGE, TEST, WIDE_ACTION,
    WIDE_FIELD, WIDE_FIELDS, WIDE_JOINT, WIDE_TEST, WIDE_TESTS, is_joint, is_one_of, say_missing,
    say_unknown, say_unquoted,
};
use crate::misfits::{say_misfit, say_other_field};
use crate::nearest::name_meant;
use crate::number_faults::say_bad_over;
use crate::reference_faults::say_no_name;
use milter_rules::{FileForm, Notes, Span};
use milter_text::Word;
use milter_wire::NoMemory;
use std::alloc::Global;

/// Where a condition stands.
#[derive(Clone, Copy)]
struct Place<'a> {
    /// What the first lines of the file give.
    head: FileHead<'a>,
    /// The word before it.
    joint: &'static [u8],
}

/// The fields of files of this form.
fn fields_of(form: FileForm) -> Kind<'static> {
    match form {
        FileForm::First => FIELD,
        FileForm::Second => WIDE_FIELD,
    }
}

/// The tests of files of this form.
fn tests_of(form: FileForm) -> Kind<'static> {
    match form {
        FileForm::First => TEST,
        FileForm::Second => WIDE_TEST,
    }
}

/// Says what is wrong with the stage of a line of these words.
pub(crate) fn say_bad_stage(notes: &mut Notes<'_>, words: &[Word]) -> Result<(), NoMemory> {
    match words {
        [_, stage, ..] if !is_joint(stage) => say_unknown(notes, &STAGE, stage),
        _ => say_missing(notes, &STAGE, Span::Plain(b"at")),
    }
}

/// Says what is wrong with a line of these words, of a file that begins so, after its stage and before its action.
pub(crate) fn say_bad_conditions(
    notes: &mut Notes<'_>,
    head: FileHead<'_>,
    words: &[Word],
) -> Result<(), NoMemory> {
    let mut is_first = true;
    let mut rest = after_stage(words);
    while let Some((joint, after)) = joint_in(head.form, is_first, rest) {
        let Some(condition) = condition_in(after) else {
            return say_bad_condition(notes, Place { head, joint }, after);
        };
        if say_misfit(notes, head, condition)? {
            return Ok(());
        }
        rest = condition.rest;
        is_first = false;
    }
    match rest {
        [word, ..] => say_bad_joint(notes, head.form, is_first, word),
        [] => {
            let text = b"do and an action are missing at the end of the line";
            notes.say(&[Span::Plain(text)])
        }
    }
}

/// The word before a condition that these begin with, and the words after it.
fn joint_in(form: FileForm, is_first: bool, words: &[Word]) -> Option<(&'static [u8], &[Word])>
    ensures { IfSome result (λ x. length x.1.now < length words.now) }
{
    let joint = joint_due(is_first);
    if let Some(rest) = words_after(joint, words) {
        return Some((joint, rest));
    }
    if is_first || form == FileForm::First {
        return None;
    }
    Some((b"or", words_after(b"or", words)?))
}

/// The word before a condition that is joined to those before it, if there are any.
fn joint_due(is_first: bool) -> &'static [u8] {
    if is_first { b"when" } else { b"and" }
}

/// Says what is wrong with the condition at this place.
fn say_bad_condition(
    notes: &mut Notes<'_>,
    place: Place<'_>,
    words: &[Word],
) -> Result<(), NoMemory> {
    let (negated, rest) = flag_in(b"not", words);
    if negated && place.head.form == FileForm::First {
        return say_needs_form(notes, Span::Plain(b"not"), WITHOUT_NOT);
    }
    match field_in(rest) {
        Some(found) => say_bad_test(notes, place.head, found),
        None => {
            let before: &[u8] = if negated { b"not" } else { place.joint };
            say_bad_field(notes, place.head.form, before, rest)
        }
    }
}

/// Says what is wrong with the field after this word.
fn say_bad_field(
    notes: &mut Notes<'_>,
    form: FileForm,
    before: &[u8],
    words: &[Word],
) -> Result<(), NoMemory> {
    match words {
        [word, ..] if is_not(word) => say_not_place(notes, form),
        [word, ..] if word.is_keyword(b"any-case") => say_any_case_place(notes, form),
        [field, rest @ ..] if is_one_of(field, NAMED_FIELDS) => {
            say_unquoted(notes, b"a name", field, rest)
        }
        [field, ..] if !is_joint(field) => say_unknown(notes, &fields_of(form), field),
        _ => say_missing(notes, &fields_of(form), Span::Plain(before)),
    }
}

/// Says what is wrong with this field, or with the test or the texts after it.
fn say_bad_test(
    notes: &mut Notes<'_>,
    head: FileHead<'_>,
    found: FieldWords<'_>,
) -> Result<(), NoMemory> {
    let form = head.form;
    if form == FileForm::First && is_one_of(found.field, WIDE_FIELDS) {
        return say_needs_form(notes, Span::Word(found.field), b"");
    }
    if is_one_of(found.field, NUMBER_FIELDS) {
        return say_bad_over(notes, found);
    }
    match found.rest {
        [word, ..] if is_not(word) => say_not_place(notes, form),
        [word, ..] if word.is_keyword(b"any-case") => say_any_case_place(notes, form),
        [test, rest @ ..] if is_one_of(test, WIDE_TEST.names) => {
            say_bad_texts(notes, head, found.field, test, rest)
        }
        [test, ..] if !is_joint(test) => say_unknown(notes, &tests_of(form), test),
        _ => say_missing(notes, &tests_of(form), Span::Word(found.last)),
    }
}

/// Says what is wrong with this test of the field, or with the texts after it.
fn say_bad_texts(
    notes: &mut Notes<'_>,
    head: FileHead<'_>,
    field: &Word,
    test: &Word,
    words: &[Word],
) -> Result<(), NoMemory> {
    let form = head.form;
    if form == FileForm::First && is_one_of(test, WIDE_TESTS) {
        return say_needs_form(notes, Span::Word(test), b"");
    }
    if say_other_field(notes, field, test)? {
        return Ok(());
    }
    match words {
        [word, ..] if is_not(word) => say_not_place(notes, form),
        _ if test.is_keyword(b"in") => say_no_name(notes, head, field, words),
        [any_case, rest @ ..] if any_case.is_keyword(b"any-case") => match form {
            FileForm::First => say_any_case_place(notes, form),
            FileForm::Second => say_unquoted(notes, b"a text", any_case, rest),
        },
        _ => say_unquoted(notes, text_due(test), test, words),
    }
}

/// What is due after this test.
fn text_due(test: &Word) -> &'static [u8] {
    if test.is_keyword(b"within") {
        b"a network"
    } else {
        b"a text"
    }
}

/// Says what is wrong with the word that stands in place of a word before a condition, or of `do`.
fn say_bad_joint<'x>(
    notes: &mut Notes<'_>,
    form: FileForm,
    is_first: bool,
    word: &'x Word,
) -> Result<(), NoMemory> {
    let quoted = Span::Quoted(word.text.as_slice());
    if is_one_of(word, WIDE_ACTION.names) {
        return notes.say(&[Span::Plain(b"do is missing before "), quoted]);
    }
    if is_one_of(word, WIDE_FIELD.names) {
        let middle = Span::Plain(b" is missing before ");
        return notes.say(&[Span::Plain(joint_due(is_first)), middle, quoted]);
    }
    if word.is_keyword(b"any-case") {
        return say_any_case_place(notes, form);
    }
    match form {
        _ if is_first => say_no_joint(notes, &FIRST_JOINT, joint_due(is_first), word),
        FileForm::First if word.is_keyword(b"or") => {
            say_needs_form(notes, Span::Plain(b"or"), WITHOUT_OR)
        }
        FileForm::First => say_no_joint(notes, &NEXT_JOINT, joint_due(is_first), word),
        FileForm::Second => say_unknown(notes, &WIDE_JOINT, word),
    }
}

/// Says that this joint or `do` is due in place of the word, or which word of this kind it is near to.
fn say_no_joint<'x>(
    notes: &mut Notes<'_>,
    kind: &Kind<'x>,
    joint: &'x [u8],
    word: &'x Word,
) -> Result<(), NoMemory> {
    if is_near(notes.alloc(), kind, word)? {
        return say_unknown(notes, kind, word);
    }
    let middle = Span::Plain(b" or do is due in place of ");
    let quoted = Span::Quoted(word.text.as_slice());
    notes.say(&[Span::Plain(joint), middle, quoted])
}

/// Whether the word is plain, and near to one of this kind.
fn is_near(alloc: Global, kind: &Kind<'_>, word: &Word) -> Result<bool, NoMemory> {
    match word.keyword() {
        Some(text) => Ok(name_meant(alloc, kind, text)?.is_some()),
        None => Ok(false),
    }
}
