//! What is said of a condition whose words are there, but don't go with each other or with the form of the file.

use crate::condition_words::ConditionWords;
use crate::file_head::FileHead;
use crate::flag_faults::say_no_case;
use crate::form_faults::{WITHOUT_NOT, WITHOUT_OR, say_needs_form};
use crate::known_words::{
    CANONICAL_FIELDS, DOMAIN_FIELDS, NUMBER_FIELDS, WIDE_FIELDS, WIDE_TESTS, is_one_of,
};
use crate::reference_faults::say_bad_reference;
use milter_address::Network;
use milter_rules::{FileForm, Notes, Span};
use milter_text::Word;
use milter_wire::NoMemory;

/// Says what of the condition files that begin so don't have; answers whether there is such a thing.
pub(crate) fn say_misfit(
    notes: &mut Notes<'_>,
    head: FileHead<'_>,
    condition: ConditionWords<'_>,
) -> Result<bool, NoMemory> {
    match head.form {
        FileForm::First => say_wide_word(notes, condition),
        FileForm::Second if condition.test.is_keyword(b"in") => {
            say_bad_reference(notes, head, condition)
        }
        FileForm::Second => {
            let is_said = say_other_field(notes, condition.field, condition.test)?;
            Ok(is_said || say_bad_texts(notes, condition)?)
        }
    }
}

/// Says what of the condition needs the second form; answers whether there is such a thing.
fn say_wide_word(notes: &mut Notes<'_>, condition: ConditionWords<'_>) -> Result<bool, NoMemory> {
    if condition.negated {
        say_needs_form(notes, Span::Plain(b"not"), WITHOUT_NOT)?;
    } else if is_one_of(condition.field, WIDE_FIELDS) {
        say_needs_form(notes, Span::Word(condition.field), b"")?;
    } else if is_one_of(condition.test, WIDE_TESTS) {
        say_needs_form(notes, Span::Word(condition.test), b"")?;
    } else if condition.any_case {
        say_needs_form(notes, Span::Plain(b"any-case"), b"")?;
    } else if condition.texts.len() > 1 {
        say_needs_form(notes, Span::Plain(b"a second text"), WITHOUT_OR)?;
    } else {
        return Ok(false);
    }
    Ok(true)
}

/// Says which fields have the test, where this one doesn't; answers whether that is so.
pub(crate) fn say_other_field<'x>(
    notes: &mut Notes<'_>,
    field: &'x Word,
    test: &'x Word,
) -> Result<bool, NoMemory> {
    let fields: &[u8] = if test.is_keyword(b"over") && !is_one_of(field, NUMBER_FIELDS) {
        b"size and rcpts"
    } else if test.is_keyword(b"within") && !field.is_keyword(b"address") {
        b"address"
    } else if test.is_keyword(b"under") && !is_one_of(field, DOMAIN_FIELDS) {
        b"host, helo and domains"
    } else {
        return Ok(false);
    };
    let spans = [
        Span::Word(test),
        Span::Plain(b" is a test of "),
        Span::Plain(fields),
        Span::Plain(b", and not of "),
        Span::Word(field),
    ];
    notes.say(&spans)?;
    Ok(true)
}

/// Says what is wrong with the texts of a condition whose field has its test; answers whether there is such a thing.
fn say_bad_texts(notes: &mut Notes<'_>, condition: ConditionWords<'_>) -> Result<bool, NoMemory> {
    if condition.any_case && is_one_of(condition.test, "under|within") {
        say_no_case(notes, condition.test)?;
        return Ok(true);
    }
    if condition.test.is_keyword(b"under") {
        return say_dotted_domain(notes, condition.texts);
    }
    if condition.test.is_keyword(b"within") {
        return say_no_network(notes, condition.texts);
    }
    if condition.test.is_keyword(b"like") && condition.field.is_keyword(b"body") {
        let text = b"body isn't compared with patterns; body has TEXT finds a text in it";
        notes.say(&[Span::Plain(text)])?;
        return Ok(true);
    }
    if condition.any_case && is_one_of(condition.field, CANONICAL_FIELDS) {
        say_no_case(notes, condition.field)?;
        return Ok(true);
    }
    Ok(false)
}

/// Says which of the texts is a domain with a dot before it; answers whether there is one.
fn say_dotted_domain(notes: &mut Notes<'_>, texts: &[Word]) -> Result<bool, NoMemory> {
    match texts
        .iter()
        .find(|text| text.text.as_slice().starts_with(b"."))
    {
        Some(text) => {
            let begin = Span::Plain(b"a domain after under is due without a dot before it: ");
            notes.say(&[begin, Span::Word(text)])?;
            Ok(true)
        }
        None => Ok(false),
    }
}

/// Says which of the texts is no network; answers whether there is one.
fn say_no_network(notes: &mut Notes<'_>, texts: &[Word]) -> Result<bool, NoMemory> {
    match texts
        .iter()
        .find(|text| Network::parse(text.text.as_slice()).is_none())
    {
        Some(text) => {
            let end = Span::Plain(b" is no network, such as 192.0.2.0/24 or 2001:db8::/32");
            notes.say(&[Span::Word(text), end])?;
            Ok(true)
        }
        None => Ok(false),
    }
}
