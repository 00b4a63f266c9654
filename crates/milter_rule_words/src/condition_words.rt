//! The parts of a condition in the words of a line.

ghost use Rattle.std.specs.Prelude.{◌<◌, ◌≤◌, IfSome, length};

use crate::known_words::{
    LONE_FIELDS, NAMED_FIELDS, NUMBER_FIELDS, WIDE_FIELDS, WIDE_TEST, is_one_of,
};
use crate::number_words::is_number_for;
use milter_text::Word;

/// The field that words begin with.
#[derive(Clone, Copy)]
pub(crate) struct FieldWords<'a> {
    /// Its word.
    pub(crate) field: &'a Word,
    /// The last word of it: its name, where it has one.
    pub(crate) last: &'a Word,
    /// The words after it.
    pub(crate) rest: &'a [Word],
}

/// The condition that words begin with.
#[derive(Clone, Copy)]
pub(crate) struct ConditionWords<'a> {
    /// Whether it begins with `not`.
    pub(crate) negated: bool,
    /// The word of its field.
    pub(crate) field: &'a Word,
    /// Its test.
    pub(crate) test: &'a Word,
    /// Whether `any-case` follows the test.
    pub(crate) any_case: bool,
    /// Its texts, from one on, or the name of its list; none where its field is a number.
    pub(crate) texts: &'a [Word],
    /// The words after it.
    pub(crate) rest: &'a [Word],
}

/// The words after the first two.
pub(crate) fn after_stage(words: &[Word]) -> &[Word] {
    match words {
        [_, _, rest @ ..] => rest,
        _ => &[],
    }
}

/// The words after the keyword that these begin with.
pub(crate) fn words_after<'a>(keyword: &[u8], words: &'a [Word]) -> Option<&'a [Word]>
    ensures { IfSome result (λ rest. length rest.now < length words.now) }
{
    match words {
        [first, rest @ ..] if first.is_keyword(keyword) => Some(rest),
        _ => None,
    }
}

/// Whether the words begin with the keyword, and the words after it.
pub(crate) fn flag_in<'a>(keyword: &[u8], words: &'a [Word]) -> (bool, &'a [Word])
    ensures { length result.1.now ≤ length words.now }
{
    match words_after(keyword, words) {
        Some(rest) => (true, rest),
        None => (false, words),
    }
}

/// The field that these words begin with; none where they begin with none.
pub(crate) fn field_in(words: &[Word]) -> Option<FieldWords<'_>>
    ensures { IfSome result (λ x. length x.rest.now ≤ length words.now) }
{
    match words {
        [field, rest @ ..] if is_one_of(field, LONE_FIELDS) || is_one_of(field, WIDE_FIELDS) => {
            Some(FieldWords {
                field,
                last: field,
                rest,
            })
        }
        [field, name, rest @ ..] if is_one_of(field, NAMED_FIELDS) && name.quoted => {
            Some(FieldWords {
                field,
                last: name,
                rest,
            })
        }
        _ => None,
    }
}

/// The condition that these words begin with; none where they begin with none.
pub(crate) fn condition_in(words: &[Word]) -> Option<ConditionWords<'_>>
    ensures { IfSome result (λ x. length x.rest.now ≤ length words.now) }
{
    let (negated, words) = flag_in(b"not", words);
    let found = field_in(words)?;
    if is_one_of(found.field, NUMBER_FIELDS) {
        number_condition_in(negated, found.field, found.rest)
    } else {
        text_condition_in(negated, found.field, found.rest)
    }
}

/// The condition on this field, which is a number, whose test these words begin with.
fn number_condition_in<'a>(
    negated: bool,
    field: &'a Word,
    words: &'a [Word],
) -> Option<ConditionWords<'a>>
    ensures { IfSome result (λ x. length x.rest.now ≤ length words.now) }
{
    match words {
        [test, number, rest @ ..] if test.is_keyword(b"over") && is_number_for(field, number) => {
            Some(ConditionWords {
                negated,
                field,
                test,
                any_case: false,
                texts: &[],
                rest,
            })
        }
        _ => None,
    }
}

/// The condition on this field, which is no number, whose test these words begin with.
fn text_condition_in<'a>(
    negated: bool,
    field: &'a Word,
    words: &'a [Word],
) -> Option<ConditionWords<'a>>
    ensures { IfSome result (λ x. length x.rest.now ≤ length words.now) }
{
    let [test, after @ ..] = words else {
        return None;
    };
    if test.is_keyword(b"in") {
        return list_condition_in(negated, field, test, after);
    }
    let (any_case, after) = flag_in(b"any-case", after);
    let (texts, rest) = texts_in(after);
    if texts.is_empty() || !is_one_of(test, WIDE_TEST.names) {
        return None;
    }
    Some(ConditionWords {
        negated,
        field,
        test,
        any_case,
        texts,
        rest,
    })
}

/// The condition on this field with `in`, after which a plain word is due as the name of a list.
fn list_condition_in<'a>(
    negated: bool,
    field: &'a Word,
    test: &'a Word,
    words: &'a [Word],
) -> Option<ConditionWords<'a>>
    ensures { IfSome result (λ x. length x.rest.now ≤ length words.now) }
{
    match words {
        [name, rest @ ..] if !name.quoted => Some(ConditionWords {
            negated,
            field,
            test,
            any_case: false,
            texts: &words[..1],
            rest,
        }),
        _ => None,
    }
}

/// The texts that these words begin with, and the words after them.
fn texts_in(words: &[Word]) -> (&[Word], &[Word])
    ensures { length result.1.now ≤ length words.now }
{
    match words.iter().position(|word| !word.quoted) {
        Some(end) => (&words[..end], &words[end..]),
        None => (words, &[]),
    }
}
