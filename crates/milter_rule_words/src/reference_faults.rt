//! What is said of a condition that refers to a list.

use crate::condition_words::ConditionWords;
use crate::file_head::FileHead;
use crate::flag_faults::say_no_case;
use crate::known_words::{Kind, is_joint, is_one_of, say_unknown_name};
use crate::list_words::fields_of;
use crate::nearest::name_meant;
use milter_address::Network;
use milter_rules::{ListSource, Notes, Span};
use milter_text::Word;
use milter_wire::NoMemory;
use std::str;

/// The most bytes of the names of all lists that are shown.
const NAMES_SHOWN_MAX: usize = 200;

/// Says what is due after `in`, after this field, in place of these words, which don't begin with a plain one.
pub(crate) fn say_no_name(
    notes: &mut Notes<'_>,
    head: FileHead<'_>,
    field: &Word,
    words: &[Word],
) -> Result<(), NoMemory> {
    let due = Span::Plain(b"the name of a list is due after in");
    let [word, ..] = words else {
        return notes.say(&[due]);
    };
    let text = word.text.as_slice();
    let quoted = Span::Quoted(text);
    if head.list_named(text).is_some() {
        let end = Span::Plain(b" is due without quotes");
        return notes.say(&[Span::Plain(b"list "), quoted, end]);
    }
    let middle = Span::Plain(b", in place of ");
    let end: &[u8] = if field.is_keyword(b"address") && Network::parse(text).is_some() {
        b"; a network is due after within"
    } else {
        b""
    };
    notes.say(&[due, middle, quoted, Span::Plain(end)])
}

/// Says what is wrong with the list of a condition, or with what comes after its name; answers whether there is such a
/// thing.
pub(crate) fn say_bad_reference(
    notes: &mut Notes<'_>,
    head: FileHead<'_>,
    condition: ConditionWords<'_>,
) -> Result<bool, NoMemory> {
    let [name, ..] = condition.texts else {
        return Ok(false);
    };
    match head.list_named(name.text.as_slice()) {
        Some(list) => {
            Ok(
                say_other_kind(notes, list, condition.field)?
                    || say_second_name(notes, head, condition.rest)?,
            )
        }
        None => {
            say_no_list(notes, head, condition.test, name)?;
            Ok(true)
        }
    }
}

/// Says that the plain word after `in` is the name of no list.
fn say_no_list(
    notes: &mut Notes<'_>,
    head: FileHead<'_>,
    test: &Word,
    name: &Word,
) -> Result<(), NoMemory> {
    if name.is_keyword(b"any-case") {
        return say_no_case(notes, test);
    }
    if is_joint(name) {
        let text = b"the name of a list is due after in";
        return notes.say(&[Span::Plain(text)]);
    }
    say_unknown_list(notes, head, name.text.as_slice())
}

/// Says that no list has the name, and which one may be meant.
fn say_unknown_list(
    notes: &mut Notes<'_>,
    head: FileHead<'_>,
    name: &[u8],
) -> Result<(), NoMemory> {
    let names = head.list_names(notes.alloc())?;
    let Ok(names) = str::from_utf8(names.as_slice()) else {
        return Ok(());
    };
    let kind = Kind {
        called: b"list",
        names,
        others: &[],
    };
    let are_shown = !names.is_empty() && names.len() <= NAMES_SHOWN_MAX;
    if are_shown || name_meant(notes.alloc(), &kind, name)?.is_some() {
        return say_unknown_name(notes, &kind, name);
    }
    let begin = Span::Plain(b"list ");
    let end = Span::Plain(b" isn't known; a line list NAME KIND FILE gives one");
    notes.say(&[begin, Span::Quoted(name), end])
}

/// Says that the list isn't for this field, and for which ones it is; answers whether that is so.
fn say_other_kind<'x>(
    notes: &mut Notes<'_>,
    list: &'x ListSource,
    field: &'x Word,
) -> Result<bool, NoMemory> {
    let fields = fields_of(list.kind);
    if is_one_of(field, fields) {
        return Ok(false);
    }
    let spans = [
        Span::Plain(b"list "),
        Span::Quoted(list.name.as_slice()),
        Span::Plain(b" of "),
        Span::Plain(list.kind.name()),
        Span::Plain(b" is for "),
        Span::List(fields),
        Span::Plain(b", and not for "),
        Span::Word(field),
    ];
    notes.say(&spans)?;
    Ok(true)
}

/// Says that one list is due after `in`, where another one follows it; answers whether that is so.
fn say_second_name(
    notes: &mut Notes<'_>,
    head: FileHead<'_>,
    words: &[Word],
) -> Result<bool, NoMemory> {
    match words {
        [word, ..] if !is_joint(word) && head.list_named(word.text.as_slice()).is_some() => {
            let begin = Span::Plain(b"one list is due after in; ");
            let end = Span::Plain(b" is due in a condition of its own");
            notes.say(&[begin, Span::Quoted(word.text.as_slice()), end])?;
            Ok(true)
        }
        _ => Ok(false),
    }
}
