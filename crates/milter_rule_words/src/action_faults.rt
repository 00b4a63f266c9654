//! What is said of a rule whose action is none, or may not be done at its stage.

use crate::form_faults::say_needs_form;
use crate::known_words::{
    ACTION, Kind, WIDE_ACTION, WIDE_ACTIONS, is_one_of, say_missing, say_unknown, say_unquoted,
};
use milter_rules::{FileForm, Notes, Span};
use milter_text::Word;
use milter_wire::NoMemory;

/// What stands after the word of an action.
#[derive(Clone, Copy)]
struct Form {
    /// Whether a number comes first.
    has_number: bool,
    /// The fewest texts.
    least: usize,
    /// The most texts.
    most: usize,
    /// All of it, as it is written.
    text: &'static [u8],
}

/// So many texts, which are written so.
fn texts(least: usize, most: usize, text: &'static [u8]) -> Form {
    Form {
        has_number: false,
        least,
        most,
        text,
    }
}

/// The form of the action of this word.
fn form_of(action: &Word) -> Form {
    if is_one_of(
        action,
        "code|del-header|add-rcpt|del-rcpt|replace-body|quarantine",
    ) {
        texts(1, 1, b" TEXT")
    } else if is_one_of(action, "add-rcpt-par|change-from") {
        texts(1, 2, b" TEXT [TEXT]")
    } else if is_one_of(action, "add-header|prefix-header") {
        texts(2, 2, b" TEXT TEXT")
    } else if is_one_of(action, "insert-header|change-header") {
        Form {
            has_number: true,
            ..texts(2, 2, b" NUMBER TEXT TEXT")
        }
    } else {
        texts(0, 0, b"")
    }
}

/// The actions of files of this form.
fn actions_of(file: FileForm) -> Kind<'static> {
    match file {
        FileForm::First => ACTION,
        FileForm::Second => WIDE_ACTION,
    }
}

/// Says what is wrong with these words, which are to be an action of a file of this form.
pub(crate) fn say_bad_action(
    notes: &mut Notes<'_>,
    file: FileForm,
    words: &[Word],
) -> Result<(), NoMemory> {
    let known = actions_of(file);
    match words {
        [] => say_missing(notes, &known, Span::Plain(b"do")),
        [action, ..] if file == FileForm::First && is_one_of(action, WIDE_ACTIONS) => {
            say_needs_form(notes, Span::Word(action), b"")
        }
        [action, rest @ ..] if is_one_of(action, known.names) => {
            say_bad_words(notes, action, rest)
        }
        [action, ..] => say_unknown(notes, &known, action),
    }
}

/// Says what is wrong with these words, which stand after an action.
fn say_bad_words(notes: &mut Notes<'_>, action: &Word, words: &[Word]) -> Result<(), NoMemory> {
    let form = form_of(action);
    if form.most == 0 {
        return say_not_alone(notes, action);
    }
    if !form.has_number {
        return say_bad_texts(notes, action, form, action, words);
    }
    match words {
        [] => say_form(notes, action, form),
        [number, texts @ ..] if is_index(number) => {
            say_bad_texts(notes, action, form, number, texts)
        }
        [number, ..] => say_bad_number(notes, action, number),
    }
}

/// Whether the word is an index of header fields.
fn is_index(word: &Word) -> bool {
    match word.number() {
        Some(number) => u32::try_from(number).is_ok(),
        None => false,
    }
}

/// Says that nothing may stand after the action.
fn say_not_alone(notes: &mut Notes<'_>, action: &Word) -> Result<(), NoMemory> {
    let begin = Span::Plain(b"nothing is due after ");
    let end: &[u8] = if is_one_of(action, "reject|tempfail") {
        b"; an answer with a text is code TEXT"
    } else {
        b""
    };
    notes.say(&[begin, Span::Word(action), Span::Plain(end)])
}

/// Says that the action has another form.
fn say_form(notes: &mut Notes<'_>, action: &Word, form: Form) -> Result<(), NoMemory> {
    let begin = Span::Plain(b"the form is ");
    notes.say(&[begin, Span::Word(action), Span::Plain(form.text)])
}

/// Says that this word is no index.
fn say_bad_number<'x>(
    notes: &mut Notes<'_>,
    action: &'x Word,
    number: &'x Word,
) -> Result<(), NoMemory> {
    let spans = [
        Span::Plain(b"a number of at most 4294967295 is due after "),
        Span::Word(action),
        Span::Plain(b", in place of "),
        Span::Quoted(number.text.as_slice()),
    ];
    notes.say(&spans)
}

/// Says what is wrong with these words, which are to be the texts of the action, after this word of it.
fn say_bad_texts(
    notes: &mut Notes<'_>,
    action: &Word,
    form: Form,
    before: &Word,
    words: &[Word],
) -> Result<(), NoMemory> {
    if form.most == 1 && !words.is_empty() && words.iter().all(|word| !word.quoted) {
        return say_unquoted_words(notes, action, words);
    }
    if let Some((before, rest)) = first_unquoted(before, words, form.most) {
        return say_unquoted(notes, b"a text", before, rest);
    }
    if words.len() < form.least || words.len() > form.most {
        return say_form(notes, action, form);
    }
    match words.iter().find(|word| !word.text.has_no_nul()) {
        Some(_) => {
            let begin = Span::Plain(b"a text of ");
            let end = Span::Plain(b" can't have a NUL");
            notes.say(&[begin, Span::Word(action), end])
        }
        None => say_bad_code(notes, words),
    }
}

/// The first word of these that isn't in quotes, of the first so many, with the words after it, and the word before it;
/// `before` is the one before all of them.
fn first_unquoted<'a>(
    before: &'a Word,
    words: &'a [Word],
    most: usize,
) -> Option<(&'a Word, &'a [Word])> {
    match words {
        [first, ..] if !first.quoted => Some((before, words)),
        [first, second, ..] if most > 1 && !second.quoted => Some((first, &words[1..])),
        _ => None,
    }
}

/// Says that these words are due in double quotes, as one text.
fn say_unquoted_words(
    notes: &mut Notes<'_>,
    action: &Word,
    words: &[Word],
) -> Result<(), NoMemory> {
    let mut text = Vec::new(notes.alloc());
    for word in words {
        if !text.is_empty() {
            text.push(b' ')?;
        }
        text.extend_from_slice(word.text.as_slice())?;
    }
    let spans = [
        Span::Plain(b"a text in double quotes is due after "),
        Span::Word(action),
        Span::Plain(b": "),
        Span::Quoted(text.as_slice()),
    ];
    notes.say(&spans)
}

/// Says that the text of a code doesn't have the form of one.
fn say_bad_code(notes: &mut Notes<'_>, words: &[Word]) -> Result<(), NoMemory> {
    let [code, ..] = words else {
        return Ok(());
    };
    let end = b" is no reply code: it begins with three digits, the first of them 4 or 5";
    notes.say(&[Span::Quoted(code.text.as_slice()), Span::Plain(end)])
}

/// Says that the action of these words may not be done at the stage of the line.
pub(crate) fn say_action_not_here<'x>(
    notes: &mut Notes<'_>,
    line: &'x [Word],
    action: &'x [Word],
) -> Result<(), NoMemory> {
    let ([_, stage, ..], [action, ..]) = (line, action) else {
        return Ok(());
    };
    let rule: &[u8] = if action.is_keyword(b"skip") {
        b" is answered at body alone, not at "
    } else if action.is_keyword(b"discard") {
        b" is answered once there is a message, from mail on, not at "
    } else {
        b" is an edit, and is done at eob alone, not at "
    };
    notes.say(&[Span::Word(action), Span::Plain(rule), Span::Word(stage)])
}
