//! The lines of session files: their first words, how each is written, and in which order they stand.

use milter_text::Word;

/// The first words of lines.
pub(crate) const FIRST_WORDS: &str = "client|helo|macro|message|sender|recipient|header|body|end";

/// The stages that have macros.
pub(crate) const MACRO_STAGES: &str = "connect|helo|mail|rcpt|data|eoh|eom";

/// The families of a client's address.
pub(crate) const FAMILIES: &str = "U|4|6|L";

/// How a line with this first word is written; one with another is written `end`.
const FORMS: &[(&str, &str)] = &[
    (
        "client",
        "client U TEXT, or client 4 TEXT NUMBER TEXT (4, 6 or L)",
    ),
    ("helo", "helo TEXT"),
    ("macro", "macro STAGE TEXT TEXT"),
    ("message", "message"),
    ("sender", "sender TEXT .."),
    ("recipient", "recipient TEXT .."),
    ("header", "header TEXT TEXT"),
    ("body", "body TEXT"),
];

/// The first words of the lines that may follow a line with this first word.
const DUE: &[(&str, &str)] = &[
    ("client", "helo"),
    ("helo", "macro|message"),
    ("macro", "macro|message"),
    ("message", "sender"),
    ("sender", "recipient|header|body|end"),
    ("recipient", "recipient|header|body|end"),
    ("header", "header|body|end"),
    ("body", "body|end"),
    ("end", "message"),
];

/// What stands beside the word in these rows; none where no row has it.
pub(crate) fn beside(rows: &[(&'static str, &'static str)], word: &[u8]) -> Option<&'static str> {
    for (first, second) in rows {
        if first.as_bytes() == word {
            return Some(second);
        }
    }
    None
}

/// How a line with this first word is written.
pub(crate) fn form_of(first: &[u8]) -> &'static str {
    beside(FORMS, first).unwrap_or("end")
}

/// The first words of the lines that may follow a line with this first word; those of the first line where there is
/// none before it.
pub(crate) fn due_after(before: &[u8]) -> &'static str {
    beside(DUE, before).unwrap_or("client")
}

/// Whether the words, but for their order in the file, are a line of its form.
pub(crate) fn has_form(words: &[Word]) -> bool {
    match words {
        [first] => first.is_keyword(b"message") || first.is_keyword(b"end"),
        [first, text] if first.is_keyword(b"helo") || first.is_keyword(b"body") => text.quoted,
        [first, texts @ ..] if first.is_keyword(b"sender") || first.is_keyword(b"recipient") => {
            texts.iter().all(|word| word.quoted)
        }
        [first, name, value] if first.is_keyword(b"header") => name.quoted && value.quoted,
        [first, _, name, value] if first.is_keyword(b"macro") => name.quoted && value.quoted,
        _ => false,
    }
}

/// The first of the words that is plain and is to be a text in quotes.
pub(crate) fn unquoted_text(words: &[Word]) -> Option<&Word> {
    match words {
        [first, _, texts @ ..] if first.is_keyword(b"macro") => {
            texts.iter().find(|word| !word.quoted)
        }
        [first, texts @ ..] if !first.is_keyword(b"client") => {
            texts.iter().find(|word| !word.quoted)
        }
        [_, _, host] => unquoted(host),
        [_, _, host, _, address] => unquoted(host).or(unquoted(address)),
        _ => None,
    }
}

/// This word, where it is plain.
fn unquoted(word: &Word) -> Option<&Word> {
    if word.quoted { None } else { Some(word) }
}
