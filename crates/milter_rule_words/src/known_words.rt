//! The words of rule files, and what is said of a word that is none of them.

use crate::nearest::name_meant;
use milter_rules::{Notes, Span};
use milter_text::Word;
use milter_wire::NoMemory;

/// Words that may stand at one place.
#[derive(Clone, Copy)]
pub(crate) struct Kind<'k> {
    /// What such a word is called.
    pub(crate) called: &'k [u8],
    /// The words, joined by `|`.
    pub(crate) names: &'k str,
    /// Words that aren't known, each with the one that is meant by it.
    pub(crate) others: &'k [(&'k str, &'k str)],
}

/// The first words of lines.
pub(crate) const FIRST_WORD: Kind<'static> = Kind {
    called: b"first word",
    names: "at|version|actions|protocol|symbols",
    others: &[("rules", "rules"), ("list", "list")],
};

/// The versions of the protocol.
pub(crate) const VERSION: Kind<'static> = Kind {
    called: b"version",
    names: "2|3|4|5|6",
    others: &[],
};

/// The stages that have rules.
pub(crate) const STAGE: Kind<'static> = Kind {
    called: b"stage",
    names: "connect|helo|mail|rcpt|data|header|eoh|body|eob",
    others: &[("eom", "eob"), ("from", "mail"), ("to", "rcpt")],
};

/// The stages that have macros.
pub(crate) const MACRO_STAGE: Kind<'static> = Kind {
    called: b"stage with macros",
    names: "connect|helo|mail|rcpt|data|eoh|eom",
    others: &[("eob", "eom"), ("from", "mail"), ("to", "rcpt")],
};

/// The words before conditions, and before an action that has none.
pub(crate) const FIRST_JOINT: Kind<'static> = Kind {
    called: b"word",
    names: "when|do",
    others: &[("if", "when"), ("then", "do")],
};

/// The words before one more condition, and before an action.
pub(crate) const NEXT_JOINT: Kind<'static> = Kind {
    called: b"word",
    names: "and|do",
    others: &[("&&", "and"), ("then", "do")],
};

/// The words before one more condition in a file of the second form, and before an action.
pub(crate) const WIDE_JOINT: Kind<'static> = Kind {
    called: b"word",
    names: "and|or|do",
    others: &[("&&", "and"), ("||", "or"), ("then", "do")],
};

/// The fields that have no name of their own.
pub(crate) const LONE_FIELDS: &str = "host|address|helo|sender|rcpt|body";

/// The fields that files of the second form alone have.
pub(crate) const WIDE_FIELDS: &str = "sender-address|sender-domain|rcpt-address|rcpt-domain|\
                                      recipients|recipients-address|recipients-domain|size|rcpts";

/// The fields that are numbers.
pub(crate) const NUMBER_FIELDS: &str = "size|rcpts";

/// The fields whose values are domains.
pub(crate) const DOMAIN_FIELDS: &str = "host|helo|sender-domain|rcpt-domain|recipients-domain";

/// The fields whose values are in a form in which the case of letters doesn't count.
pub(crate) const CANONICAL_FIELDS: &str = "sender-address|sender-domain|rcpt-address|rcpt-domain|\
                                           recipients-address|recipients-domain";

/// The fields that have a name of their own.
pub(crate) const NAMED_FIELDS: &str = "header|macro";

/// What is meant by words that are no fields here.
const OTHER_FIELDS: &[(&str, &str)] = &[
    ("from", "sender"),
    ("mail", "sender"),
    ("to", "rcpt"),
    ("recipient", "rcpt"),
    ("ip", "address"),
    ("subject", "header"),
];

/// All fields.
pub(crate) const FIELD: Kind<'static> = Kind {
    called: b"field",
    names: "host|address|helo|sender|rcpt|header|body|macro",
    others: OTHER_FIELDS,
};

/// All fields of files of the second form.
pub(crate) const WIDE_FIELD: Kind<'static> = Kind {
    called: b"field",
    names: "host|address|helo|sender|sender-address|sender-domain|rcpt|rcpt-address|rcpt-domain|\
            recipients|recipients-address|recipients-domain|header|body|macro|size|rcpts",
    others: OTHER_FIELDS,
};

/// The tests.
pub(crate) const TEST: Kind<'static> = Kind {
    called: b"test",
    names: "is|has|lacks",
    others: &[],
};

/// The tests that files of the second form alone have.
pub(crate) const WIDE_TESTS: &str = "begins|ends|like|under|within|over|in";

/// All tests of files of the second form.
pub(crate) const WIDE_TEST: Kind<'static> = Kind {
    called: b"test",
    names: "is|has|lacks|begins|ends|like|under|within|over|in",
    others: &[
        ("contains", "has"),
        ("equals", "is"),
        ("matches", "like"),
        ("starts", "begins"),
    ],
};

/// The words of actions.
pub(crate) const ACTION: Kind<'static> = Kind {
    called: b"action",
    names: "continue|accept|reject|tempfail|discard|skip|code|add-header|insert-header|change-header|\
            add-rcpt|add-rcpt-par|del-rcpt|change-from|replace-body|quarantine|progress",
    others: &[
        ("refuse", "reject"),
        ("deny", "reject"),
        ("defer", "tempfail"),
        ("drop", "discard"),
        ("pass", "continue"),
        ("delete-header", "change-header"),
    ],
};

/// The actions that files of the second form alone have.
pub(crate) const WIDE_ACTIONS: &str = "del-header|prefix-header";

/// The words of actions in files of the second form.
pub(crate) const WIDE_ACTION: Kind<'static> = Kind {
    called: b"action",
    names: "continue|accept|reject|tempfail|discard|skip|code|add-header|insert-header|change-header|\
            del-header|prefix-header|add-rcpt|add-rcpt-par|del-rcpt|change-from|replace-body|quarantine|progress",
    others: &[
        ("refuse", "reject"),
        ("deny", "reject"),
        ("defer", "tempfail"),
        ("drop", "discard"),
        ("pass", "continue"),
        ("delete-header", "del-header"),
        ("remove-header", "del-header"),
        ("prepend-header", "prefix-header"),
    ],
};

/// Whether the name is among these, which `|` joins.
pub(crate) fn has_name(names: &str, name: &[u8]) -> bool {
    names.split('|').any(|known| known.as_bytes() == name)
}

/// Whether the word is plain and among these names.
pub(crate) fn is_one_of(word: &Word, names: &str) -> bool {
    match word.keyword() {
        Some(name) => has_name(names, name),
        None => false,
    }
}

/// Whether the word stands before a condition or an action.
pub(crate) fn is_joint(word: &Word) -> bool {
    is_one_of(word, "when|and|or|do")
}

/// Says that the word is none of its kind, and which one may be meant.
pub(crate) fn say_unknown<'x>(
    notes: &mut Notes<'_>,
    kind: &Kind<'x>,
    word: &'x Word,
) -> Result<(), NoMemory> {
    let text = word.text.as_slice();
    if !word.quoted {
        return say_unknown_name(notes, kind, text);
    }
    let called = Span::Plain(kind.called);
    if has_name(kind.names, text) {
        let end = Span::Plain(b" is due without quotes");
        return notes.say(&[called, Span::Plain(b" "), Span::Quoted(text), end]);
    }
    let spans = [
        called,
        Span::Plain(b" is missing before "),
        Span::Quoted(text),
        Span::Plain(b"; known are "),
        Span::List(kind.names),
    ];
    notes.say(&spans)
}

/// Says that the name is none of its kind, and which one may be meant.
pub(crate) fn say_unknown_name<'x>(
    notes: &mut Notes<'_>,
    kind: &Kind<'x>,
    name: &'x [u8],
) -> Result<(), NoMemory> {
    let meant = name_meant(notes.alloc(), kind, name)?;
    let called = Span::Plain(kind.called);
    let blank = Span::Plain(b" ");
    let quoted = Span::Quoted(name);
    match meant {
        Some(meant) => {
            let middle = Span::Plain(b" isn't known; did you mean ");
            let meant = Span::Plain(meant.as_bytes());
            notes.say(&[called, blank, quoted, middle, meant, Span::Plain(b"?")])
        }
        None => {
            let middle = Span::Plain(b" isn't known; known are ");
            notes.say(&[called, blank, quoted, middle, Span::List(kind.names)])
        }
    }
}

/// Says that a word of this kind is missing after this one.
pub(crate) fn say_missing<'x>(
    notes: &mut Notes<'_>,
    kind: &Kind<'x>,
    before: Span<'x>,
) -> Result<(), NoMemory> {
    let spans = [
        Span::Plain(kind.called),
        Span::Plain(b" is missing after "),
        before,
        Span::Plain(b"; known are "),
        Span::List(kind.names),
    ];
    notes.say(&spans)
}

/// Says that something in double quotes, as a text, is due after this word, in place of those that stand there.
pub(crate) fn say_unquoted<'x>(
    notes: &mut Notes<'_>,
    due: &'x [u8],
    before: &'x Word,
    words: &'x [Word],
) -> Result<(), NoMemory> {
    let due = Span::Plain(due);
    let middle = Span::Plain(b" in double quotes is due after ");
    let before = Span::Word(before);
    match words {
        [word, ..] if !is_one_of(word, "when|and|or|do|is|has|lacks") => {
            let word = Span::Quoted(word.text.as_slice());
            notes.say(&[due, middle, before, Span::Plain(b": "), word])
        }
        _ => notes.say(&[due, middle, before]),
    }
}
