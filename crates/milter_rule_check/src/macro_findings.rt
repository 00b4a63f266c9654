//! What is said of conditions on macros.

use crate::advice::{MAIL_ADDR, RCPT_ADDR, without, without_brackets};
use crate::compared::{outcome_by, outcome_unfound, say_unfound};
use crate::rule_findings::CheckedFile;
use milter_filter_rules::Condition;
use milter_rules::{Compared, FileForm, Notes, Span};
use milter_wire::{MacroStage, NoMemory, SymList};

/// Why an address isn't found by a text with a bracket.
const NO_BRACKETS: &[u8] = b"this macro has an address without <>";

/// A macro with an address as the mail server reads it.
struct AddressMacro {
    /// Its name.
    name: &'static [u8],
    /// The stage with whose commands it comes.
    stage: MacroStage,
    /// Why it doesn't come where the symbol lists leave it out.
    not_asked_for: &'static [u8],
}

/// The macros with addresses.
const ADDRESS_MACROS: [AddressMacro; 2] = [
    AddressMacro {
        name: MAIL_ADDR,
        stage: MacroStage::Mail,
        not_asked_for: b"symbols mail replaces the mail server's own list, and doesn't name {mail_addr}",
    },
    AddressMacro {
        name: RCPT_ADDR,
        stage: MacroStage::Rcpt,
        not_asked_for: b"symbols rcpt replaces the mail server's own list, and doesn't name {rcpt_addr}",
    },
];

/// A condition on a macro that is never sent.
#[derive(Clone, Copy)]
struct MacroCondition<'a> {
    /// The condition, as it is shown.
    shown: Span<'a>,
    /// What becomes of it without a value.
    outcome: &'static [u8],
}

/// Says what is to be said of the name of a macro in a condition of the file, or else of the text that it is compared
/// with.
pub(crate) fn say_macro_text(
    notes: &mut Notes<'_>,
    file: CheckedFile<'_>,
    compared: Compared<'_>,
    name: &[u8],
) -> Result<(), NoMemory> {
    let condition = MacroCondition {
        shown: Span::Compared(compared),
        outcome: outcome_unfound(compared),
    };
    if say_macro_name(notes, file.rules.lists(), condition, name)? {
        return Ok(());
    }
    if ADDRESS_MACROS.iter().any(|found| found.name == name) {
        return say_address_text(notes, file.form, compared);
    }
    Ok(())
}

/// Says what is to be said of the name of a macro that the condition looks for in a list.
pub(crate) fn say_listed_macro(
    notes: &mut Notes<'_>,
    file: CheckedFile<'_>,
    condition: &Condition,
    name: &[u8],
) -> Result<(), NoMemory> {
    let shown = MacroCondition {
        shown: Span::Condition(condition),
        outcome: outcome_by(condition.negated),
    };
    say_macro_name(notes, file.rules.lists(), shown, name)?;
    Ok(())
}

/// Says why no macro of the name is sent, where these are the symbol lists of the file; answers whether that is so.
fn say_macro_name(
    notes: &mut Notes<'_>,
    lists: &[SymList],
    condition: MacroCondition<'_>,
    name: &[u8],
) -> Result<bool, NoMemory> {
    let bare = without(name, b'{', b'}');
    let is_braced = matches!(name, [b'{', .., b'}']);
    if bare.len() == 1 && name.len() > 1 {
        let reason = b"Postfix and Sendmail send names of one character without braces, as ";
        say_name(notes, condition, reason, bare)?;
        return Ok(true);
    }
    if bare.len() > 1 && !is_braced {
        let mut due = Vec::new(notes.alloc());
        due.push(b'{')?;
        due.extend_from_slice(bare)?;
        due.push(b'}')?;
        let reason = b"Postfix and Sendmail send names of more than one character in braces, as ";
        say_name(notes, condition, reason, due.as_slice())?;
        return Ok(true);
    }
    match ADDRESS_MACROS.iter().find(|found| found.name == name) {
        Some(found) if has_list(lists, found.stage) && !is_asked_for(lists, name) => {
            say_absent(notes, condition, found.not_asked_for)?;
            Ok(true)
        }
        _ => Ok(false),
    }
}

/// Whether there is a symbol list of the stage.
fn has_list(lists: &[SymList], stage: MacroStage) -> bool {
    lists.iter().any(|list| list.stage == stage.number())
}

/// Whether one of the symbol lists has the name.
fn is_asked_for(lists: &[SymList], name: &[u8]) -> bool {
    lists
        .iter()
        .any(|list| has_name(list.names.as_slice(), name))
}

/// Whether the name is among these, with blanks or commas between them.
fn has_name(names: &[u8], name: &[u8]) -> bool {
    names
        .split(|byte| matches!(*byte, b' ' | b','))
        .any(|other| other == name)
}

/// Says that no macro has the name, for this reason, and which one has a name like it.
fn say_name<'x>(
    notes: &mut Notes<'_>,
    condition: MacroCondition<'x>,
    reason: &'x [u8],
    due: &'x [u8],
) -> Result<(), NoMemory> {
    let spans = [
        condition.shown,
        Span::Plain(condition.outcome),
        Span::Plain(b": "),
        Span::Plain(reason),
        Span::Quoted(due),
    ];
    notes.say(&spans)
}

/// Says that the macro isn't sent, for this reason.
fn say_absent<'x>(
    notes: &mut Notes<'_>,
    condition: MacroCondition<'x>,
    reason: &'x [u8],
) -> Result<(), NoMemory> {
    let outcome = Span::Plain(condition.outcome);
    let reason = Span::Plain(reason);
    notes.say(&[condition.shown, outcome, Span::Plain(b": "), reason])
}

/// Says what is to be said of a text that is compared with an address as a mail server reads it, in a file of this
/// form.
fn say_address_text(
    notes: &mut Notes<'_>,
    form: FileForm,
    compared: Compared<'_>,
) -> Result<(), NoMemory> {
    let bare = without_brackets(compared.text);
    if bare.is_empty() {
        return Ok(());
    }
    let lower = bare.to_ascii_lowercase(notes.alloc())?;
    if bare.len() < compared.text.len() {
        let instead = compared.with_text(lower.as_slice());
        return say_unfound(notes, compared, NO_BRACKETS, Some(instead));
    }
    if compared.any_case || lower.as_slice() == bare {
        return Ok(());
    }
    let needs: &[u8] = match form {
        FileForm::First => b" needs --ignore-case",
        FileForm::Second => b" needs any-case",
    };
    say_case(notes, compared, needs, lower.as_slice())
}

/// Says that the condition needs this by the case of its letters, and the text that may be written instead.
fn say_case<'x>(
    notes: &mut Notes<'_>,
    compared: Compared<'x>,
    needs: &'x [u8],
    text: &'x [u8],
) -> Result<(), NoMemory> {
    let spans = [
        Span::Compared(compared),
        Span::Plain(needs),
        Span::Plain(b": over SMTP Postfix sends this macro in lower case; or write "),
        Span::Compared(compared.with_text(text)),
    ];
    notes.say(&spans)
}
