//! What is said of texts that are compared with an address as the client wrote it.

use crate::advice::{advice_end, end_of_path, macro_of, on_part, part_field, without_brackets};
use crate::compared::{outcome_unfound, part_of};
use crate::rule_findings::CheckedFile;
use milter_address::{canonical_address, domain_of};
use milter_filter_rules::{Check, Condition, Field, PathPart, Rule, Rules, Test, TextCheck};
use milter_rules::{Compared, FileForm, Notes, Span};
use milter_wire::{NoMemory, Stage};

/// What is said of an address without brackets.
const BARE: &[u8] = b" holds only where a client leaves out the <> of an address";

/// What is said of the opposite.
const NOT_BARE: &[u8] = b" fails only where a client leaves out the <> of an address";

/// What is said of an address in brackets.
const IN_BRACKETS: &[u8] =
    b" misses the same address in other case, in quotes, with a source route or with a dot at its end";

/// How an address is written in a text.
#[derive(Clone, Copy, PartialEq, Eq)]
enum Form {
    /// As nothing, which may be meant for the null sender.
    Empty,
    /// As its end alone, from its `@` on.
    End,
    /// Without brackets.
    Bare,
    /// In brackets, with a domain.
    InBrackets,
    /// In another way: as the null sender, without a domain, or with one bracket.
    Other,
}

/// How the address is written in this text, where this is the canonical one.
fn form_of(text: &[u8], address: &[u8]) -> Form {
    match text {
        [] => Form::Empty,
        [b'@', ..] if !text.contains(&b':') => Form::End,
        [b'<', .., b'>'] if !domain_of(address).is_empty() => Form::InBrackets,
        [b'<', ..] | [.., b'>'] => Form::Other,
        _ => Form::Bare,
    }
}

/// Says what is to be said of a text that is compared with an address as the client wrote it, where no other condition
/// of the file compares the same address otherwise.
pub(crate) fn say_path_text(
    notes: &mut Notes<'_>,
    file: CheckedFile<'_>,
    compared: Compared<'_>,
) -> Result<(), NoMemory> {
    if compared.test == Test::Is {
        return say_whole_text(notes, file, compared);
    }
    if !is_bare_part(compared.test, compared.text) {
        return Ok(());
    }
    say_bare(notes, file.form, compared, without_brackets(compared.text))
}

/// Whether the text is compared with an end of an address, and lacks the bracket there.
fn is_bare_part(test: Test, text: &[u8]) -> bool {
    if text.is_empty() {
        return false;
    }
    match test {
        Test::Begins => !text.starts_with(b"<"),
        Test::Ends => !text.ends_with(b">"),
        Test::Like => {
            !matches!(text, [b'<' | b'*' | b'?', ..]) || !matches!(text, [.., b'>' | b'*' | b'?'])
        }
        Test::Is | Test::Has | Test::Lacks | Test::Under => false,
    }
}

/// Says what is to be said of a text that is compared with a whole address.
fn say_whole_text(
    notes: &mut Notes<'_>,
    file: CheckedFile<'_>,
    compared: Compared<'_>,
) -> Result<(), NoMemory> {
    let address = canonical_address(notes.alloc(), compared.text)?;
    let address = address.as_slice();
    let form = form_of(compared.text, address);
    if form == Form::Other || is_compared_otherwise(file.rules, compared, address) {
        return Ok(());
    }
    match form {
        Form::Other => Ok(()),
        Form::Empty => say_empty_path(notes, compared),
        Form::End => say_end(notes, file.form, compared),
        Form::Bare => say_bare(notes, file.form, compared, address),
        Form::InBrackets => say_in_brackets(notes, file.form, compared, address),
    }
}

/// Says that the null sender isn't written so.
fn say_empty_path(notes: &mut Notes<'_>, compared: Compared<'_>) -> Result<(), NoMemory> {
    let outcome = Span::Plain(outcome_unfound(compared));
    let end = Span::Plain(b" over SMTP: the null sender is written \"<>\"");
    notes.say(&[Span::Compared(compared), outcome, end])
}

/// Says of an address without brackets where it is found; and which condition finds this one however the client wrote
/// it, where that has a domain.
fn say_bare<'x>(
    notes: &mut Notes<'_>,
    form: FileForm,
    compared: Compared<'x>,
    address: &'x [u8],
) -> Result<(), NoMemory> {
    let text = if compared.negated { NOT_BARE } else { BARE };
    let is_whole = compared.test == Test::Is;
    match part_field(compared.field, PathPart::Address) {
        Some(field) if !is_whole || !domain_of(address).is_empty() => {
            let spans = [
                Span::Compared(compared),
                Span::Plain(text),
                Span::Plain(b"; write "),
                Span::Compared(on_part(compared, &field, compared.test, address)),
                advice_end(form),
            ];
            notes.say(&spans)
        }
        _ => notes.say(&[Span::Compared(compared), Span::Plain(text)]),
    }
}

/// Says of an address in brackets that it is written in other ways too, and which condition finds it however the
/// client wrote it.
fn say_in_brackets<'x>(
    notes: &mut Notes<'_>,
    form: FileForm,
    compared: Compared<'x>,
    address: &'x [u8],
) -> Result<(), NoMemory> {
    let Some(field) = part_field(compared.field, PathPart::Address) else {
        return Ok(());
    };
    let spans = [
        Span::Compared(compared),
        Span::Plain(IN_BRACKETS),
        Span::Plain(b"; write "),
        Span::Compared(on_part(compared, &field, Test::Is, address)),
        advice_end(form),
    ];
    notes.say_hint(&spans)
}

/// Says that the text is the end of an address alone.
fn say_end(notes: &mut Notes<'_>, form: FileForm, compared: Compared<'_>) -> Result<(), NoMemory> {
    let middle = Span::Plain(b" compares the whole address; write ");
    match (form, part_field(compared.field, PathPart::Domain)) {
        (FileForm::Second, Some(field)) => {
            let domain = end_domain(compared.text);
            let instead = on_part(compared, &field, Test::Is, domain);
            let spans = [Span::Compared(compared), middle, Span::Compared(instead)];
            notes.say(&spans)
        }
        _ => {
            let part = end_of_path(notes.alloc(), compared.text)?;
            let instead = Span::Compared(part_of(compared, part.as_slice()));
            notes.say(&[Span::Compared(compared), middle, instead])
        }
    }
}

/// The domain in the end of an address, from its `@` on.
fn end_domain(text: &[u8]) -> &[u8] {
    match without_brackets(text) {
        [b'@', domain @ ..] => domain,
        bare => bare,
    }
}

/// Whether a condition of the rules compares this canonical address by its macro or as an address, or what is compared
/// in brackets.
fn is_compared_otherwise(rules: &Rules, compared: Compared<'_>, address: &[u8]) -> bool {
    Stage::ALL
        .iter()
        .any(|stage| rules_compare(rules.at(*stage), compared, address))
}

/// Whether a condition of these rules does.
fn rules_compare(rules: &[Rule], compared: Compared<'_>, address: &[u8]) -> bool {
    rules.iter().any(|rule| conditions_compare(rule.conditions.as_slice(), compared, address))
}

/// Whether one of these conditions does.
fn conditions_compare(conditions: &[Condition], compared: Compared<'_>, address: &[u8]) -> bool {
    conditions.iter().any(|condition| condition_compares(condition, compared, address))
}

/// Whether the condition does.
fn condition_compares(condition: &Condition, compared: Compared<'_>, address: &[u8]) -> bool {
    match &condition.check {
        Check::Text(check) => check_compares(check, compared, address),
        Check::Within(_) | Check::Over(..) | Check::In(..) => false,
    }
}

/// Whether the check does.
fn check_compares(check: &TextCheck, compared: Compared<'_>, address: &[u8]) -> bool {
    if check.test != Test::Is {
        return false;
    }
    match &check.field {
        Field::Macro(name) => {
            macro_of(compared.field) == Some(name.as_slice()) && has_address(check, address)
        }
        field if field == compared.field => check
            .texts
            .as_slice()
            .iter()
            .any(|text| is_in_brackets(text.as_slice(), compared.text)),
        field if field.path_part() == Some(PathPart::Address) => {
            is_of_same_path(field, compared.field) && has_address(check, address)
        }
        _ => false,
    }
}

/// Whether the check has the address as one of its texts. The case of letters doesn't count.
fn has_address(check: &TextCheck, address: &[u8]) -> bool {
    check
        .texts
        .as_slice()
        .iter()
        .any(|text| text.as_slice().eq_ignore_ascii_case(address))
}

/// Whether both fields look at the sender, or both at recipients.
fn is_of_same_path(field: &Field, other: &Field) -> bool {
    match (field, other) {
        (Field::Sender(_), Field::Sender(_)) => true,
        (Field::Rcpt(_) | Field::Recipients(_), Field::Rcpt(_) | Field::Recipients(_)) => true,
        _ => false,
    }
}

/// Whether the text is the other one in brackets.
fn is_in_brackets(text: &[u8], other: &[u8]) -> bool {
    match text {
        [b'<', inner @ .., b'>'] => inner == other,
        _ => false,
    }
}
