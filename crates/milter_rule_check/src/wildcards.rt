//! What is said of texts with wildcards, which most tests don't know.

use crate::advice::{
    MAIL_ADDR, RCPT_ADDR, advice_end, end_of_path, on_part, part_field, within_instead,
    without_brackets,
};
use crate::compared::part_of;
use crate::networks_meant::network_meant;
use milter_filter_rules::{Field, PathPart, Test};
use milter_rules::{Compared, FileForm, Notes, Span};
use milter_wire::NoMemory;
use std::alloc::Global;

/// What is said of a text with a `*`.
const FOR_ITSELF: &[u8] = b" takes the * for itself, and not for any text";

/// Says of a text with a `*`, in a file of this form, that this stands for itself, where that can't be meant; answers
/// whether that is so.
pub(crate) fn say_wildcard(
    notes: &mut Notes<'_>,
    form: FileForm,
    compared: Compared<'_>,
) -> Result<bool, NoMemory> {
    if !is_wildcard_meant(compared) {
        return Ok(false);
    }
    if let Some(network) = network_of(notes.alloc(), compared)? {
        say_network(notes, form, compared, network.as_slice())?;
        return Ok(true);
    }
    match form {
        FileForm::First => say_part_meant(notes, compared)?,
        FileForm::Second => say_test_meant(notes, compared)?,
    }
    Ok(true)
}

/// The network that is meant by a text that is compared with the address of a client, from its beginning on.
fn network_of(alloc: Global, compared: Compared<'_>) -> Result<Option<Vec<u8>>, NoMemory> {
    match (compared.field, compared.test) {
        (Field::Address, Test::Is | Test::Begins) => network_meant(alloc, compared.text),
        _ => Ok(None),
    }
}

/// Says that the `*` stands for itself, and which condition finds the addresses of this network.
fn say_network<'x>(
    notes: &mut Notes<'_>,
    form: FileForm,
    compared: Compared<'x>,
    network: &'x [u8],
) -> Result<(), NoMemory> {
    let spans = [
        Span::Compared(compared),
        Span::Plain(FOR_ITSELF),
        Span::Plain(b"; write "),
        within_instead(compared),
        Span::Quoted(network),
        advice_end(form),
    ];
    notes.say(&spans)
}

/// Says that the `*` stands for itself, and which part of a value is to be looked for instead, where there is one.
fn say_part_meant(notes: &mut Notes<'_>, compared: Compared<'_>) -> Result<(), NoMemory> {
    let condition = Span::Compared(compared);
    match part_meant(notes.alloc(), compared)? {
        Some(part) => say_instead(notes, compared, part_of(compared, part.as_slice())),
        None => notes.say(&[condition, Span::Plain(FOR_ITSELF)]),
    }
}

/// Says that the `*` stands for itself, and which condition is to be written instead.
fn say_instead<'x>(
    notes: &mut Notes<'_>,
    compared: Compared<'x>,
    instead: Compared<'x>,
) -> Result<(), NoMemory> {
    let spans = [
        Span::Compared(compared),
        Span::Plain(FOR_ITSELF),
        Span::Plain(b"; write "),
        Span::Compared(instead),
    ];
    notes.say(&spans)
}

/// Says that the `*` stands for itself, and with which test it doesn't.
fn say_test_meant(notes: &mut Notes<'_>, compared: Compared<'_>) -> Result<(), NoMemory> {
    let negated = compared.negated != (compared.test == Test::Lacks);
    let compared_again = Compared {
        negated,
        field: compared.field,
        test: compared.test,
        any_case: compared.any_case,
        text: compared.text,
    };
    if let Some(domain) = domain_meant(compared) {
        let instead = on_part(compared_again, compared.field, Test::Under, domain);
        return say_instead(notes, compared, instead);
    }
    if is_path(compared.field)
        && let Some(field) = part_field(compared.field, PathPart::Address)
    {
        let pattern = pattern_meant(
            notes.alloc(),
            compared.test,
            without_brackets(compared.text),
        )?;
        let instead = on_part(compared_again, &field, Test::Like, pattern.as_slice());
        return say_instead(notes, compared, instead);
    }
    let pattern = pattern_meant(notes.alloc(), compared.test, compared.text)?;
    let instead = Compared {
        negated,
        field: compared.field,
        test: Test::Like,
        any_case: compared.any_case,
        text: pattern.as_slice(),
    };
    say_instead(notes, compared, instead)
}

/// Whether the field is an address as the client wrote it.
fn is_path(field: &Field) -> bool {
    field.path_part() == Some(PathPart::Sent)
}

/// The domain that is meant by a text that begins with `*.`, where a domain is compared.
fn domain_meant(compared: Compared<'_>) -> Option<&[u8]> {
    if !is_domain(compared.field) {
        return None;
    }
    match compared.text {
        [b'*', b'.', domain @ ..]
            if !matches!(domain, [] | [b'.', ..]) && !domain.contains(&b'*') => { Some(domain) }
        _ => None,
    }
}

/// Whether the values of the field are domains.
fn is_domain(field: &Field) -> bool {
    matches!(field, Field::Host | Field::Helo) || field.path_part() == Some(PathPart::Domain)
}

/// The pattern for whole values that is meant by this text with this test.
fn pattern_meant(alloc: Global, test: Test, text: &[u8]) -> Result<Vec<u8>, NoMemory> {
    let is_part = matches!(test, Test::Has | Test::Lacks);
    let mut pattern = Vec::new(alloc);
    if (is_part || test == Test::Ends) && !text.starts_with(b"*") {
        pattern.push(b'*')?;
    }
    pattern.extend_from_slice(text)?;
    if (is_part || test == Test::Begins) && !text.ends_with(b"*") {
        pattern.push(b'*')?;
    }
    Ok(pattern)
}

/// Whether a `*` of the text can't be meant for itself. In an address of mail it may be, and in most texts.
fn is_wildcard_meant(compared: Compared<'_>) -> bool {
    let text = compared.text;
    if compared.test == Test::Like || !text.contains(&b'*') {
        return false;
    }
    let is_all = text == b"*".as_slice();
    match compared.field {
        Field::Host | Field::Address => true,
        Field::Helo | Field::Sender(_) | Field::Rcpt(_) | Field::Recipients(_) => {
            !is_all || compared.test == Test::Is
        }
        Field::Macro(name) => {
            let is_address = [MAIL_ADDR, RCPT_ADDR].contains(&name.as_slice());
            if is_all {
                compared.test == Test::Is
            } else {
                is_address
            }
        }
        Field::Header(_) | Field::Body => false,
    }
}

/// The part of a value that is meant by a text that begins with `*`, and has no other one.
fn part_meant(alloc: Global, compared: Compared<'_>) -> Result<Option<Vec<u8>>, NoMemory> {
    let is_path = is_path(compared.field);
    let rest = match compared.text {
        [b'<', b'*', rest @ ..] if is_path => rest,
        [b'*', rest @ ..] => rest,
        _ => return Ok(None),
    };
    if rest.contains(&b'*') {
        return Ok(None);
    }
    if is_path && !rest.is_empty() {
        return Ok(Some(end_of_path(alloc, rest)?));
    }
    let mut part = Vec::new(alloc);
    part.extend_from_slice(rest)?;
    Ok(Some(part))
}
