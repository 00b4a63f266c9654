//! What is written in place of a condition on an address as the client wrote it.

use milter_filter_rules::{Field, PathPart, Test};
use milter_rules::{Compared, FileForm, Span};
use milter_wire::NoMemory;
use std::alloc::Global;

/// The macro that has the address of the sender as the mail server reads it.
pub(crate) const MAIL_ADDR: &[u8] = b"{mail_addr}";

/// The macro that has the address of the recipient as the mail server reads it.
pub(crate) const RCPT_ADDR: &[u8] = b"{rcpt_addr}";

/// The macro that has the address of this field as the mail server reads it.
pub(crate) fn macro_of(field: &Field) -> Option<&'static [u8]> {
    match field {
        Field::Sender(_) => Some(MAIL_ADDR),
        Field::Rcpt(_) => Some(RCPT_ADDR),
        _ => None,
    }
}

/// The field with this part of the sender or of the recipients that this field looks at; none of another field.
pub(crate) fn part_field(field: &Field, part: PathPart) -> Option<Field> {
    match field {
        Field::Sender(_) => Some(Field::Sender(part)),
        Field::Rcpt(_) => Some(Field::Rcpt(part)),
        Field::Recipients(_) => Some(Field::Recipients(part)),
        _ => None,
    }
}

/// The condition with this test and text on another field, in which the case of letters doesn't count.
pub(crate) fn on_part<'a>(
    compared: Compared<'a>,
    field: &'a Field,
    test: Test,
    text: &'a [u8],
) -> Compared<'a> {
    Compared {
        negated: compared.negated,
        field,
        test,
        any_case: false,
        text,
    }
}

/// What comes before a network that is to be written in place of the text of this condition.
pub(crate) fn within_instead(compared: Compared<'_>) -> Span<'static> {
    if compared.negated != (compared.test == Test::Lacks) {
        Span::Plain(b"not address within ")
    } else {
        Span::Plain(b"address within ")
    }
}

/// What comes after a condition that a file of this form is advised to have.
pub(crate) fn advice_end(form: FileForm) -> Span<'static> {
    match form {
        FileForm::First => Span::Plain(b", and rules 2 as the first line of the file"),
        FileForm::Second => Span::Plain(b""),
    }
}

/// The bytes with the `>` after them that an address ends with.
pub(crate) fn end_of_path(alloc: Global, bytes: &[u8]) -> Result<Vec<u8>, NoMemory> {
    let mut path = Vec::new(alloc);
    path.extend_from_slice(bytes)?;
    if !bytes.ends_with(b">") {
        path.push(b'>')?;
    }
    Ok(path)
}

/// The bytes without the `<` and the `>` around an address, each where it is there.
pub(crate) fn without_brackets(bytes: &[u8]) -> &[u8] {
    without(bytes, b'<', b'>')
}

/// The bytes without this one before them and this one after them, each where it is there.
pub(crate) fn without(bytes: &[u8], before: u8, after: u8) -> &[u8] {
    let bytes = match bytes {
        [first, rest @ ..] if *first == before => rest,
        _ => bytes,
    };
    match bytes {
        [rest @ .., last] if *last == after => rest,
        _ => bytes,
    }
}
