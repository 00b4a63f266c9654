//! What is said of texts that are compared with canonical addresses, or with their domains.

use crate::advice::{on_part, part_field, without_brackets};
use crate::compared::say_unfound;
use memchr::memrchr;
use milter_filter_rules::{PathPart, Test};
use milter_rules::{Compared, Notes};
use milter_wire::NoMemory;

/// Why an address isn't found by a text with a bracket.
const NO_BRACKETS: &[u8] = b"this field has an address without <>";

/// Why an address isn't found by its end alone.
const WHOLE: &[u8] = b"this field has the whole address";

/// Why a domain isn't found by a text with more than that.
const DOMAIN_ALONE: &[u8] = b"this field has the domain alone";

/// Says what is to be said of a text that is compared with this part of an address.
pub(crate) fn say_part_text(
    notes: &mut Notes<'_>,
    compared: Compared<'_>,
    part: PathPart,
) -> Result<(), NoMemory> {
    match part {
        PathPart::Domain => say_domain_text(notes, compared),
        _ => say_address_text(notes, compared),
    }
}

/// Says what is to be said of a text that is compared with the canonical address.
fn say_address_text(notes: &mut Notes<'_>, compared: Compared<'_>) -> Result<(), NoMemory> {
    let text = compared.text;
    if compared.test == Test::Is {
        return match text {
            [b'@', domain @ ..] => {
                say_domain_instead(notes, compared, WHOLE, without_brackets(domain))
            }
            _ => Ok(()),
        };
    }
    let bare = without_brackets(text);
    if bare.len() == text.len() {
        return Ok(());
    }
    say_unfound(notes, compared, NO_BRACKETS, Some(compared.with_text(bare)))
}

/// Says what is to be said of a text that is compared with a domain.
fn say_domain_text(notes: &mut Notes<'_>, compared: Compared<'_>) -> Result<(), NoMemory> {
    let bare = without_brackets(compared.text);
    let domain = match memrchr(b'@', bare) {
        Some(at) => &bare[at + 1..],
        None => bare,
    };
    if domain.len() == compared.text.len() {
        return Ok(());
    }
    say_unfound(
        notes,
        compared,
        DOMAIN_ALONE,
        Some(compared.with_text(domain)),
    )
}

/// Says that the text is never found, for this reason, and the condition on the domain that is to be written instead.
fn say_domain_instead<'x>(
    notes: &mut Notes<'_>,
    compared: Compared<'x>,
    reason: &'x [u8],
    domain: &'x [u8],
) -> Result<(), NoMemory> {
    match part_field(compared.field, PathPart::Domain) {
        Some(field) => {
            let instead = on_part(compared, &field, Test::Is, domain);
            say_unfound(notes, compared, reason, Some(instead))
        }
        None => say_unfound(notes, compared, reason, None),
    }
}
