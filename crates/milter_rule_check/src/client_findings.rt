//! What is said of texts that are compared with the address of a client.

use crate::advice::{advice_end, within_instead};
use crate::compared::{outcome_unfound, say_empty};
use crate::networks_meant::network_meant;
use milter_address::{Address, Network};
use milter_filter_rules::Test;
use milter_rules::{Compared, FileForm, Notes, Span};
use milter_wire::NoMemory;

/// Says what is to be said of a text that is compared with the address of a client, in a file of this form.
pub(crate) fn say_client_text(
    notes: &mut Notes<'_>,
    form: FileForm,
    compared: Compared<'_>,
) -> Result<(), NoMemory> {
    let text = compared.text;
    if text.is_empty() {
        return say_empty(notes, compared);
    }
    if Address::parse(text).is_some() {
        return Ok(());
    }
    if Network::parse(text).is_some() {
        return say_network(notes, form, compared);
    }
    // What begins with a slash is the path of a Unix socket.
    if compared.test == Test::Is && !text.starts_with(b"/") {
        return say_no_address(notes, form, compared);
    }
    Ok(())
}

/// Says that no address of a client is this network, and which condition finds those within it.
fn say_network(
    notes: &mut Notes<'_>,
    form: FileForm,
    compared: Compared<'_>,
) -> Result<(), NoMemory> {
    let spans = [
        Span::Compared(compared),
        Span::Plain(outcome_unfound(compared)),
        Span::Plain(b": the address of a client is no network; write "),
        within_instead(compared),
        Span::Quoted(compared.text),
        advice_end(form),
    ];
    notes.say(&spans)
}

/// Says that the text is no address, and which condition finds those of the network that is meant, if one is.
fn say_no_address(
    notes: &mut Notes<'_>,
    form: FileForm,
    compared: Compared<'_>,
) -> Result<(), NoMemory> {
    let condition = Span::Compared(compared);
    let outcome = Span::Plain(outcome_unfound(compared));
    let colon = Span::Plain(b": ");
    let text = Span::Quoted(compared.text);
    match network_meant(notes.alloc(), compared.text)? {
        Some(network) => {
            let spans = [
                condition,
                outcome,
                colon,
                text,
                Span::Plain(b" is no IP address; write "),
                within_instead(compared),
                Span::Quoted(network.as_slice()),
                advice_end(form),
            ];
            notes.say(&spans)
        }
        None => {
            let end = Span::Plain(b" is no IP address, such as 192.0.2.1");
            notes.say(&[condition, outcome, colon, text, end])
        }
    }
}
