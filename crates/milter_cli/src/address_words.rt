//! What is said of texts that are no addresses.

use crate::known_names::say_unknown;
use milter_rules::{Notes, Span};
use milter_wire::NoMemory;

/// What an address is.
const FORMS: &str = "an address is inet:PORT@HOST, as inet:8890@127.0.0.1, or unix:PATH";

/// What is meant by a text that is no address.
enum Meant<'a> {
    /// This port of this host.
    Inet(&'a str, &'a str),
    /// This path.
    Unix(&'a str),
}

/// Says why the text is no address, and which one is meant.
pub(crate) fn say_bad_address(notes: &mut Notes<'_>, text: &str) -> Result<(), NoMemory> {
    match text.split_once(':') {
        Some(("inet" | "inet6", place)) => say_bad_place(notes, text, place),
        Some(("unix", _)) => say_plainly(notes, text, "has no path after unix:"),
        Some(("local", path)) if !path.is_empty() => { say_meant(notes, text, Meant::Unix(path)) }
        _ => say_bad_kind(notes, text),
    }
}

/// Says what is wrong with a text, and what an address is.
fn say_plainly<'x>(notes: &mut Notes<'_>, text: &'x str, trouble: &'x str) -> Result<(), NoMemory> {
    let spans = [
        Span::Quoted(text.as_bytes()),
        Span::Plain(b" "),
        Span::Plain(trouble.as_bytes()),
        Span::Plain(b"; "),
        Span::Plain(FORMS.as_bytes()),
    ];
    notes.say(&spans)
}

/// Says how the address is written that a text means.
fn say_meant(notes: &mut Notes<'_>, text: &str, meant: Meant<'_>) -> Result<(), NoMemory> {
    let mut address = Vec::new(notes.alloc());
    put_address(&mut address, meant)?;
    say_written(notes, text.as_bytes(), address.as_slice())
}

/// Says that a text is written here as this address.
fn say_written<'x>(
    notes: &mut Notes<'_>,
    text: &'x [u8],
    address: &'x [u8],
) -> Result<(), NoMemory> {
    let spans = [
        Span::Quoted(text),
        Span::Plain(b" is written here as "),
        Span::Quoted(address),
        Span::Plain(b"; "),
        Span::Plain(FORMS.as_bytes()),
    ];
    notes.say(&spans)
}

/// Puts an address as it is written here.
fn put_address(out: &mut Vec<u8>, meant: Meant<'_>) -> Result<(), NoMemory> {
    match meant {
        Meant::Inet(port, host) => {
            out.extend_from_slice(b"inet:")?;
            out.extend_from_slice(port.as_bytes())?;
            out.push(b'@')?;
            out.extend_from_slice(host.as_bytes())?;
        }
        Meant::Unix(path) => {
            out.extend_from_slice(b"unix:")?;
            out.extend_from_slice(path.as_bytes())?;
        }
    }
    Ok(())
}

/// Says what is wrong with what stands after `inet:`.
fn say_bad_place(notes: &mut Notes<'_>, text: &str, place: &str) -> Result<(), NoMemory> {
    if let Some((port, host)) = place.split_once('@') {
        if !is_port(port) {
            return say_bad_port(notes, port);
        }
        if host.is_empty() {
            return say_plainly(notes, text, "has no host after the @");
        }
        return say_meant(notes, text, Meant::Inet(port, host));
    }
    match host_and_port(place) {
        Some((host, port)) => say_meant(notes, text, Meant::Inet(port, host)),
        None if is_port(place) => say_plainly(notes, text, "has no @HOST after the port"),
        None => say_plainly(notes, text, "has no port and host after its first word"),
    }
}

/// Says that this is no port.
fn say_bad_port(notes: &mut Notes<'_>, port: &str) -> Result<(), NoMemory> {
    let end = b" is no port, which is a number from 1 to 65535; an address is inet:PORT@HOST";
    notes.say(&[Span::Quoted(port.as_bytes()), Span::Plain(end)])
}

/// Says what is wrong with a text that begins with no kind of address.
fn say_bad_kind(notes: &mut Notes<'_>, text: &str) -> Result<(), NoMemory> {
    if text.starts_with('/') {
        return say_meant(notes, text, Meant::Unix(text));
    }
    if let Some((port, host)) = text.split_once('@')
        && is_port(port)
        && !host.is_empty()
    {
        return say_meant(notes, text, Meant::Inet(port, host));
    }
    match host_and_port(text) {
        Some((host, port)) => say_meant(notes, text, Meant::Inet(port, host)),
        None => say_other_kind(notes, text),
    }
}

/// Says that the word before the colon is no kind of address, or that there is none.
fn say_other_kind(notes: &mut Notes<'_>, text: &str) -> Result<(), NoMemory> {
    match text.split_once(':') {
        Some((kind, _)) if !kind.is_empty() => say_unknown(
            notes,
            "kind of address",
            "inet|unix",
            kind.as_bytes(),
        ),
        _ => say_plainly(notes, text, "has no inet: or unix: before it"),
    }
}

/// The host and the port in `HOST:PORT`, as Postfix writes them; an IPv6 address may be in brackets.
fn host_and_port(text: &str) -> Option<(&str, &str)> {
    let (host, port) = text.rsplit_once(':')?;
    let host = match host.strip_prefix('[') {
        Some(rest) => rest.strip_suffix(']')?,
        None => host,
    };
    if host.is_empty() || !is_port(port) {
        return None;
    }
    Some((host, port))
}

/// Whether it is a port: decimal digits, of a number from 1 to 65,535.
fn is_port(text: &str) -> bool {
    match text.parse::<u16>() {
        Ok(port) => port > 0 && !text.starts_with('+'),
        Err(_) => false,
    }
}
