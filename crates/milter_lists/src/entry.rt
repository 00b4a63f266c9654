//! Entries, each as what is kept of it.

ghost use Rattle.std.specs.Prelude.{◌≡◌, IfOk, option_map};
ghost use Rattle.std.specs.List.{list_all};
ghost use Rattle.std.specs.Str.{bytes_eq};
ghost use Rattle.milter_lists.specs.Listed.{is_address, is_domain, is_domain_byte, is_name, is_visible, without_dot};
ghost use Rattle.milter_lists.specs.ParsedEntries.{IsParsed};
ghost use Rattle.milter_lists.specs.declared.list_kind.ListKind.TheVariants as kinds;

use crate::list_kind::ListKind;
use milter_address::{Network, canonical_address, canonical_domain};
use milter_fields::NoMemory;
use std::alloc::Global;

/// An entry of a list.
#[derive(Drop)]
pub(crate) enum Entry {
    /// The canonical form of an address or a domain, or a text in lower case.
    Key(Vec<u8>),
    /// A network.
    Block(Network),
}

/// An entry of a list of this kind, or none where it isn't one.
pub(crate) fn parse_entry(
    alloc: Global,
    kind: ListKind,
    entry: &[u8],
) -> Result<Option<Entry>, NoMemory>
    ensures { IfOk result (IsParsed kind entry.now) }
{
    match kind {
        ListKind::Addresses => parse_address(alloc, entry),
        ListKind::Domains => parse_domain(alloc, entry),
        ListKind::Networks => Ok(parse_network(entry)),
        ListKind::Texts => Ok(Some(Entry::Key(entry.to_ascii_lowercase(alloc)?))),
    }
}

/// The canonical form of an address.
fn parse_address(alloc: Global, entry: &[u8]) -> Result<Option<Entry>, NoMemory>
    ensures { IfOk result (IsParsed kinds.Addresses entry.now) }
{
    let key = canonical_address(alloc, entry)?;
    Ok(if is_address(entry, key.as_slice()) {
        Some(Entry::Key(key))
    } else {
        None
    })
}

/// The canonical form of a domain.
fn parse_domain(alloc: Global, entry: &[u8]) -> Result<Option<Entry>, NoMemory>
    ensures { IfOk result (IsParsed kinds.Domains entry.now) }
{
    let key = canonical_domain(alloc, entry)?;
    Ok(if is_domain(entry, key.as_slice()) {
        Some(Entry::Key(key))
    } else {
        None
    })
}

/// The network that a text writes.
fn parse_network(entry: &[u8]) -> Option<Entry>
    ensures { IsParsed kinds.Networks entry.now result }
{
    match Network::parse(entry) {
        Some(network) => Some(Entry::Block(network)),
        None => None,
    }
}

/// Whether an entry with this canonical form is an address.
fn is_address(entry: &[u8], canonical: &[u8]) -> bool
    ensures { result ≡ is_address entry.now canonical.now }
{
    are_visible(entry)
        && (entry == b"<>".as_slice() || (entry.contains(&b'@') && !canonical.starts_with(b"@")))
}

/// Whether an entry with this canonical form is a domain.
fn is_domain(entry: &[u8], canonical: &[u8]) -> bool
    ensures { result ≡ is_domain entry.now canonical.now }
{
    are_domain_bytes(entry) && is_name(without_first_dot(canonical))
}

/// Whether there is something that doesn't begin with a dot.
fn is_name(bytes: &[u8]) -> bool
    ensures { result ≡ is_name bytes.now }
{
    match bytes {
        [first, ..] => *first != b'.',
        [] => false,
    }
}

/// The bytes without the dot that they begin with.
fn without_first_dot(bytes: &[u8]) -> &[u8]
    ensures { result.now ≡ without_dot bytes.now }
{
    match bytes {
        [b'.', rest @ ..] => rest,
        _ => bytes,
    }
}

/// Whether no byte is a blank or a control byte.
fn are_visible(entry: &[u8]) -> bool
    ensures { result ≡ list_all is_visible entry.now }
{
    entry.iter().all(|byte| is_visible(*byte))
}

/// Whether no byte is a blank, a control byte or `@`.
fn are_domain_bytes(entry: &[u8]) -> bool
    ensures { result ≡ list_all is_domain_byte entry.now }
{
    entry.iter().all(|byte| is_visible(*byte) && *byte != b'@')
}

/// Whether the byte is no blank and no control byte.
fn is_visible(byte: u8) -> bool
    ensures { result ≡ is_visible byte }
{
    byte > b' ' && byte != 127
}
