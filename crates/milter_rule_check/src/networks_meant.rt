//! The networks that are meant by texts with the beginning of an address.

use milter_address::Network;
use milter_wire::NoMemory;
use std::alloc::Global;

/// The IPv4 network that is meant by the first one, two or three numbers of an address, each with a dot after it, and
/// perhaps a `*` for each of the others; none by any other text.
pub(crate) fn network_meant(alloc: Global, text: &[u8]) -> Result<Option<Vec<u8>>, NoMemory> {
    let (numbers, stars) = parts_of(text);
    if !numbers.ends_with(b".") || !stars.iter().all(|byte| matches!(*byte, b'*' | b'.')) {
        return Ok(None);
    }
    let others: &[u8] = match numbers.iter().filter(|byte| **byte == b'.').count() {
        1 => b"0.0.0/8",
        2 => b"0.0/16",
        3 => b"0/24",
        _ => return Ok(None),
    };
    let mut network = Vec::new(alloc);
    network.extend_from_slice(numbers)?;
    network.extend_from_slice(others)?;
    match Network::parse(network.as_slice()) {
        Some(_) => Ok(Some(network)),
        None => Ok(None),
    }
}

/// The text before the first `*`, and the text from there on.
fn parts_of(text: &[u8]) -> (&[u8], &[u8]) {
    match text.iter().position(|byte| *byte == b'*') {
        Some(end) => (&text[..end], &text[end..]),
        None => (text, &[]),
    }
}
