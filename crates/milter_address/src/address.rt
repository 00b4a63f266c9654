//! Addresses as they are compared, and their domains.

ghost use Rattle.std.specs.Prelude.{◌≡◌, IfOk};
ghost use Rattle.milter_address.specs.Address.{behind_last_at, canonical_address, domain_of};

use crate::mailbox::canonical_path;
use crate::quotes::quoted_rest;
use crate::trimmed::bare;
use memchr::memrchr;
use milter_fields::NoMemory;
use std::alloc::Global;

/// The address of a MAIL FROM or RCPT TO command in the form in which addresses are compared: in lower case, without
/// the `<` that it begins with and the `>` and dots that it ends with, without a source route, and without quotes
/// around a local part that is a Dot-string. Between other quotes only `"` and `\` have a backslash before them. A text
/// that is no mailbox keeps its quotes and its route. The null sender `<>` becomes the empty text. Only ASCII letters
/// have a lower case; bytes above 127 are taken for letters. Allocates the result, and at most two texts of the length
/// of `text`; `NoMemory` where memory is refused. Source: RFC 5321, 4.1.2, and RFC 6531, 3.3.
pub fn canonical_address(alloc: Global, text: &[u8]) -> Result<Vec<u8>, NoMemory>
    ensures { IfOk result (λ address. address.items ≡ canonical_address text.now) }
{
    let lower = text.to_ascii_lowercase(alloc)?;
    canonical_path(alloc, bare(lower.as_slice()))
}

/// The domain of a canonical address: the bytes behind the last `@` that isn't in a quoted local part, or none where
/// there is no such `@`. Doesn't allocate. Source: RFC 5321, 4.1.2.
pub fn domain_of(address: &[u8]) -> &[u8]
    ensures { result.now ≡ domain_of address.now }
{
    match address {
        [b'"', quoted @ ..] => behind_last_at(quoted_rest(quoted).unwrap_or(address)),
        _ => behind_last_at(address),
    }
}

/// The bytes behind the last `@`, or none where there is no `@`.
fn behind_last_at(bytes: &[u8]) -> &[u8]
    ensures { result.now ≡ behind_last_at bytes.now }
{
    match memrchr(b'@', bytes) {
        Some(at) => &bytes[at + 1..],
        None => &[],
    }
}
