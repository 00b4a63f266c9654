//! Domains as they are compared.

ghost use Rattle.std.specs.Prelude.{◌≡◌, IfOk};
ghost use Rattle.milter_address.specs.Domain.{canonical_domain, is_under};

use crate::trimmed::without_dots;
use milter_fields::NoMemory;
use std::alloc::Global;

/// The domain in the form in which domains are compared: without dots at its end, and with ASCII letters in lower case.
/// Allocates the result; `NoMemory` where memory is refused. Source: RFC 1034, 3.1, and RFC 4343.
pub fn canonical_domain(alloc: Global, text: &[u8]) -> Result<Vec<u8>, NoMemory>
    ensures { IfOk result (λ domain. domain.items ≡ canonical_domain text.now) }
{
    Ok(without_dots(text).to_ascii_lowercase(alloc)?)
}

/// Whether the domain is the parent, or below it: whether its labels end with those of the parent. Both are to be
/// canonical: here the case of letters counts, and a dot at the end makes one more label, which is empty. Doesn't
/// allocate. Source: RFC 1034, 3.1.
pub fn is_under(domain: &[u8], parent: &[u8]) -> bool
    ensures { result ≡ is_under domain.now parent.now }
{
    match domain.strip_suffix(parent) {
        Some([]) => true,
        Some([.., last]) => *last == b'.',
        None => false,
    }
}
