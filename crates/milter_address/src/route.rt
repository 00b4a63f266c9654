//! Source routes.

ghost use Rattle.std.specs.Prelude.{◌≡◌, MatchOption, None, Some};
ghost use Rattle.milter_address.specs.Mailbox.{at_domain, behind_route, is_domain, is_route};

use crate::splits::cut;

/// The bytes behind a source route and its colon, or all where they begin with none. Doesn't allocate.
/// Source: RFC 5321, 4.1.2.
pub(crate) fn behind_route(bytes: &[u8]) -> &[u8]
    ensures { result.now ≡ behind_route bytes.now }
{
    match cut(bytes, b':') {
        Some((route, behind)) => if is_route(route) { behind } else { bytes },
        None => if is_route(bytes) { &[] } else { bytes },
    }
}

/// Whether the bytes are a source route.
fn is_route(bytes: &[u8]) -> bool
    ensures { result ≡ is_route bytes.now }
{
    let mut rest = bytes;
    while let Some((first, behind)) = cut(rest, b',') {
        if at_domain(first).is_none() {
            return false;
        }
        rest = behind;
    }
    at_domain(rest).is_some()
}

/// The domain behind the `@` that the bytes are to begin with. Doesn't allocate.
pub(crate) fn at_domain(bytes: &[u8]) -> Option<&[u8]>
    ensures { MatchOption result (at_domain bytes.now ≡ None) (λ domain. at_domain bytes.now ≡ Some domain.now) }
{
    match bytes {
        [b'@', domain @ ..] if is_domain(domain) => Some(domain),
        _ => None,
    }
}

/// Whether a domain may have these bytes.
pub(crate) fn is_domain(bytes: &[u8]) -> bool
    ensures { result ≡ is_domain bytes.now }
{
    !bytes.is_empty() && !bytes.contains(&b'@')
}
