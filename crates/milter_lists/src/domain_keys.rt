//! The keys of domains.

ghost use Rattle.std.specs.Prelude.{◌≡◌, ◌∷◌};
ghost use Rattle.std.specs.List.{list_any};
ghost use Rattle.milter_lists.specs.ListKeys.{dot_suffixes, is_key};

use crate::key_set::is_key;
use crate::text_set::TextSet;

/// Whether a canonical domain, or what it ends with that begins with a dot, is one of the keys. Doesn't allocate.
pub(crate) fn has_domain(keys: &TextSet, domain: &[u8]) -> bool
    ensures { result ≡ list_any (is_key keys.now) (domain.now ∷ dot_suffixes domain.now) }
{
    is_key(keys, domain) || has_dot_suffix(keys, domain)
}

/// Whether what the bytes end with that begins with a dot is one of the keys.
fn has_dot_suffix(keys: &TextSet, bytes: &[u8]) -> bool
    ensures { result ≡ list_any (is_key keys.now) (dot_suffixes bytes.now) }
{
    let mut rest = bytes;
    while let [first, behind @ ..] = rest {
        if *first == b'.' && is_key(keys, rest) {
            return true;
        }
        rest = behind;
    }
    false
}
