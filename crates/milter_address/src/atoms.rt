//! Local parts without quotes.

ghost use Rattle.std.specs.Prelude.{◌≡◌};
ghost use Rattle.std.specs.List.{list_all};
ghost use Rattle.milter_address.specs.Bytes.{is_atext};
ghost use Rattle.milter_address.specs.LocalPart.{is_atom, is_dot_string};

use crate::bytes::is_atext;
use crate::splits::cut;

/// Whether the bytes are a Dot-string. Doesn't allocate. Source: RFC 5321, 4.1.2.
pub(crate) fn is_dot_string(bytes: &[u8]) -> bool
    ensures { result ≡ is_dot_string bytes.now }
{
    let mut rest = bytes;
    while let Some((atom, behind)) = cut(rest, b'.') {
        if !is_atom(atom) {
            return false;
        }
        rest = behind;
    }
    is_atom(rest)
}

/// Whether the bytes are an Atom.
fn is_atom(bytes: &[u8]) -> bool
    ensures { result ≡ is_atom bytes.now }
{
    !bytes.is_empty() && are_atext(bytes)
}

/// Whether an Atom may have each of the bytes.
fn are_atext(bytes: &[u8]) -> bool
    ensures { result ≡ list_all is_atext bytes.now }
{
    bytes.iter().all(|byte| is_atext(*byte))
}
