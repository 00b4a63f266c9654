//! The bytes that mailboxes are made of.

ghost use Rattle.std.specs.Prelude.{◌≡◌};
ghost use Rattle.milter_address.specs.Bytes.{is_atext, is_paired, is_qtext};

/// What an Atom has beside letters and digits.
const ATOM_SIGNS: &[u8] = b"!#$%&'*+-/=?^_`{|}~";

/// The first byte that isn't ASCII.
const NON_ASCII: u8 = 0x80;

/// Whether an Atom may have the byte. Source: RFC 5322, 3.2.3, and RFC 6531, 3.3.
pub(crate) fn is_atext(byte: u8) -> bool
    ensures { result ≡ is_atext byte }
{
    byte.is_ascii_alphanumeric() || ATOM_SIGNS.contains(&byte) || byte >= NON_ASCII
}

/// Whether the byte stands for itself between quotes. Source: RFC 5321, 4.1.2, and RFC 6531, 3.3.
pub(crate) fn is_qtext(byte: u8) -> bool
    ensures { result ≡ is_qtext byte }
{
    matches!(byte, b' '..=b'!' | b'#'..=b'[' | b']'..=b'~' | NON_ASCII..)
}

/// Whether a backslash may come before the byte. Source: RFC 5321, 4.1.2.
pub(crate) fn is_paired(byte: u8) -> bool
    ensures { result ≡ is_paired byte }
{
    matches!(byte, b' '..=b'~')
}
