//! How values are compared with texts, with regard to the case of letters or without it.

ghost use Rattle.std.specs.Prelude.{◌≡◌, ◌≤◌, ◌∷◌, ℕ, List, drop, length};
ghost use Rattle.std.specs.Str.{bytes_eq, str_to_ascii_lowercase};
ghost use Rattle.milter_filter_search.specs.Texts.{begins_with, contains, ends_with, folded};

use bstr::ByteSlice;
use memchr::memchr;
use milter_text::TextCase;

/// The most bytes of a value in which a text is looked for by its first byte.
const SHORT_LEN: usize = 64;

/// Whether the value is the text.
pub(crate) fn is_text(case: TextCase, value: &[u8], text: &[u8]) -> bool
    ensures { result ≡ bytes_eq (folded case value.now) (folded case text.now) }
{
    match case {
        TextCase::Exact => value == text,
        TextCase::Ignored => is_ignoring_case(value, text),
    }
}

/// Whether the value begins with the text.
pub(crate) fn begins_with(case: TextCase, value: &[u8], text: &[u8]) -> bool
    ensures { result ≡ begins_with (folded case value.now) (folded case text.now) }
{
    let len = text.len().min(value.len());
    is_text(case, &value[..len], text)
}

/// Whether the value ends with the text.
pub(crate) fn ends_with(case: TextCase, value: &[u8], text: &[u8]) -> bool
    ensures { result ≡ ends_with (folded case value.now) (folded case text.now) }
{
    let start = value.len().saturating_sub(text.len());
    is_text(case, &value[start..], text)
}

/// Whether the text occurs in the bytes.
pub(crate) fn contains(case: TextCase, bytes: &[u8], text: &[u8]) -> bool
    ensures { result ≡ contains (folded case bytes.now) (folded case text.now) }
{
    match case {
        TextCase::Exact => contains_exactly(bytes, text),
        TextCase::Ignored => contains_ignoring_case(bytes, text),
    }
}

/// Whether the text occurs in the bytes. To prepare a search of many bytes costs more than to search a few.
fn contains_exactly(bytes: &[u8], text: &[u8]) -> bool
    ensures { result ≡ contains bytes.now text.now }
{
    match text {
        [first, ..] if bytes.len() <= SHORT_LEN => contains_shortly(bytes, text, *first),
        _ => bytes.contains_str(text),
    }
}

/// Whether the text, which begins with this byte, occurs in the bytes.
fn contains_shortly(bytes: &[u8], text: &[u8], first: u8) -> bool
    requires { text.now ≡ first ∷ drop 1 text.now }
    ensures { result ≡ contains bytes.now text.now }
{
    let mut rest = from_first(bytes, first);
    while !rest.starts_with(text) {
        match rest {
            [_, after @ ..] => rest = from_first(after, first),
            [] => return false,
        }
    }
    true
}

/// The bytes from the first that is this one.
fn from_first(bytes: &[u8], first: u8) -> &[u8]
    ensures within { length result.now ≤ length bytes.now }
    ensures same { (tail : List ℕ) → contains result.now (first ∷ tail) ≡ contains bytes.now (first ∷ tail) }
{
    match memchr(first, bytes) {
        Some(start) => &bytes[start..],
        None => &[],
    }
}

/// Whether the text occurs in the bytes, in which the case of letters doesn't count.
fn contains_ignoring_case(bytes: &[u8], text: &[u8]) -> bool
    ensures { result ≡ contains (str_to_ascii_lowercase bytes.now) (str_to_ascii_lowercase text.now) }
{
    let mut rest = bytes;
    while !begins_ignoring_case(rest, text) {
        match rest {
            [_, after @ ..] => rest = after,
            [] => return false,
        }
    }
    true
}

/// Whether the bytes begin with the text, in which the case of letters doesn't count.
fn begins_ignoring_case(bytes: &[u8], text: &[u8]) -> bool
    ensures { result ≡ begins_with (str_to_ascii_lowercase bytes.now) (str_to_ascii_lowercase text.now) }
{
    if bytes.len() < text.len() {
        return false;
    }
    is_ignoring_case(&bytes[..text.len()], text)
}

/// Whether the value is the text, in which the case of letters doesn't count.
fn is_ignoring_case(value: &[u8], text: &[u8]) -> bool
    ensures { result ≡ bytes_eq (str_to_ascii_lowercase value.now) (str_to_ascii_lowercase text.now) }
{
    value.eq_ignore_ascii_case(text)
}
