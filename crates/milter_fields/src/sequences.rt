//! Strings in a row, up to the end of a payload: one by one, or two by two.

ghost use Rattle.std.specs.Prelude.{◌≡◌, ◌-◌, ◌^◌, ◌++◌, ◌↔◌, All, IsTrue, OnOk, is_some, length, min};
ghost use Rattle.std.specs.List.{flat_map};
ghost use Rattle.milter_fields.specs.AppendedBytes.{PutsBytes};
ghost use Rattle.milter_fields.specs.Field.{HasNoNul, string};
ghost use Rattle.milter_fields.specs.Decoders.{pairs_in, strings_in};

use crate::fault::NoMemory;
use crate::strings::{has_no_nul, put_string, string_len, take_string};
use crate::text::Text;

/// Whether strings can carry the texts.
pub(crate) fn have_no_nul(texts: &[Text]) -> bool
    ensures { IsTrue result ↔ All HasNoNul texts.now }
{
    texts.iter().all(|text| has_no_nul(text.as_slice()))
}

/// The number of bytes of the strings, or the greatest `usize`.
pub(crate) fn strings_len(texts: &[Text]) -> usize
    ensures { result ≡ min (length (flat_map string texts.now)) (2 ^ 64 - 1) }
{
    let mut total: usize = 0;
    for text in texts {
        total = total.saturating_add(string_len(text.as_slice()));
    }
    total
}

/// Appends the strings.
pub(crate) fn put_strings(out: &mut Vec<u8>, texts: &[Text]) -> Result<(), NoMemory>
    ensures { PutsBytes (flat_map string texts.now) out.old.items out.new.items result }
{
    for text in texts {
        put_string(out, text.as_slice())?;
    }
    Ok(())
}

/// Whether the bytes are strings up to the end.
pub(crate) fn are_strings(bytes: &[u8]) -> bool
    ensures { result ≡ is_some (strings_in bytes.now) }
{
    let mut rest = bytes;
    while !rest.is_empty() {
        let Some((_, after)) = take_string(rest) else {
            return false;
        };
        rest = after;
    }
    true
}

/// Whether the bytes are pairs of strings up to the end.
pub(crate) fn are_pairs(bytes: &[u8]) -> bool
    ensures { result ≡ is_some (pairs_in bytes.now) }
{
    let mut rest = bytes;
    while !rest.is_empty() {
        let Some((_, middle)) = take_string(rest) else {
            return false;
        };
        let Some((_, after)) = take_string(middle) else {
            return false;
        };
        rest = after;
    }
    true
}
