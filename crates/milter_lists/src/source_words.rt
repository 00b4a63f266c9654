//! What the words of a list's line give.

ghost use Rattle.std.specs.Prelude.{◌≡◌, IfOk, option_map};
ghost use Rattle.std.specs.List.{list_all};
ghost use Rattle.milter_lists.specs.ListLines.{is_list_name, is_name_byte, kind_in, name_in, source_of};

use crate::list_kind::ListKind;
use crate::sources::ListSource;
use milter_fields::{NoMemory, Text};
use milter_text::Word;
use std::alloc::Global;

/// The source that the words `list NAME KIND FILE` give; none where they don't have this form.
pub(crate) fn source_in(alloc: Global, words: &[Word]) -> Result<Option<ListSource>, NoMemory>
    ensures { IfOk result (λ source. source ≡ source_of words.now) }
{
    let [first, name, kind, file] = words else {
        return Ok(None);
    };
    if !first.is_keyword(b"list") {
        return Ok(None);
    }
    let Some(name) = name_in(name) else {
        return Ok(None);
    };
    let Some(kind) = kind_in(kind) else {
        return Ok(None);
    };
    let Some(file) = file.quoted_text() else {
        return Ok(None);
    };
    Ok(Some(ListSource {
        name: Text::copy_of(alloc, name)?,
        kind,
        file: Text::copy_of(alloc, file.as_slice())?,
    }))
}

/// The name that a plain word is.
fn name_in(word: &Word) -> Option<&[u8]>
    ensures { option_map (λ name. name.now) result ≡ name_in word.now }
{
    let name = word.keyword()?;
    if is_list_name(name) { Some(name) } else { None }
}

/// The kind of this word.
fn kind_in(word: &Word) -> Option<ListKind>
    ensures { result ≡ kind_in word.now }
{
    if word.is_keyword(b"addresses") {
        Some(ListKind::Addresses)
    } else if word.is_keyword(b"domains") {
        Some(ListKind::Domains)
    } else if word.is_keyword(b"networks") {
        Some(ListKind::Networks)
    } else if word.is_keyword(b"texts") {
        Some(ListKind::Texts)
    } else {
        None
    }
}

/// Whether a list may have this name: it is made of ASCII letters, digits, `-`, `.` and `_`, at least one. Doesn't
/// allocate.
pub fn is_list_name(text: &[u8]) -> bool
    ensures { result ≡ is_list_name text.now }
{
    !text.is_empty() && are_name_bytes(text)
}

/// Whether a name may have each of the bytes.
fn are_name_bytes(bytes: &[u8]) -> bool
    ensures { result ≡ list_all is_name_byte bytes.now }
{
    bytes.iter().all(|byte| is_name_byte(*byte))
}

/// Whether a name may have the byte.
fn is_name_byte(byte: u8) -> bool
    ensures { result ≡ is_name_byte byte }
{
    byte.is_ascii_alphanumeric() || byte == b'-' || byte == b'.' || byte == b'_'
}
