//! Local parts in quotes.

ghost use Rattle.std.specs.Prelude.{◌≡◌, ◌++◌, IfOk, MatchOption, None, OnOk, Some};
ghost use Rattle.milter_address.specs.LocalPart.{quoted_rest, quoted_text};
ghost use Rattle.milter_address.specs.QuotedString.{is_closing, pairs_next, read_byte};

use crate::bytes::{is_paired, is_qtext};
use milter_fields::NoMemory;
use std::alloc::Global;

/// The bytes behind the closing quote of a Quoted-string, given those behind its opening quote, or none where these
/// are no Quoted-string. Doesn't allocate. Source: RFC 5321, 4.1.2.
pub(crate) fn quoted_rest(bytes: &[u8]) -> Option<&[u8]>
    ensures { MatchOption result (quoted_rest bytes.now ≡ None) (λ rest. quoted_rest bytes.now ≡ Some rest.now) }
{
    let mut paired = false;
    let mut rest = bytes;
    while let [byte, behind @ ..] = rest {
        if is_closing(paired, *byte) {
            return Some(behind);
        }
        paired = pairs_next(paired, *byte)?;
        rest = behind;
    }
    None
}

/// The content of a Quoted-string, given the bytes behind its opening quote, or none where these are no Quoted-string.
/// Source: RFC 5321, 4.1.2.
pub(crate) fn quoted_text(alloc: Global, bytes: &[u8]) -> Result<Option<Vec<u8>>, NoMemory>
    ensures { IfOk result (λ text. MatchOption text (quoted_text bytes.now ≡ None)
        (λ content. quoted_text bytes.now ≡ Some content.items)) }
{
    let mut content = Vec::new(alloc);
    let mut paired = false;
    let mut rest = bytes;
    while let [byte, behind @ ..] = rest {
        if is_closing(paired, *byte) {
            return Ok(Some(content));
        }
        let Some(next) = pairs_next(paired, *byte) else {
            return Ok(None);
        };
        read_byte(&mut content, next, *byte)?;
        paired = next;
        rest = behind;
    }
    Ok(None)
}

/// Whether the byte closes a Quoted-string, given whether a backslash pairs it.
fn is_closing(paired: bool, byte: u8) -> bool
    ensures { result ≡ is_closing paired byte }
{
    !paired && byte == b'"'
}

/// Whether the byte is a backslash that pairs the one behind it, or none where it may not be between quotes.
fn pairs_next(paired: bool, byte: u8) -> Option<bool>
    ensures { result ≡ pairs_next paired byte }
{
    match byte {
        _ if paired => if is_paired(byte) { Some(false) } else { None },
        b'\\' => Some(true),
        _ => if is_qtext(byte) { Some(false) } else { None },
    }
}

/// Takes a byte into the content, unless it pairs the next.
fn read_byte(content: &mut Vec<u8>, pairs_next: bool, byte: u8) -> Result<(), NoMemory>
    ensures { OnOk result (content.new.items ≡ content.old.items ++ read_byte pairs_next byte) }
{
    if !pairs_next {
        content.push(byte)?;
    }
    Ok(())
}
