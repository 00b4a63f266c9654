//! Local parts as they are written in their canonical form.

ghost use Rattle.std.specs.Prelude.{◌≡◌, ◌∷◌, ◌++◌, [], IfOk, OnOk};
ghost use Rattle.std.specs.List.{flat_map};
ghost use Rattle.milter_address.specs.LocalPart.{local_text, quoted_byte};

use crate::atoms::is_dot_string;
use milter_fields::NoMemory;
use std::alloc::Global;

/// The local part with this content in its canonical form: without quotes where it is a Dot-string.
pub(crate) fn local_text(alloc: Global, content: Vec<u8>) -> Result<Vec<u8>, NoMemory>
    ensures { IfOk result (λ text. text.items ≡ local_text content.items) }
{
    if is_dot_string(content.as_slice()) {
        return Ok(content);
    }
    quoted(alloc, content.as_slice())
}

/// The content between quotes.
fn quoted(alloc: Global, content: &[u8]) -> Result<Vec<u8>, NoMemory>
    ensures { IfOk result (λ text. text.items ≡ 34 ∷ flat_map quoted_byte content.now ++ 34 ∷ []) }
{
    let mut text = Vec::new(alloc);
    text.push(b'"')?;
    put_content(&mut text, content)?;
    text.push(b'"')?;
    Ok(text)
}

/// Appends the content as it is between quotes.
fn put_content(out: &mut Vec<u8>, content: &[u8]) -> Result<(), NoMemory>
    ensures { OnOk result (out.new.items ≡ out.old.items ++ flat_map quoted_byte content.now) }
{
    for byte in content {
        put_byte(out, *byte)?;
    }
    Ok(())
}

/// Appends a byte as it is between quotes.
fn put_byte(out: &mut Vec<u8>, byte: u8) -> Result<(), NoMemory>
    ensures { OnOk result (out.new.items ≡ out.old.items ++ quoted_byte byte) }
{
    if byte == b'"' || byte == b'\\' {
        out.push(b'\\')?;
    }
    out.push(byte)?;
    Ok(())
}
