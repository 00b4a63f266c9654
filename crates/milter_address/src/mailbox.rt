//! Mailboxes, and the paths that lead to them.

ghost use Rattle.std.specs.Prelude.{◌≡◌, ◌∷◌, IfOk, MatchOption, None, Some, option_map};
ghost use Rattle.std.specs.Bool.{OnFalse, OnTrue};
ghost use Rattle.milter_address.specs.Address.{canonical_path};
ghost use Rattle.milter_address.specs.LocalPart.{dot_string};
ghost use Rattle.milter_address.specs.Mailbox.{behind_local_part, mailbox, mailbox_text};

use crate::atoms::is_dot_string;
use crate::local_part::local_text;
use crate::quotes::{quoted_rest, quoted_text};
use crate::route::{at_domain, behind_route, is_domain};
use crate::splits::cut;
use milter_fields::NoMemory;
use std::alloc::Global;

/// A path without brackets in its canonical form: its mailbox, without the source route, or the path itself where it
/// has none.
pub(crate) fn canonical_path(alloc: Global, path: &[u8]) -> Result<Vec<u8>, NoMemory>
    ensures { IfOk result (λ text. text.items ≡ canonical_path path.now) }
{
    let bytes = behind_route(path);
    if let [b'"', quoted @ ..] = bytes {
        return match quoted_mailbox(alloc, quoted)? {
            Some(text) => Ok(text),
            None => Ok(path.to_vec(alloc)?),
        };
    }
    let kept = if is_dot_mailbox(bytes) { bytes } else { path };
    Ok(kept.to_vec(alloc)?)
}

/// Whether the bytes are a mailbox whose local part is a Dot-string. It is in its canonical form.
fn is_dot_mailbox(bytes: &[u8]) -> bool
    ensures yes { OnTrue result
        (option_map mailbox_text (behind_local_part (dot_string bytes.now)) ≡ Some bytes.now) }
    ensures no { OnFalse result (behind_local_part (dot_string bytes.now) ≡ None) }
{
    match cut(bytes, b'@') {
        Some((local, domain)) => is_dot_string(local) && is_domain(domain),
        None => false,
    }
}

/// The canonical form of a mailbox whose local part is a Quoted-string, given the bytes behind its opening quote, or
/// none where these are no mailbox.
fn quoted_mailbox(alloc: Global, bytes: &[u8]) -> Result<Option<Vec<u8>>, NoMemory>
    ensures { IfOk result (λ text. MatchOption text (mailbox (34 ∷ bytes.now) ≡ None)
        (λ written. option_map mailbox_text (mailbox (34 ∷ bytes.now)) ≡ Some written.items)) }
{
    let Some(rest) = quoted_rest(bytes) else {
        return Ok(None);
    };
    let Some(domain) = at_domain(rest) else {
        return Ok(None);
    };
    let Some(content) = quoted_text(alloc, bytes)? else {
        return Ok(None);
    };
    Ok(Some(mailbox_text(alloc, content, domain)?))
}

/// The mailbox in its canonical form.
fn mailbox_text(alloc: Global, content: Vec<u8>, domain: &[u8]) -> Result<Vec<u8>, NoMemory>
    ensures { IfOk result (λ text. text.items
        ≡ mailbox_text (record { content = content.items; domain = domain.now })) }
{
    let mut text = local_text(alloc, content)?;
    text.push(b'@')?;
    text.extend_from_slice(domain)?;
    Ok(text)
}
