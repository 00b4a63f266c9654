//! Messages after edits.

ghost use Rattle.std.specs.Prelude.{◌≡◌, All, IfOk, None, option_map};
ghost use Rattle.std.specs.List.{filter_map, last_or};
ghost use Rattle.milter_wire.specs.Reply.{Fits};
ghost use Rattle.milter_message.specs.EditReplies.{reply_of};
ghost use Rattle.milter_message.specs.EditedMessage.{body_of, edited_message, new_chunk, new_reason};

use crate::edit::Edit;
use crate::header_edits::headers_after;
use crate::message::{Held, Message};
use crate::recipient_edits::{recipients_after, sender_after};
use milter_wire::{NoMemory, Text};
use std::alloc::Global;

/// The message after the edits, one after the other, and the reason for its quarantine, if any.
/// Each edit must be one that a packet can ask for: no string of it has a NUL, and its packet isn't too long.
///
/// An added header field comes last, and an inserted one after as many others as its index states, or last where there
/// are fewer. A changed one is found by its name, without regard to ASCII case, and by its number among those of this
/// name, counted from 1; 0 is taken as 1. Its name stays as it was, and an empty value deletes it; where there
/// are fewer, a value that isn't empty is added as the last. An added recipient comes last, and a deleted one goes
/// wherever this very address is, with any parameters. The last sender counts, with its own parameters or none, and
/// so does the last reason. The chunks of a body, one after the other, replace the old body.
///
/// Where leading spaces aren't sent, each value that is put gets the blank that a value begins with in a message, an
/// empty added one too.
///
/// Few edits of header fields go over the fields once each; of many, the time of each grows as the root of the number
/// of fields. All edits of recipients take time in the number of recipients and edits times the logarithm of the number
/// of deletions. No text is copied twice, and a new body is appended to as its chunks come. The given message stays as
/// it was, and after `NoMemory` nothing is left. Source: the libmilter callback documentation (message modification
/// functions).
pub fn apply(
    alloc: Global,
    message: &Message,
    edits: &[Edit],
    leading_space: bool,
) -> Result<Held, NoMemory>
    requires { All (λ edit. Fits (reply_of edit)) edits.now }
    ensures { IfOk result (λ held. held ≡ edited_message leading_space message.now edits.now) }
{
    let quarantine = quarantine_after(alloc, edits)?;
    let message = message_after(alloc, message, edits, leading_space)?;
    Ok(Held {
        message,
        quarantine,
    })
}

/// The message after the edits.
fn message_after(
    alloc: Global,
    message: &Message,
    edits: &[Edit],
    leading_space: bool,
) -> Result<Message, NoMemory>
    requires { All (λ edit. Fits (reply_of edit)) edits.now }
    ensures { IfOk result (λ changed. changed ≡ (edited_message leading_space message.now edits.now).message) }
{
    let sender = sender_after(alloc, message.sender(), edits)?;
    let recipients = recipients_after(alloc, message.recipients(), edits)?;
    let headers = headers_after(alloc, message.headers(), edits, leading_space)?;
    let body = body_after(alloc, message.body(), edits)?;
    Ok(Message::from_parts(sender, recipients, headers, body))
}

/// The body after the edits: the chunks that they ask for, one after the other, or the old body where there is none.
fn body_after(alloc: Global, old: &[u8], edits: &[Edit]) -> Result<Vec<u8>, NoMemory>
    ensures { IfOk result (λ body. body.items ≡ body_of old.now (filter_map new_chunk edits.now)) }
{
    let mut body = Vec::new(alloc);
    let mut replaced = false;
    for edit in edits {
        if let Edit::ReplaceBody(chunk) = edit {
            body.extend_from_slice(chunk.as_slice())?;
            replaced = true;
        }
    }
    if !replaced {
        body.extend_from_slice(old)?;
    }
    Ok(body)
}

/// A copy of the last reason for a quarantine that the edits give.
fn quarantine_after(alloc: Global, edits: &[Edit]) -> Result<Option<Text>, NoMemory>
    ensures { IfOk result (λ reason. reason ≡ last_or None (filter_map new_reason edits.now)) }
{
    match last_reason(edits) {
        Some(reason) => Ok(Some(Text::copy_of(alloc, reason.as_slice())?)),
        None => Ok(None),
    }
}

/// The last reason for a quarantine that the edits give.
fn last_reason(edits: &[Edit]) -> Option<&Text>
    ensures { option_map (λ reason. reason.now) result ≡ last_or None (filter_map new_reason edits.now) }
{
    let mut last = None;
    for edit in edits {
        if let Edit::Quarantine(reason) = edit {
            last = Some(reason);
        }
    }
    last
}
