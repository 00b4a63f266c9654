//! The messages of a session file.

ghost use Rattle.std.specs.Prelude.{◌≡◌, ◌≢◌, ◌↔◌, ◌≤◌, ◌++◌, ◌∷◌, [], All, IfErr, IfOk, IsOk, IsTrue, List};
ghost use Rattle.std.specs.Prelude.{MatchResult, codes, ℕ};
ghost use Rattle.milter_wire.specs.declared.command.Command.TheVariants as commands;
ghost use Rattle.milter_fields.specs.declared.path.Path.{Path};
ghost use Rattle.milter_wire.specs.Command.{Fits};
ghost use Rattle.milter_text.specs.declared.word.Word.{Word};
ghost use Rattle.milter_text.specs.Words.{HasWords};
ghost use Rattle.milter_message.specs.LeadingSpace.{WholeFieldFits};
ghost use Rattle.milter_message.specs.MailObject.{IsMessage, MailObject};
ghost use Rattle.milter_mail.specs.WeightParts.{IsSendableWith};
ghost use Rattle.milter_mail_file.specs.declared.session_fault.SessionFault.TheVariants as faults;
ghost use Rattle.milter_text.specs.LineCursor.{IsNextLine, NextHasWords};
ghost use Rattle.milter_text.specs.WordValues.{keyword};
ghost use Rattle.milter_mail_file.specs.LineValues.{end_line, path_of};
ghost use Rattle.milter_mail_file.specs.MessageLines.{BeginWithMessage, BeginWithParts};
ghost use Rattle.milter_mail_file.specs.SessionFault.{IsAt, IsWithin};
ghost use Rattle.milter_mail_file.specs.SessionFile.{LineHasValue, ParsesAsMessage, ParsesAsMessageList};

use crate::line_group::read_group;
use crate::line_values::path_in;
use crate::message_groups::{Body, HeaderFields, Recipients};
use crate::session_fault::SessionFault;
use milter_mail::{Message, Overhead, leading_spaces};
use milter_text::{FileLine, LineCursor, Word};
use milter_wire::Path;
use std::alloc::Global;

/// The next line, which a message needs.
fn next_line(alloc: Global, lines: &mut LineCursor<'_>) -> Result<FileLine, SessionFault>
    ensures found { IfOk result (λ line. IsNextLine lines.old line.number line.words.items lines.new) }
    ensures only { lines.old.lines ≢ [] → NextHasWords lines.old.lines → IfErr result (λ e. e ≡ faults.NoMemory) }
    ensures end { lines.new.end ≤ lines.old.end }
    ensures within { IfErr result (IsWithin lines.old.end) }
{
    match lines.next(alloc)? {
        Some(line) => Ok(line),
        None => Err(SessionFault::NoEnd(lines.number())),
    }
}

/// Reads a line that is the one plain word, and returns its number.
fn read_keyword(alloc: Global, lines: &mut LineCursor<'_>, text: &[u8]) -> Result<u64, SessionFault>
    ensures found { IfOk result (λ _. (line : List ℕ) × (lines.old.lines ≡ line ∷ lines.new.lines)
        × HasWords line (keyword text.now ∷ [])) }
    ensures only { (line : List ℕ) (rest : List (List ℕ)) → lines.old.lines ≡ line ∷ rest →
        HasWords line (keyword text.now ∷ []) →
        MatchResult result (λ _. lines.new.lines ≡ rest) (λ e. e ≡ faults.NoMemory) }
    ensures number { IfOk result (λ number. (1 ≤ number) × (number ≤ lines.old.end)) }
    ensures end { lines.new.end ≤ lines.old.end }
    ensures within { IfErr result (IsWithin lines.old.end) }
{
    let line = next_line(alloc, lines)?;
    if !is_only_word(text, line.words.as_slice()) {
        return Err(SessionFault::UnknownLine(line.number));
    }
    Ok(line.number)
}

/// Whether the words are the one plain word.
fn is_only_word(text: &[u8], words: &[Word]) -> bool
    ensures { IsTrue result ↔ (words.now ≡ keyword text.now ∷ []) }
{
    match words {
        [word] => word.is_keyword(text),
        _ => false,
    }
}

/// Reads the line of the sender.
fn read_sender(alloc: Global, lines: &mut LineCursor<'_>) -> Result<Path, SessionFault>
    ensures found { IfOk result (λ sender. (line : List ℕ) × (lines.old.lines ≡ line ∷ lines.new.lines)
        × LineHasValue (path_of (codes "sender")) line sender × Fits (commands.Mail sender)) }
    ensures only { (line : List ℕ) (rest : List (List ℕ)) (sender : Path) → lines.old.lines ≡ line ∷ rest →
        LineHasValue (path_of (codes "sender")) line sender → Fits (commands.Mail sender) →
        MatchResult result (λ path. (path ≡ sender) × (lines.new.lines ≡ rest)) (λ e. e ≡ faults.NoMemory) }
    ensures end { lines.new.end ≤ lines.old.end }
    ensures within { IfErr result (IsWithin lines.old.end) }
{
    let line = next_line(alloc, lines)?;
    path_in(alloc, b"sender", &line)
}

/// Reads the lines of a message but for the last one.
fn read_parts(alloc: Global, lines: &mut LineCursor<'_>) -> Result<Message, SessionFault>
    ensures found { IfOk result (λ m. BeginWithParts lines.old.lines m lines.new.lines) }
    ensures only { (m : MailObject) (last : List ℕ) (rest : List (List ℕ)) →
        BeginWithParts lines.old.lines m (last ∷ rest) → HasWords last end_line → IsMessage m →
        All WholeFieldFits m.headers →
        MatchResult result (λ x. (x ≡ m) × (lines.new.lines ≡ last ∷ rest)) (λ e. e ≡ faults.NoMemory) }
    ensures end { lines.new.end ≤ lines.old.end }
    ensures within { IfErr result (IsWithin lines.old.end) }
{
    read_keyword(alloc, lines, b"message")?;
    let sender = read_sender(alloc, lines)?;
    let recipients: Recipients = read_group(alloc, lines)?;
    let headers: HeaderFields = read_group(alloc, lines)?;
    let body: Body = read_group(alloc, lines)?;
    leading_spaces();
    Ok(Message::from_parts(sender, recipients.paths, headers.fields, body.bytes))
}

/// The message, unless it has no recipient or weighs too much; its last line has this number.
fn admit(overhead: &Overhead, message: Message, number: u64) -> Result<Message, SessionFault>
    ensures found { IfOk result (λ m. (m ≡ message) × IsSendableWith overhead.now m) }
    ensures only { IsSendableWith overhead.now message → IsOk result }
    ensures at { IfErr result (λ e. IsAt number e) }
{
    if message.recipients().is_empty() {
        return Err(SessionFault::NoRecipient(number));
    }
    if !overhead.allows(&message) {
        return Err(SessionFault::TooLarge(number));
    }
    Ok(message)
}

/// Reads the lines of a message.
fn read_message(
    alloc: Global,
    overhead: &Overhead,
    lines: &mut LineCursor<'_>,
) -> Result<Message, SessionFault>
    ensures found { IfOk result (λ m. BeginWithMessage lines.old.lines m lines.new.lines
        × IsSendableWith overhead.now m) }
    ensures only { (prefix rest : List (List ℕ)) (m : MailObject) → lines.old.lines ≡ prefix ++ rest →
        ParsesAsMessage prefix m → IsSendableWith overhead.now m →
        MatchResult result (λ x. (x ≡ m) × (lines.new.lines ≡ rest)) (λ e. e ≡ faults.NoMemory) }
    ensures end { lines.new.end ≤ lines.old.end }
    ensures within { IfErr result (IsWithin lines.old.end) }
{
    let message = read_parts(alloc, lines)?;
    let number = read_keyword(alloc, lines, b"end")?;
    admit(overhead, message, number)
}

/// Reads the lines of all messages.
pub(crate) fn read_messages(
    alloc: Global,
    overhead: &Overhead,
    lines: &mut LineCursor<'_>,
) -> Result<Vec<Message>, SessionFault>
    ensures found { IfOk result (λ messages. ParsesAsMessageList lines.old.lines messages.items
        × All (IsSendableWith overhead.now) messages.items) }
    ensures only { (messages : List MailObject) → ParsesAsMessageList lines.old.lines messages →
        All (IsSendableWith overhead.now) messages →
        MatchResult result (λ found. found.items ≡ messages) (λ e. e ≡ faults.NoMemory) }
    ensures within { IfErr result (IsWithin lines.old.end) }
{
    let mut messages = Vec::new(alloc);
    while !lines.is_at_end() {
        messages.push(read_message(alloc, overhead, lines)?)?;
    }
    Ok(messages)
}
