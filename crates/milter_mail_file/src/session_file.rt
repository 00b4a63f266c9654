//! Session files.

ghost use Rattle.std.specs.Prelude.{◌≡◌, ◌≤◌, ◌+◌, ◌∷◌, IfErr, IfOk, List, MatchResult, ℕ, length};
ghost use Rattle.milter_wire.specs.declared.command.Command.TheVariants as commands;
ghost use Rattle.milter_fields.specs.declared.client.Client.{Client};
ghost use Rattle.milter_wire.specs.Command.{Fits};
ghost use Rattle.milter_text.specs.Lines.{lines_of};
ghost use Rattle.milter_mail.specs.MailSession.{IsSession, MacrosFit, MailSession};
ghost use Rattle.milter_mail_file.specs.declared.session_fault.SessionFault.TheVariants as SessionFault;
ghost use Rattle.milter_mail_file.specs.LineValues.{client_of, helo_of};
ghost use Rattle.milter_mail_file.specs.SessionFault.{IsWithin};
ghost use Rattle.milter_mail_file.specs.SessionFile.{IsSessionFile, LineHasValue, ParsesAsMessageList, ParsesAsSession};

use crate::client_line::client_in;
use crate::line_group::read_group;
use crate::line_values::helo_in;
use crate::session_fault::SessionFault;
use crate::session_macros::{MacroLists, into_macros};
use crate::session_messages::read_messages;
use milter_mail::{Macros, Overhead, Session};
use milter_text::LineCursor;
use milter_wire::{Client, Text};
use std::alloc::Global;

/// The session that a file is parsed as.
///
/// Its lines are words. In this order: `client U HOST` or `client F HOST PORT ADDRESS` with the family `L`, `4` or `6`;
/// `helo NAME`; any number of `macro STAGE NAME VALUE`; any number of messages. A message is the lines `message`;
/// `sender ADDRESS PARAMETER ..`; any number of `recipient ADDRESS PARAMETER ..`, of `header NAME VALUE` and of
/// `body TEXT`, whose texts are joined; and `end`. Texts are in quotes, and all else is plain.
///
/// The fault is at the first line that isn't of this form, or by which the session would be none: out of memory aside,
/// there is one exactly where the file is parsed as no session. Its line is one of the file, or the one after the last.
/// Beside the session, the words of one line at a time are allocated.
pub fn read_session(alloc: Global, bytes: &[u8]) -> Result<Session, SessionFault>
    // What is read is what the file is parsed as.
    ensures found { IfOk result (λ s. IsSessionFile bytes.now s) }
    // What the file is parsed as is read, unless memory is refused.
    ensures only { (s : MailSession) → IsSessionFile bytes.now s →
        MatchResult result (λ t. t ≡ s) (λ e. e ≡ SessionFault.NoMemory) }
    // The line of a fault is one of the file, or the one after the last.
    ensures line { IfErr result (IsWithin (length (lines_of bytes.now) + 1)) }
{
    let mut lines = LineCursor::new(bytes);
    session_in(alloc, &mut lines)
}

/// The session that the lines are parsed as.
fn session_in(alloc: Global, lines: &mut LineCursor<'_>) -> Result<Session, SessionFault>
    ensures found { IfOk result (λ s. ParsesAsSession lines.old.lines s × IsSession s) }
    ensures only { (s : MailSession) → ParsesAsSession lines.old.lines s → IsSession s →
        MatchResult result (λ t. t ≡ s) (λ e. e ≡ SessionFault.NoMemory) }
    ensures within { IfErr result (IsWithin lines.old.end) }
{
    let client = read_client(alloc, lines)?;
    let helo = read_helo(alloc, lines)?;
    let lists: MacroLists = read_group(alloc, lines)?;
    with_messages(alloc, client, helo, into_macros(lists), lines)
}

/// Reads the line of the client.
fn read_client(alloc: Global, lines: &mut LineCursor<'_>) -> Result<Client, SessionFault>
    ensures found { IfOk result (λ client. (line : List ℕ) × (lines.old.lines ≡ line ∷ lines.new.lines)
        × LineHasValue client_of line client × Fits (commands.Connect client)) }
    ensures only { (line : List ℕ) (rest : List (List ℕ)) (client : Client) → lines.old.lines ≡ line ∷ rest →
        LineHasValue client_of line client → Fits (commands.Connect client) →
        MatchResult result (λ x. (x ≡ client) × (lines.new.lines ≡ rest)) (λ e. e ≡ SessionFault.NoMemory) }
    ensures end { lines.new.end ≤ lines.old.end }
    ensures within { IfErr result (IsWithin lines.old.end) }
{
    match lines.next(alloc)? {
        Some(line) => client_in(alloc, &line),
        None => Err(SessionFault::BadClient(lines.number())),
    }
}

/// Reads the line of the greeting.
fn read_helo(alloc: Global, lines: &mut LineCursor<'_>) -> Result<Text, SessionFault>
    ensures found { IfOk result (λ helo. (line : List ℕ) × (lines.old.lines ≡ line ∷ lines.new.lines)
        × LineHasValue helo_of line helo × Fits (commands.Helo helo)) }
    ensures only { (line : List ℕ) (rest : List (List ℕ)) (helo : List ℕ) → lines.old.lines ≡ line ∷ rest →
        LineHasValue helo_of line helo → Fits (commands.Helo helo) →
        MatchResult result (λ x. (x ≡ helo) × (lines.new.lines ≡ rest)) (λ e. e ≡ SessionFault.NoMemory) }
    ensures end { lines.new.end ≤ lines.old.end }
    ensures within { IfErr result (IsWithin lines.old.end) }
{
    match lines.next(alloc)? {
        Some(line) => helo_in(alloc, &line),
        None => Err(SessionFault::UnknownLine(lines.number())),
    }
}

/// The session with the messages that the lines are parsed as.
fn with_messages(
    alloc: Global,
    client: Client,
    helo: Text,
    macros: Macros,
    lines: &mut LineCursor<'_>,
) -> Result<Session, SessionFault>
    requires client { Fits (commands.Connect client) }
    requires helo { Fits (commands.Helo helo) }
    requires macros { MacrosFit macros }
    ensures found { IfOk result (λ s. (s.client ≡ client) × (s.helo ≡ helo) × (s.macros ≡ macros)
        × ParsesAsMessageList lines.old.lines s.messages × IsSession s) }
    ensures only { (s : MailSession) → s.client ≡ client → s.helo ≡ helo → s.macros ≡ macros →
        ParsesAsMessageList lines.old.lines s.messages → IsSession s →
        MatchResult result (λ t. t ≡ s) (λ e. e ≡ SessionFault.NoMemory) }
    ensures within { IfErr result (IsWithin lines.old.end) }
{
    let overhead = Overhead::new(&client, &helo, &macros).unwrap();
    let messages = read_messages(alloc, &overhead, lines)?;
    Ok(Session::from_parts(client, helo, macros, messages))
}
