//! The plan of a message as a cursor: which command of which stage is the next one.

ghost use Rattle.std.specs.Prelude.{◌≡◌, ◌<◌, ◌≤◌, ◌+◌, ◌-◌, ◌^◌, IfSome, IsSome, drop, is_some, map, option_map, slice_get};
ghost use Rattle.std.specs.List.{list_any};
ghost use Rattle.std.specs.Option.{option_to_list};
ghost use Rattle.milter_wire.specs.declared.command.Command.TheVariants as commands;
ghost use Rattle.milter_wire.specs.BorrowedCommand.{command_of};
ghost use Rattle.milter_wire.specs.Stages.{macro_command_of, stage_of};
ghost use Rattle.milter_message.specs.LeadingSpace.{sent_header};
ghost use Rattle.milter_message.specs.Chunks.{chunks_of};
ghost use Rattle.milter_protocol.specs.Dialogue.{is_rcpt};
ghost use Rattle.milter_mail.specs.Steps.{macro_step, macros_at};
ghost use Rattle.milter_mta_outcome.specs.PlanCursor.{commands_of, one_of_two, stages_after, steps_at, steps_from, without_body};
ghost use Rattle.milter_mta_outcome.specs.OutgoingValue.{outgoing};

use milter_mail::{Macros, Message, sent_value};
use milter_wire::{Client, CommandRef, Header, HeaderRef, Negotiated, PairsRef, Path, Stage, Text};

/// What is sent of a client before its messages, and the macros before each command.
#[derive(Debug, Drop)]
pub struct ClientInfo {
    /// The client.
    pub client: Client,
    /// The name with which it greets.
    pub helo: Text,
    /// The macros of each stage, of which a filter may ask for some.
    pub macros: Macros,
}

/// A command of the plan of a message: the stage, and how many commands of it come before, macro packets among them.
#[derive(Clone, Copy, Debug, PartialEq, Eq)]
pub struct Cursor {
    /// The stage.
    pub stage: Stage,
    /// How many commands of the stage come before, with the macro packets.
    pub step: usize,
}

/// What is sent of a message and its client, by what was negotiated.
#[derive(Clone, Copy)]
pub(crate) struct OutgoingRef<'a> {
    pub(crate) negotiated: &'a Negotiated,
    /// Those that the filter asked for.
    pub(crate) macros: &'a Macros,
    pub(crate) client: &'a Client,
    pub(crate) helo: &'a Text,
    pub(crate) message: &'a Message,
}

/// The command of the stage with this number, without macro packets.
fn command_at<'a>(of: &OutgoingRef<'a>, stage: Stage, n: usize) -> Option<CommandRef<'a>>
    ensures { option_map command_of result ≡ slice_get (commands_of (outgoing of.now) stage) n }
{
    match stage {
        Stage::Rcpt => recipient_at(of.message.recipients(), n),
        Stage::Header => header_at(of.message.headers(), of.negotiated.has_leading_space(), n),
        Stage::Body => chunk_at(of.message, n),
        _ if n > 0 => None,
        Stage::Connect => Some(CommandRef::Connect(of.client.as_ref())),
        Stage::Helo => Some(CommandRef::Helo(of.helo.as_slice())),
        Stage::Mail => Some(CommandRef::Mail(of.message.sender().as_ref())),
        Stage::DataCmd => Some(CommandRef::DataCmd),
        Stage::Eoh => Some(CommandRef::Eoh),
        Stage::Eob => Some(CommandRef::Eob(&[])),
    }
}

/// The recipient with this number.
fn recipient_at(recipients: &[Path], n: usize) -> Option<CommandRef<'_>>
    ensures { option_map command_of result
        ≡ slice_get (map (λ recipient. commands.Rcpt recipient) recipients.now) n }
{
    let recipient = recipients.get(n)?;
    Some(CommandRef::Rcpt(recipient.as_ref()))
}

/// The header field with this number, as it is sent.
fn header_at(headers: &[Header], leading_space: bool, n: usize) -> Option<CommandRef<'_>>
    ensures { option_map command_of result
        ≡ slice_get (map (λ header. commands.Header (sent_header leading_space header)) headers.now) n }
{
    let header = headers.get(n)?;
    Some(CommandRef::Header(HeaderRef {
        name: header.name.as_slice(),
        value: sent_value(header, leading_space),
    }))
}

/// The chunk of the body with this number.
fn chunk_at(message: &Message, n: usize) -> Option<CommandRef<'_>>
    ensures { option_map command_of result
        ≡ slice_get (map (λ chunk. commands.Body chunk) (chunks_of message.now.body)) n }
{
    let chunk = message.chunk(n)?;
    Some(CommandRef::Body(chunk))
}

/// The packet with the macros of the stage, where there are some.
fn macro_packet<'a>(macros: &'a Macros, stage: Stage) -> Option<CommandRef<'a>>
    ensures { option_to_list (option_map command_of result)
        ≡ macro_step (macro_command_of stage) (macros_at macros.now stage) }
{
    let command = stage.macro_command()?;
    let pairs = macros.before(stage);
    if pairs.is_empty() {
        return None;
    }
    Some(CommandRef::Macro {
        command,
        pairs: PairsRef::new(pairs),
    })
}

/// The command at this place of the plan, macro packets among them; none where the stage isn't sent.
fn step_at<'a>(of: &OutgoingRef<'a>, at: Cursor) -> Option<CommandRef<'a>>
    ensures { option_map command_of result ≡ slice_get (steps_at (outgoing of.now) at.stage) at.step }
{
    if !of.negotiated.is_sent(at.stage) {
        return None;
    }
    match macro_packet(of.macros, at.stage) {
        None => command_at(of, at.stage, at.step),
        Some(packet) => one_of_two(packet, command_at(of, at.stage, at.step / 2), at.step % 2),
    }
}

/// Whether there is a command of the stage with this number, without macro packets.
fn has_command(of: &OutgoingRef<'_>, stage: Stage, n: usize) -> bool
    ensures { result ≡ is_some (slice_get (commands_of (outgoing of.now) stage) n) }
{
    match stage {
        Stage::Rcpt => n < of.message.recipients().len(),
        Stage::Header => n < of.message.headers().len(),
        Stage::Body => of.message.chunk(n).is_some(),
        _ => n == 0,
    }
}

/// Whether a packet with macros precedes each command of the stage.
fn has_macros(macros: &Macros, stage: Stage) -> bool
    ensures { result ≡ is_some (slice_get (macro_step (macro_command_of stage) (macros_at macros.now stage)) 0) }
{
    stage.macro_command().is_some() && !macros.before(stage).is_empty()
}

/// Whose stage the command at this place of the plan is: `Some(None)` for a macro packet, none where no command is.
fn stage_at(of: &OutgoingRef<'_>, at: Cursor) -> Option<Option<Stage>>
    ensures { result ≡ option_map stage_of (slice_get (steps_at (outgoing of.now) at.stage) at.step) }
{
    if !of.negotiated.is_sent(at.stage) {
        return None;
    }
    if !has_macros(of.macros, at.stage) {
        return if has_command(of, at.stage, at.step) {
            Some(Some(at.stage))
        } else {
            None
        };
    }
    if !has_command(of, at.stage, at.step / 2) {
        return None;
    }
    if at.step % 2 == 0 {
        Some(None)
    } else {
        Some(Some(at.stage))
    }
}

/// The packet, or the command after it, where there is one.
fn one_of_two<'a>(
    packet: CommandRef<'a>,
    command: Option<CommandRef<'a>>,
    n: usize,
) -> Option<CommandRef<'a>>
    ensures { option_map command_of result
        ≡ one_of_two (command_of packet.entry) (option_map command_of command.entry) n }
{
    let command = command?;
    Some(if n == 0 { packet } else { command })
}

/// The stage after this one.
fn stage_after(stage: Stage) -> Option<Stage>
    ensures { result ≡ slice_get (stages_after stage) 0 }
{
    match stage {
        Stage::Connect => Some(Stage::Helo),
        Stage::Helo => Some(Stage::Mail),
        Stage::Mail => Some(Stage::Rcpt),
        Stage::Rcpt => Some(Stage::DataCmd),
        Stage::DataCmd => Some(Stage::Header),
        Stage::Header => Some(Stage::Eoh),
        Stage::Eoh => Some(Stage::Body),
        Stage::Body => Some(Stage::Eob),
        Stage::Eob => None,
    }
}

/// Where the first of the commands that are left stands.
#[derive(Clone, Copy, Drop)]
pub(crate) struct First {
    pub(crate) at: Cursor,
    /// Its stage; none for a macro packet.
    pub(crate) stage: Option<Stage>,
}

/// Where the first command from here on stands, if one is left. The same commands are left from there on.
pub(crate) fn first_from(of: &OutgoingRef<'_>, cursor: Cursor) -> Option<First>
    ensures stage { option_map (λ first. first.stage) result
        ≡ option_map stage_of (slice_get (steps_from (outgoing of.now) cursor.stage cursor.step) 0) }
    ensures there { IfSome result (λ first. slice_get (steps_at (outgoing of.now) first.at.stage) first.at.step
        ≡ slice_get (steps_from (outgoing of.now) cursor.stage cursor.step) 0) }
    ensures left { IfSome result (λ first. steps_from (outgoing of.now) first.at.stage first.at.step
        ≡ steps_from (outgoing of.now) cursor.stage cursor.step) }
    ensures within { IfSome result (λ first. first.at.step ≤ cursor.step) }
{
    let mut at = cursor;
    loop {
        if let Some(stage) = stage_at(of, at) {
            return Some(First { at, stage });
        }
        let stage = stage_after(at.stage)?;
        at = Cursor { stage, step: 0 };
    }
}

/// The first command from here on, if one is left.
pub(crate) fn first_command<'a>(of: &OutgoingRef<'a>, cursor: Cursor) -> Option<CommandRef<'a>>
    ensures { option_map command_of result ≡ slice_get (steps_from (outgoing of.now) cursor.stage cursor.step) 0 }
{
    let first = first_from(of, cursor)?;
    step_at(of, first.at)
}

/// The command after this one.
pub(crate) fn next(of: &OutgoingRef<'_>, cursor: Cursor) -> Cursor
    requires there { IsSome (slice_get (steps_at (outgoing of.now) cursor.stage) cursor.step) }
    requires room { cursor.step < 2 ^ 64 - 1 }
    ensures left { steps_from (outgoing of.now) result.stage result.step
        ≡ drop 1 (steps_from (outgoing of.now) cursor.stage cursor.step) }
    ensures cursor { result ≡ record { stage = cursor.stage; step = cursor.step + 1 } }
{
    Cursor {
        stage: cursor.stage,
        step: cursor.step + 1,
    }
}

/// The first command that is no chunk of the body, from a chunk of it on.
pub(crate) fn after_body(of: &OutgoingRef<'_>, cursor: Cursor) -> Cursor
    requires { cursor.stage ≡ Stage.Body }
    ensures left { steps_from (outgoing of.now) result.stage result.step
        ≡ without_body (steps_from (outgoing of.now) cursor.stage cursor.step) }
    ensures step { result.step ≡ 0 }
{
    Cursor {
        stage: Stage::Eob,
        step: 0,
    }
}

/// Whether a recipient is left from here on, among the commands on recipients.
pub(crate) fn has_recipient(of: &OutgoingRef<'_>, cursor: Cursor) -> bool
    requires { cursor.stage ≡ Stage.Rcpt }
    ensures { result ≡ list_any is_rcpt (steps_from (outgoing of.now) cursor.stage cursor.step) }
{
    stage_at(of, cursor).is_some()
}
