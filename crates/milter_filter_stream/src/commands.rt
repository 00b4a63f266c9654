//! What each command is to a filter.

ghost use Rattle.std.specs.Prelude.{◌≡◌};
ghost use Rattle.milter_wire.specs.BorrowedCommand.{command_of};
ghost use Rattle.milter_protocol.specs.Aborts.{is_greeting_or_sender};
ghost use Rattle.milter_protocol.specs.Commands.{is_of_connection, is_shown};

use milter_wire::CommandRef;
use milter_wire::codes::{SMFIC_CONNECT, SMFIC_HELO, SMFIC_MAIL};

/// Whether the command is shown for the whole connection: the client, its greetings, and the macros of both.
pub(crate) fn is_of_connection(command: &CommandRef<'_>) -> bool
    ensures { result ≡ is_of_connection (command_of command.now) }
{
    match command {
        CommandRef::Connect(_) | CommandRef::Helo(_) => true,
        CommandRef::Macro { command, .. } => { *command == SMFIC_CONNECT || *command == SMFIC_HELO }
        _ => false,
    }
}

/// Whether the command is shown at all: macros, and the commands of the stages.
pub(crate) fn is_shown(command: &CommandRef<'_>) -> bool
    ensures { result ≡ is_shown (command_of command.now) }
{
    match command {
        CommandRef::Macro { .. } => true,
        command => command.stage().is_some(),
    }
}

/// Whether the command is a greeting or a sender, or has the macros of one.
pub(crate) fn is_greeting_or_sender(command: &CommandRef<'_>) -> bool
    ensures { result ≡ is_greeting_or_sender (command_of command.now) }
{
    match command {
        CommandRef::Helo(_) | CommandRef::Mail(_) => true,
        CommandRef::Macro { command, .. } => { *command == SMFIC_HELO || *command == SMFIC_MAIL }
        _ => false,
    }
}
