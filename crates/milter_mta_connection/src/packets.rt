//! The packets of a call: whether those of a command fit, and how all are queued.

ghost use Rattle.std.specs.Prelude.{◌≡◌, ◌↔◌, All, IsTrue, OnErr, OnOk, false, option_map};
ghost use Rattle.std.specs.Option.{option_to_list};
ghost use Rattle.milter_wire.specs.declared.command.Command.TheVariants as commands;
ghost use Rattle.milter_wire.specs.BorrowedCommand.{command_of};
ghost use Rattle.milter_wire.specs.Command.{Fits};
ghost use Rattle.milter_mail.specs.Steps.{macro_step};
ghost use Rattle.milter_mta_connection.specs.Channel.{queue, queue_all};
ghost use Rattle.milter_mta_connection.specs.Connection.{FitPackets, HasQueuedSome, abort_before, aborts, with_packets};

use crate::mta_channel::MtaChannel;
use crate::phase::Phase;
use milter_wire::{CommandRef, NoMemory, Pair, PairsRef, Stage};

/// The packet with the macros for the command of this code, where there are some.
fn macro_packet<'a>(code: Option<u8>, macros: &'a [Pair]) -> Option<CommandRef<'a>>
    ensures { option_to_list (option_map command_of result) ≡ macro_step code macros.now }
{
    let command = code?;
    if macros.is_empty() {
        return None;
    }
    Some(CommandRef::Macro {
        command,
        pairs: PairsRef::new(macros),
    })
}

/// Whether the packet with these macros fits, where there are some.
fn macros_fit(code: Option<u8>, macros: &[Pair]) -> bool
    ensures { IsTrue result ↔ All Fits (macro_step code macros.now) }
{
    match macro_packet(code, macros) {
        Some(packet) => packet.fits(),
        None => true,
    }
}

/// Whether the packets of a command fit.
pub(crate) fn packets_fit(code: Option<u8>, command: &CommandRef<'_>, macros: &[Pair]) -> bool
    ensures { IsTrue result ↔ FitPackets code (command_of command.now) macros.now }
{
    command.fits() && macros_fit(code, macros)
}

/// Queues the packet with the macros for the command of this code, where there are some.
fn queue_macros(channel: &mut MtaChannel, code: Option<u8>, macros: &[Pair]) -> Result<(), NoMemory>
    requires { All Fits (macro_step code macros.now) }
    ensures ok { OnOk result (channel.new ≡ queue_all (macro_step code macros.now) channel.old) }
    ensures err { OnErr result (channel.new ≡ channel.old) }
{
    match macro_packet(code, macros) {
        Some(packet) => channel.queue(&packet),
        None => Ok(()),
    }
}

/// Queues a command, after the macros for the command of this code. After `NoMemory` the macros may be pending.
pub(crate) fn queue_packets(
    channel: &mut MtaChannel,
    code: Option<u8>,
    command: &CommandRef<'_>,
    macros: &[Pair],
) -> Result<(), NoMemory>
    requires { FitPackets code (command_of command.now) macros.now }
    ensures ok { OnOk result
        (channel.new ≡ with_packets false code (command_of command.now) macros.now channel.old) }
    ensures err { OnErr result (HasQueuedSome channel.old channel.new) }
{
    queue_macros(channel, code, macros)?;
    channel.queue(command)
}

/// Queues the abort that comes before a command of the stage.
pub(crate) fn queue_abort_before(
    channel: &mut MtaChannel,
    phase: Phase,
    stage: Stage,
) -> Result<(), NoMemory>
    ensures ok { OnOk result (channel.new ≡ queue_all (abort_before phase stage) channel.old) }
    ensures err { OnErr result (channel.new ≡ channel.old) }
{
    if phase == Phase::MessageOver && stage == Stage::Mail {
        return channel.queue(&CommandRef::Abort);
    }
    Ok(())
}

/// Queues the abort of a message that was sent in part.
pub(crate) fn queue_abort(channel: &mut MtaChannel, phase: Phase) -> Result<(), NoMemory>
    ensures ok { OnOk result (channel.new ≡ queue_all (aborts phase) channel.old) }
    ensures err { OnErr result (channel.new ≡ channel.old) }
{
    if phase.is_due_abort() {
        return channel.queue(&CommandRef::Abort);
    }
    Ok(())
}

/// Queues the end of the connection, after the abort of a message that was sent in part. After `NoMemory` the abort
/// may be pending.
pub(crate) fn queue_quit(channel: &mut MtaChannel, phase: Phase) -> Result<(), NoMemory>
    ensures ok { OnOk result (channel.new ≡ queue commands.Quit (queue_all (aborts phase) channel.old)) }
    ensures err { OnErr result (HasQueuedSome channel.old channel.new) }
{
    queue_abort(channel, phase)?;
    channel.queue(&CommandRef::Quit)
}
