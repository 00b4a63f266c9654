//! The line that is printed for a packet.

ghost use Rattle.std.specs.Prelude.{◌≡◌, ◌++◌, ◌∷◌, [], OnOk};
ghost use Rattle.milter_trace.specs.declared.direction.Direction.TheVariants.{ToFilter, ToMta};
ghost use Rattle.milter_fields.specs.Code.{code_text};
ghost use Rattle.milter_fields.specs.Packet.{IsPayload};
ghost use Rattle.milter_fields.specs.Splitter.{frame_of};
ghost use Rattle.milter_trace.specs.PacketText.{AppendsText, command_fields, line_text, mark_of, packet_text};
ghost use Rattle.milter_trace.specs.PacketText.{packet_text_in, reply_fields};

use crate::direction::Direction;
use crate::fields::{put_code, put_command, put_reply};
use crate::form::TraceForm;
use milter_wire::{Command, NoMemory, Packet, Reply, WireFault};
use std::alloc::Global;

/// Appends the line of a packet: the direction, the code and the fields, with a blank between. The fault is
/// `UnknownCode` or `Malformed`, and `text` is then as it was; after `NoMemory` a beginning of the line may have been
/// appended.
pub fn put_packet(
    alloc: Global,
    direction: Direction,
    packet: &Packet<'_>,
    text: &mut Vec<u8>,
) -> Result<(), WireFault>
    requires { IsPayload packet.now.payload.now }
    ensures { AppendsText (packet_text direction (frame_of packet.now)) text.old.items text.new.items result }
{
    put_packet_as(alloc, TraceForm::plain(), direction, packet, text)
}

/// The same in a form: `form` says what the line has beside that.
pub fn put_packet_as(
    alloc: Global,
    form: TraceForm,
    direction: Direction,
    packet: &Packet<'_>,
    text: &mut Vec<u8>,
) -> Result<(), WireFault>
    requires { IsPayload packet.now.payload.now }
    ensures { AppendsText (packet_text_in form direction (frame_of packet.now)) text.old.items text.new.items result }
{
    match direction {
        Direction::ToFilter => put_command_packet(alloc, form, packet.code, packet.payload, text),
        Direction::ToMta => put_reply_packet(alloc, form, packet.code, packet.payload, text),
    }
}

/// Appends the line of a packet to the filter.
fn put_command_packet(
    alloc: Global,
    form: TraceForm,
    code: u8,
    payload: &[u8],
    text: &mut Vec<u8>,
) -> Result<(), WireFault>
    requires { IsPayload payload.now }
    ensures { AppendsText (packet_text_in form ToFilter (record { code = code; payload = payload.now })) text.old.items
        text.new.items result }
{
    let command = Command::decode(alloc, code, payload)?;
    let written = put_command_line(alloc, form, code, &command, text);
    drop(command);
    Ok(written?)
}

fn put_command_line(
    alloc: Global,
    form: TraceForm,
    code: u8,
    command: &Command,
    text: &mut Vec<u8>,
) -> Result<(), NoMemory>
    ensures { OnOk result (text.new.items ≡ text.old.items
        ++ line_text ToFilter code (command_fields form command.now)) }
{
    put_head(alloc, text, Direction::ToFilter, code)?;
    put_command(alloc, form, text, command)?;
    text.push(b'\n')?;
    Ok(())
}

/// Appends the line of a packet to the mail server.
fn put_reply_packet(
    alloc: Global,
    form: TraceForm,
    code: u8,
    payload: &[u8],
    text: &mut Vec<u8>,
) -> Result<(), WireFault>
    requires { IsPayload payload.now }
    ensures { AppendsText (packet_text_in form ToMta (record { code = code; payload = payload.now })) text.old.items
        text.new.items result }
{
    let reply = Reply::decode(alloc, code, payload)?;
    let written = put_reply_line(alloc, form, code, &reply, text);
    drop(reply);
    Ok(written?)
}

fn put_reply_line(
    alloc: Global,
    form: TraceForm,
    code: u8,
    reply: &Reply,
    text: &mut Vec<u8>,
) -> Result<(), NoMemory>
    ensures { OnOk result (text.new.items ≡ text.old.items ++ line_text ToMta code (reply_fields form reply.now)) }
{
    put_head(alloc, text, Direction::ToMta, code)?;
    put_reply(alloc, form, text, reply)?;
    text.push(b'\n')?;
    Ok(())
}

/// The direction, a blank and the code.
fn put_head(
    alloc: Global,
    text: &mut Vec<u8>,
    direction: Direction,
    code: u8,
) -> Result<(), NoMemory>
    ensures { OnOk result (text.new.items ≡ text.old.items ++ (mark_of direction ∷ 32 ∷ code_text code)) }
{
    text.push(direction.mark())?;
    text.push(b' ')?;
    put_code(alloc, text, code)
}
