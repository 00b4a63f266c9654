//! The parts of a message, added one by one.

ghost use Rattle.std.specs.Prelude.{◌≡◌, ◌↔◌, ◌++◌, [], IfErr, IfOk, IsTrue, OnErr, OnOk};
ghost use Rattle.milter_wire.specs.declared.command.Command.TheVariants as commands;
ghost use Rattle.milter_wire.specs.Command.{Fits};
ghost use Rattle.milter_message.specs.LeadingSpace.{FieldFits};
ghost use Rattle.milter_message.specs.MailObject.{IsMessage};
ghost use Rattle.milter_c_objects.specs.Messages.{bare_path, message_from, with_body, with_header, with_recipient};
ghost use Rattle.milter_c_objects.specs.declared.parts.PartFault.TheVariants as faults;

use milter_message::{Held, Message, MessageParts, sent_header};
use milter_wire::{
    CommandRef, Header, NoMemory, Params, Path, RefusedMemory, Text, path_packet_len,
};
use std::alloc::Global;

/// Why a part isn't added to a message, which is then as it was.
#[derive(Clone, Copy, Debug, PartialEq, Eq)]
pub enum PartFault {
    /// It is too long for a packet, or a text of it has a NUL.
    DoesNotFit,
    /// Memory was refused.
    NoMemory,
}

impl<E: RefusedMemory> From<E> for PartFault {
    ghost use Rattle.std.specs.Prelude.{◌≡◌};
    ghost use Rattle.milter_c_objects.specs.declared.parts.PartFault.TheVariants as faults;

    ghost from_gives = { λ _ fault. fault ≡ faults.NoMemory };

    fn from(_error: E) -> PartFault {
        PartFault::NoMemory
    }
}

/// A message of this sender, without ESMTP parameters, and with nothing else.
pub fn new_message(alloc: Global, sender: &[u8]) -> Result<Held, PartFault>
    ensures ok { IfOk result (λ held. held ≡ message_from sender.now) }
    ensures cause { IfErr result (λ fault. fault ≡ faults.DoesNotFit →
        ¬ Fits (commands.Mail (bare_path sender.now))) }
{
    let sender = bare_path(alloc, sender)?;
    let (recipients, headers, body) = (Vec::new(alloc), Vec::new(alloc), Vec::new(alloc));
    match Message::new(sender, recipients, headers, body) {
        Some(message) => Ok(Held {
            message,
            quarantine: None,
        }),
        None => Err(PartFault::DoesNotFit),
    }
}

/// Adds a recipient after the others, without ESMTP parameters. An error changes nothing.
pub fn add_recipient(alloc: Global, held: &mut Held, address: &[u8]) -> Result<(), PartFault>
    ensures ok { OnOk result (held.new ≡ with_recipient address.now held.old) }
    ensures err { OnErr result (held.new ≡ held.old) }
    ensures cause { IfErr result (λ fault. fault ≡ faults.DoesNotFit →
        ¬ Fits (commands.Rcpt (bare_path address.now))) }
{
    let recipient = bare_path(alloc, address)?;
    if path_packet_len(&recipient).is_none() {
        return Err(PartFault::DoesNotFit);
    }
    let mut parts = take_parts(alloc, &mut held.message)?;
    let added = parts.recipients.push(recipient);
    held.message = message_of(parts);
    Ok(added?)
}

/// Adds a header field after the others, whose value begins with a blank where the message has one there. An error
/// changes nothing.
pub fn add_header(
    alloc: Global,
    held: &mut Held,
    name: &[u8],
    value: &[u8],
) -> Result<(), PartFault>
    ensures ok { OnOk result (held.new ≡ with_header (record { name = name.now; value = value.now }) held.old) }
    ensures err { OnErr result (held.new ≡ held.old) }
    ensures cause { IfErr result (λ fault. fault ≡ faults.DoesNotFit →
        ¬ FieldFits (record { name = name.now; value = value.now })) }
{
    let header = Header {
        name: Text::copy_of(alloc, name)?,
        value: Text::copy_of(alloc, value)?,
    };
    if !field_fits(&header) {
        return Err(PartFault::DoesNotFit);
    }
    push_header(alloc, held, header)?;
    Ok(())
}

/// Adds a header field that fits after the others. After `NoMemory` nothing has changed.
fn push_header(alloc: Global, held: &mut Held, header: Header) -> Result<(), NoMemory>
    requires { FieldFits header }
    ensures ok { OnOk result (held.new ≡ with_header header held.old) }
    ensures err { OnErr result (held.new ≡ held.old) }
{
    let mut parts = take_parts(alloc, &mut held.message)?;
    let added = parts.headers.push(header);
    held.message = message_of(parts);
    Ok(added?)
}

/// Adds bytes to the body. After `NoMemory` nothing has changed.
pub fn add_body(alloc: Global, held: &mut Held, bytes: &[u8]) -> Result<(), NoMemory>
    ensures ok { OnOk result (held.new ≡ with_body bytes.now held.old) }
    ensures err { OnErr result (held.new ≡ held.old) }
{
    let mut parts = take_parts(alloc, &mut held.message)?;
    let added = parts.body.extend_from_slice(bytes);
    held.message = message_of(parts);
    Ok(added?)
}

/// An address without ESMTP parameters.
fn bare_path(alloc: Global, address: &[u8]) -> Result<Path, NoMemory>
    ensures { IfOk result (λ path. path ≡ bare_path address.now) }
{
    Ok(Path {
        address: Text::copy_of(alloc, address)?,
        params: Params::new(Vec::new(alloc)),
    })
}

/// Whether the packet of a header field fits without the blank that its value begins with.
fn field_fits(header: &Header) -> bool
    ensures { IsTrue result ↔ FieldFits header.now }
{
    CommandRef::Header(sent_header(header.as_ref(), false)).fits()
}

/// The parts of a message, which has none then. After `NoMemory` it is as it was.
fn take_parts(alloc: Global, message: &mut Message) -> Result<MessageParts, NoMemory>
    ensures sender { IfOk result (λ parts. parts.sender ≡ message.old.sender) }
    ensures recipients { IfOk result (λ parts. parts.recipients.items ≡ message.old.recipients) }
    ensures headers { IfOk result (λ parts. parts.headers.items ≡ message.old.headers) }
    ensures body { IfOk result (λ parts. parts.body.items ≡ message.old.body) }
    ensures whole { OnOk result (IsMessage message.old) }
    ensures err { OnErr result (message.new ≡ message.old) }
{
    let sender = bare_path(alloc, b"")?;
    let (recipients, headers, body) = (Vec::new(alloc), Vec::new(alloc), Vec::new(alloc));
    let Some(empty) = Message::new(sender, recipients, headers, body) else {
        return Err(NoMemory);
    };
    Ok(std::mem::replace(message, empty).into_parts())
}

/// The message of these parts.
fn message_of(parts: MessageParts) -> Message
    requires { IsMessage (record {
      sender = parts.sender;
      recipients = parts.recipients.items;
      headers = parts.headers.items;
      body = parts.body.items;
    }) }
    ensures { result ≡ record {
      sender = parts.sender;
      recipients = parts.recipients.items;
      headers = parts.headers.items;
      body = parts.body.items;
    } }
{
    Message::from_parts(parts.sender, parts.recipients, parts.headers, parts.body)
}
