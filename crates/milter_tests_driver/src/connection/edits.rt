//! What is printed of edits.

use crate::printed::{print_hex, print_message};
use anyhow::{Context, bail};
use milter_mail::{Edit, Held, Message};
use milter_mta_connection::MtaConnection;
use milter_wire::{Header, Params, Path, Text};
use std::alloc::Global;

/// Prints the packet that asks for an edit.
fn print_edit(rt: &HostRuntime, edit: &Edit) -> anyhow::Result<()> {
    let reply = edit.copy(rt.alloc())?.into_reply();
    if !reply.fits() {
        bail!("an edit fits no packet");
    }
    let mut packet = Vec::new(rt.alloc());
    reply.encode(rt.alloc(), &mut packet)?;
    print_hex(rt, &packet)
}

/// Prints how many edits there are, and the packet of each.
pub fn print_edits(rt: &HostRuntime, edits: &[Edit]) -> anyhow::Result<()> {
    println!(rt; "edits {}", edits.len())?;
    for edit in edits {
        print_edit(rt, edit)?;
    }
    Ok(())
}

/// A sender or a recipient without parameters.
fn path_of(alloc: Global, address: &Text) -> anyhow::Result<Path> {
    Ok(Path {
        address: Text::copy_of(alloc, address.as_slice())?,
        params: Params::new(Vec::new(alloc)),
    })
}

/// One recipient.
fn recipients_of(alloc: Global, address: &Text) -> anyhow::Result<Vec<Path>> {
    let mut recipients = Vec::new(alloc);
    recipients.push(path_of(alloc, address)?)?;
    Ok(recipients)
}

/// A header field.
fn header_of(alloc: Global, name: &Text, value: &Text) -> anyhow::Result<Header> {
    let name = Text::copy_of(alloc, name.as_slice())?;
    let value = Text::copy_of(alloc, value.as_slice())?;
    Ok(Header { name, value })
}

/// One header field.
fn headers_of(alloc: Global, name: &Text, value: &Text) -> anyhow::Result<Vec<Header>> {
    let mut headers = Vec::new(alloc);
    headers.push(header_of(alloc, name, value)?)?;
    Ok(headers)
}

/// A message with one recipient and one header field.
fn message_in(alloc: Global, texts: &[Text]) -> anyhow::Result<Message> {
    let [sender, recipient, name, value, body] = texts else {
        bail!("edited SENDER RECIPIENT NAME VALUE BODY");
    };
    let body = body.as_slice().to_vec(alloc)?;
    let headers = headers_of(alloc, name, value)?;
    let recipients = recipients_of(alloc, recipient)?;
    let sender = path_of(alloc, sender)?;
    Message::new(sender, recipients, headers, body).context("no message")
}

/// Prints the message of these parts after the edits that came.
pub fn print_edited(
    rt: &HostRuntime,
    connection: &MtaConnection,
    texts: &[Text],
) -> anyhow::Result<()> {
    let message = message_in(rt.alloc(), texts)?;
    let held: Held = connection.edited(&message)?;
    print_message(rt, &held)
}
