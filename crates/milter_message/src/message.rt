//! Messages, before and after edits.

ghost use Rattle.std.specs.Prelude.{◌≡◌, ◌↔◌, All, IfSome, IsSome, IsTrue, length, option_copied, slice_get};
ghost use Rattle.milter_wire.specs.declared.command.Command.TheVariants as commands;
ghost use Rattle.milter_wire.specs.Command.{Fits};
ghost use Rattle.milter_message.specs.LeadingSpace.{FieldFits};
ghost use Rattle.milter_message.specs.MailObject.{IsMessage};
ghost use Rattle.milter_message.specs.Chunks.{chunks_of};

use crate::leading_space::fields_fit;
use milter_wire::{Header, Path, Text, path_packet_len};
use std::marker::Model;

/// The most bytes of a body that one packet carries: each chunk but the last one has as many. Source: mfdef.h
/// (MILTER_CHUNK_SIZE).
pub const CHUNK_LEN: usize = 65_535;

/// The most bytes that the packets of one message have, with those of the connection that it comes on: 16 MiB.
pub const WEIGHT_MAX: usize = 16_777_216;

/// A message as SMTP carries it: the sender, the recipients, the header and the body. Each part but the body fits a
/// packet: no string has a NUL, and none is too long. The value of a header field has the blank after the colon, if it
/// begins with one; the field has to fit without it.
#[derive(Debug, Drop)]
pub struct Message {
    sender: Path,
    recipients: Vec<Path>,
    headers: Vec<Header>,
    body: Vec<u8>,
}

impl Model for Message {
    ghost use Rattle.milter_message.specs.MailObject.{MailObject, IsMessage};

    ghost Value = { MailObject };

    ghost view = { λ m. record {
      sender = m.sender;
      recipients = m.recipients.items;
      headers = m.headers.items;
      body = m.body.items;
    } };

    ghost invariant = { λ m. IsMessage (record {
      sender = m.sender;
      recipients = m.recipients.items;
      headers = m.headers.items;
      body = m.body.items;
    }) };
}

impl Message {
    /// The message of these parts; or none, where the sender, a recipient or a header field without the blank that its
    /// value begins with fits no packet. The body may be any bytes, and there may be no recipient. Doesn't allocate.
    pub fn new(
        sender: Path,
        recipients: Vec<Path>,
        headers: Vec<Header>,
        body: Vec<u8>,
    ) -> Option<Self>
        ensures parts { IfSome result (λ m. m ≡ record {
          sender = sender;
          recipients = recipients.items;
          headers = headers.items;
          body = body.items;
        }) }
        ensures exact { IsSome result ↔ IsMessage (record {
          sender = sender;
          recipients = recipients.items;
          headers = headers.items;
          body = body.items;
        }) }
    {
        if path_packet_len(&sender).is_none()
            || !are_encodable_paths(&recipients)
            || !fields_fit(&headers)
        {
            return None;
        }
        Some(Message {
            sender,
            recipients,
            headers,
            body,
        })
    }

    /// The message of these parts, each of which must fit a packet. Doesn't allocate.
    pub fn from_parts(
        sender: Path,
        recipients: Vec<Path>,
        headers: Vec<Header>,
        body: Vec<u8>,
    ) -> Self
        requires { IsMessage (record {
          sender = sender;
          recipients = recipients.items;
          headers = headers.items;
          body = body.items;
        }) }
        ensures { result ≡ record {
          sender = sender;
          recipients = recipients.items;
          headers = headers.items;
          body = body.items;
        } }
    {
        Message {
            sender,
            recipients,
            headers,
            body,
        }
    }

    /// The sender, which fits a packet. Doesn't allocate.
    pub fn sender(&self) -> &Path
        ensures sender { result.now ≡ self.now.sender }
        ensures fits { Fits (commands.Mail result.now) }
    {
        &self.sender
    }

    /// The recipients, in order; each fits a packet. Doesn't allocate.
    pub fn recipients(&self) -> &[Path]
        ensures recipients { result.now ≡ self.now.recipients }
        ensures fit { All (λ path. Fits (commands.Rcpt path)) result.now }
    {
        self.recipients.as_slice()
    }

    /// The header fields, in order; each fits a packet without the blank that its value begins with. Doesn't allocate.
    pub fn headers(&self) -> &[Header]
        ensures headers { result.now ≡ self.now.headers }
        ensures fit { All FieldFits result.now }
    {
        self.headers.as_slice()
    }

    /// The bytes of the body. Doesn't allocate.
    pub fn body(&self) -> &[u8]
        ensures { result.now ≡ self.now.body }
    {
        self.body.as_slice()
    }

    /// The parts of the message. Moves them; doesn't allocate.
    pub fn into_parts(self) -> MessageParts
        ensures sender { result.sender ≡ self.sender }
        ensures recipients { result.recipients.items ≡ self.recipients }
        ensures headers { result.headers.items ≡ self.headers }
        ensures body { result.body.items ≡ self.body }
        ensures whole { IsMessage self }
    {
        MessageParts {
            sender: self.sender,
            recipients: self.recipients,
            headers: self.headers,
            body: self.body,
        }
    }

    /// The chunk of the body with this number, counted from 0: the bytes from 65,535 times the number on, at most
    /// 65,535; or none, where the body has no byte there, as an empty one has nowhere. Doesn't allocate.
    pub fn chunk(&self, k: usize) -> Option<&[u8]>
        ensures { option_copied result ≡ slice_get (chunks_of self.now.body) k }
    {
        chunk_at(self.body(), k)
    }
}

/// The parts of a message, each on its own.
#[derive(Debug, Drop)]
pub struct MessageParts {
    /// The sender.
    pub sender: Path,
    /// The recipients, in order.
    pub recipients: Vec<Path>,
    /// The header fields, in order.
    pub headers: Vec<Header>,
    /// The bytes of the body.
    pub body: Vec<u8>,
}

/// A message after all edits.
#[derive(Debug, Drop)]
pub struct Held {
    /// The message; it may have no recipient left.
    pub message: Message,
    /// The reason for its quarantine, if there is one.
    pub quarantine: Option<Text>,
}

/// The chunk of the body with this number, counted from 0; or none, where the body has no byte there.
fn chunk_at(body: &[u8], k: usize) -> Option<&[u8]>
    ensures { option_copied result ≡ slice_get (chunks_of body.now) k }
{
    let start = k.saturating_mul(CHUNK_LEN);
    if start >= body.len() {
        return None;
    }
    let end = body.len().min(start.saturating_add(CHUNK_LEN));
    Some(&body[start..end])
}

/// Whether each recipient fits a packet.
fn are_encodable_paths(paths: &[Path]) -> bool
    ensures { IsTrue result ↔ All (λ path. Fits (commands.Rcpt path)) paths.now }
{
    paths.iter().all(|path| path_packet_len(path).is_some())
}
