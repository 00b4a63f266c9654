//! Sessions of a mail server with one client.

ghost use Rattle.std.specs.Prelude.{◌≡◌, ◌↔◌, All, IfSome, IsSome};
ghost use Rattle.milter_wire.specs.declared.command.Command.TheVariants as commands;
ghost use Rattle.milter_wire.specs.Command.{Fits};
ghost use Rattle.milter_mail.specs.MailSession.{IsSendable, IsSession, MacrosFit};

use crate::by_macro_stage::Macros;
use crate::weight::is_session;
use milter_message::Message;
use milter_wire::{Client, Text};
use std::marker::Model;

/// What a mail server sends of one client: who it is and how it greets, the macros of each stage, and the
/// messages that it sends, in order.
///
/// Each message has a recipient, and each of its header fields fits a packet with its whole value. It weighs at most
/// 16,777,216 bytes: those of all its packets where nothing is left out, of the client, of its greeting and of all
/// macros, with their length fields.
#[derive(Debug, Drop)]
pub struct Session {
    client: Client,
    helo: Text,
    macros: Macros,
    messages: Vec<Message>,
}

/// The parts of a session, each on its own.
#[derive(Debug, Drop)]
pub struct SessionParts {
    /// The client.
    pub client: Client,
    /// The name with which it greets.
    pub helo: Text,
    /// The macros of each stage.
    pub macros: Macros,
    /// The messages, in order.
    pub messages: Vec<Message>,
}

impl Model for Session {
    ghost use Rattle.milter_mail.specs.MailSession.{IsSession, MailSession};

    ghost Value = { MailSession };

    ghost view = { λ s. record {
      client = s.client;
      helo = s.helo;
      macros = s.macros;
      messages = s.messages.items;
    } };

    ghost invariant = { λ s. IsSession (record {
      client = s.client;
      helo = s.helo;
      macros = s.macros;
      messages = s.messages.items;
    }) };
}

impl Session {
    /// The session of these parts; or none, where the client, the greeting or the macros of a stage fit no packet, or
    /// where a message has no recipient, a header field that fits no packet with its whole value, or weighs more than
    /// 16,777,216 bytes. There may be no message. Doesn't allocate.
    pub fn new(client: Client, helo: Text, macros: Macros, messages: Vec<Message>) -> Option<Self>
        ensures parts { IfSome result (λ s. s ≡ record {
          client = client;
          helo = helo;
          macros = macros;
          messages = messages.items;
        }) }
        ensures exact { IsSome result ↔ IsSession (record {
          client = client;
          helo = helo;
          macros = macros;
          messages = messages.items;
        }) }
    {
        if !is_session(&client, &helo, &macros, &messages) {
            return None;
        }
        Some(Session {
            client,
            helo,
            macros,
            messages,
        })
    }

    /// The session of these parts, which must make one. Doesn't allocate.
    pub fn from_parts(client: Client, helo: Text, macros: Macros, messages: Vec<Message>) -> Self
        requires { IsSession (record {
          client = client;
          helo = helo;
          macros = macros;
          messages = messages.items;
        }) }
        ensures { result ≡ record {
          client = client;
          helo = helo;
          macros = macros;
          messages = messages.items;
        } }
    {
        Session {
            client,
            helo,
            macros,
            messages,
        }
    }

    /// The parts of the session. Moves them; doesn't allocate.
    pub fn into_parts(self) -> SessionParts
        ensures client { result.client ≡ self.client }
        ensures helo { result.helo ≡ self.helo }
        ensures macros { result.macros ≡ self.macros }
        ensures messages { result.messages.items ≡ self.messages }
        ensures whole { IsSession self }
    {
        SessionParts {
            client: self.client,
            helo: self.helo,
            macros: self.macros,
            messages: self.messages,
        }
    }

    /// The client, which fits a packet. Doesn't allocate.
    pub fn client(&self) -> &Client
        ensures client { result.now ≡ self.now.client }
        ensures fits { Fits (commands.Connect result.now) }
    {
        &self.client
    }

    /// The name with which the client greets, which fits a packet. Doesn't allocate.
    pub fn helo(&self) -> &Text
        ensures helo { result.now ≡ self.now.helo }
        ensures fits { Fits (commands.Helo result.now) }
    {
        &self.helo
    }

    /// The macros of each stage; those of a stage fit a packet. Doesn't allocate.
    pub fn macros(&self) -> &Macros
        ensures macros { result.now ≡ self.now.macros }
        ensures fit { MacrosFit result.now }
    {
        &self.macros
    }

    /// The messages, in order; each has a recipient and weighs at most 16,777,216 bytes. Doesn't allocate.
    pub fn messages(&self) -> &[Message]
        ensures messages { result.now ≡ self.now.messages }
        ensures sendable { All (IsSendable self.now.client self.now.helo self.now.macros) result.now }
    {
        self.messages.as_slice()
    }
}
