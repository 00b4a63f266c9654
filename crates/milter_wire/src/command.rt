//! What the mail server (MTA) sends to the filter.

ghost use Rattle.std.specs.Prelude.{◌≡◌, ◌≤◌, ◌++◌, ◌↔◌, length, IsTrue, OnOk, OnErr, IfOk, IsErrOf, MatchResult};
ghost use Rattle.milter_wire.specs.declared.command.Command.{Command};
ghost use Rattle.milter_wire.specs.Stages.{stage_of};
ghost use Rattle.milter_fields.specs.Packet.{packet};
ghost use Rattle.milter_wire.specs.Command.{is_code, Fits, IsEncodedAs, encoding, command_in};
ghost use Rattle.milter_wire.specs.Tables.{Decodes};
ghost use Rattle.milter_wire.specs.BorrowedCommand.{command_of};

use crate::command_ref::CommandRef;
use crate::options::Options;
use crate::stage::Stage;
use milter_fields::{
    Client, Header, NoMemory, PAYLOAD_MAX, Pairs, PairsRef, Path, Text, WireFault,
};
use std::alloc::Global;

/// A packet that an MTA sends to a filter. Source: mfdef.h (the codes SMFIC_), and the layouts that libmilter reads.
#[derive(Clone, Debug, PartialEq, Eq, Drop)]
pub enum Command {
    /// `O`: the versions, actions and protocol steps that the MTA offers.
    Options(Options),
    /// `D`: macros for the command with this code, which may be any byte.
    Macro {
        /// The code of the command that the macros belong to.
        command: u8,
        /// The macros; there may be none.
        pairs: Pairs,
    },
    /// `C`: a client has connected.
    Connect(Client),
    /// `H`: the client has sent HELO or EHLO, with this name.
    Helo(Text),
    /// `M`: the sender of a message.
    Mail(Path),
    /// `R`: a recipient of the message.
    Rcpt(Path),
    /// `T`: the client has sent DATA.
    DataCmd,
    /// `L`: a header field of the message.
    Header(Header),
    /// `N`: the header has ended.
    Eoh,
    /// `B`: a chunk of the body, of up to 65,535 bytes of any kind.
    Body(Text),
    /// `E`: the message has ended, perhaps with a last chunk of the body.
    Eob(Text),
    /// `U`: the client has sent a command that the MTA doesn't know.
    Unknown(Text),
    /// `A`: the message is given up; the connection goes on.
    Abort,
    /// `Q`: the connection has ended.
    Quit,
    /// `K`: the client's connection has ended, and another one follows on this stream.
    QuitNew,
}

impl Command {
    /// The same command, borrowed. Doesn't allocate.
    pub fn as_ref(&self) -> CommandRef<'_>
        ensures { command_of result ≡ self.now }
    {
        match self {
            Command::Options(options) => CommandRef::Options(*options),
            Command::Macro { command, pairs } => CommandRef::Macro {
                command: *command,
                pairs: PairsRef::new(pairs.as_slice()),
            },
            Command::Connect(client) => CommandRef::Connect(client.as_ref()),
            Command::Helo(name) => CommandRef::Helo(name.as_slice()),
            Command::Mail(sender) => CommandRef::Mail(sender.as_ref()),
            Command::Rcpt(recipient) => CommandRef::Rcpt(recipient.as_ref()),
            Command::DataCmd => CommandRef::DataCmd,
            Command::Header(header) => CommandRef::Header(header.as_ref()),
            Command::Eoh => CommandRef::Eoh,
            Command::Body(bytes) => CommandRef::Body(bytes.as_slice()),
            Command::Eob(bytes) => CommandRef::Eob(bytes.as_slice()),
            Command::Unknown(text) => CommandRef::Unknown(text.as_slice()),
            Command::Abort => CommandRef::Abort,
            Command::Quit => CommandRef::Quit,
            Command::QuitNew => CommandRef::QuitNew,
        }
    }

    /// Whether the command has an encoding: its code and payload have at most 65,536 bytes, and no string in it has a
    /// NUL. Doesn't allocate.
    pub fn fits(&self) -> bool
        ensures { IsTrue result ↔ Fits self.now }
    {
        self.as_ref().fits()
    }

    /// Appends the packet to `out`: four bytes of length, the code, the payload. After `NoMemory`, `out` is as it was.
    /// Source: mfdef.h.
    pub fn encode(&self, alloc: Global, out: &mut Vec<u8>) -> Result<(), NoMemory>
        requires { Fits self.now }
        ensures ok { OnOk result (out.new.items ≡ out.old.items ++ encoding self.now) }
        ensures err { OnErr result (out.new.items ≡ out.old.items) }
    {
        self.as_ref().encode(alloc, out)
    }

    /// The command that a packet's code and payload encode. The payload has at most 65,535 bytes. The fault is
    /// `UnknownCode(code)` where no command has the code, `Malformed(code)` where one has it and the payload isn't in
    /// its layout, and `NoMemory` only where the payload is in its layout. Source: mfdef.h, and the layouts that
    /// libmilter reads.
    pub fn decode(alloc: Global, code: u8, payload: &[u8]) -> Result<Command, WireFault>
        requires { length payload.now ≤ PAYLOAD_MAX }
        // What is decoded is encoded so, each byte of it.
        ensures found { IfOk result (λ c. IsEncodedAs c (packet code payload.now)) }
        // What is encoded so is decoded, unless memory is refused.
        ensures only { (c : Command) → IsEncodedAs c (packet code payload.now) →
            MatchResult result (λ d. d ≡ c) (λ e. e ≡ WireFault.NoMemory) }
        ensures unknown { IsErrOf result (WireFault.UnknownCode code) ↔ ¬ IsTrue (is_code code) }
        ensures malformed { IsErrOf result (WireFault.Malformed code)
            ↔ (IsTrue (is_code code) × ((c : Command) → ¬ IsEncodedAs c (packet code payload.now))) }
        ensures memory { IsErrOf result WireFault.NoMemory → (c : Command) × IsEncodedAs c (packet code payload.now) }
        // The same in words that compute.
        ensures reading { Decodes code (is_code code) (command_in code payload.now) result }
    {
        take_command(alloc, code, payload)
    }

    /// The stage that the command is, if it is one: options, macros, unknown commands and what ends a message or a
    /// connection are none. Doesn't allocate. Source: the libmilter callback documentation.
    pub fn stage(&self) -> Option<Stage>
        ensures { result ≡ stage_of self.now }
    {
        self.as_ref().stage()
    }
}

/// A copy of the command that the packet holds.
fn take_command(alloc: Global, code: u8, payload: &[u8]) -> Result<Command, WireFault>
    ensures { Decodes code (is_code code) (command_in code payload.now) result }
{
    let command = CommandRef::decode(code, payload)?;
    Ok(command.to_command(alloc)?)
}
