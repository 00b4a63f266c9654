//! Commands that are borrowed: what a packet has, read in place, or what a mail server sends, encoded from where it is.

ghost use Rattle.std.specs.Prelude.{◌≡◌, ◌-◌, ◌^◌, ◌∷◌, ◌++◌, ◌↔◌, IfOk, IsTrue, OnErr, OnOk, length, min, if◌then◌else◌, option_map};
ghost use Rattle.std.specs.List.{flat_map};
ghost use Rattle.milter_fields.specs.AppendedBytes.{PutsBytes};
ghost use Rattle.milter_fields.specs.declared.fault.WireFault.TheVariants as faults;
ghost use Rattle.milter_wire.specs.declared.command.Command.TheVariants as commands;
ghost use Rattle.milter_fields.specs.Layout.{pair};
ghost use Rattle.milter_wire.specs.Command.{code_of, payload_of, is_code, Fits, FieldsFit, encoding, command_in};
ghost use Rattle.milter_fields.specs.Decoders.{macro_in};
ghost use Rattle.milter_wire.specs.Tables.{map_ok};
ghost use Rattle.milter_wire.specs.Frames.{frame_command};
ghost use Rattle.milter_wire.specs.BorrowedCommand.{command_of};
ghost use Rattle.milter_wire.specs.Stages.{stage_of};

use crate::codes::{
    SMFIC_ABORT, SMFIC_BODY, SMFIC_BODYEOB, SMFIC_CONNECT, SMFIC_DATA, SMFIC_EOH, SMFIC_HEADER,
    SMFIC_HELO, SMFIC_MACRO, SMFIC_MAIL, SMFIC_OPTNEG, SMFIC_QUIT, SMFIC_QUIT_NC, SMFIC_RCPT,
    SMFIC_UNKNOWN,
};
use crate::command::Command;
use crate::options::Options;
use crate::options_payload::{OPTIONS_LEN, options_fit, put_options, take_options};
use crate::stage::Stage;
use milter_fields::{
    ClientRef, HeaderRef, NoMemory, PAYLOAD_MAX, PairsRef, PathRef, Text, WireFault, has_no_nul,
    one_string, put_bytes, put_head, put_string, string_len,
};
use std::alloc::Global;

/// A command that is borrowed: from a packet, from a [`Command`], or from the parts of a session. Each variant is that
/// of [`Command`] of the same name. Source: mfdef.h (the codes SMFIC_), and the layouts that libmilter reads.
#[derive(Debug, Drop)]
pub enum CommandRef<'a> {
    /// `O`: the versions, actions and protocol steps that the MTA offers.
    Options(Options),
    /// `D`: macros for the command with this code, which may be any byte.
    Macro {
        /// The code of the command that the macros belong to.
        command: u8,
        /// The macros; there may be none.
        pairs: PairsRef<'a>,
    },
    /// `C`: a client has connected.
    Connect(ClientRef<'a>),
    /// `H`: the client has sent HELO or EHLO, with this name.
    Helo(&'a [u8]),
    /// `M`: the sender of a message.
    Mail(PathRef<'a>),
    /// `R`: a recipient of the message.
    Rcpt(PathRef<'a>),
    /// `T`: the client has sent DATA.
    DataCmd,
    /// `L`: a header field of the message.
    Header(HeaderRef<'a>),
    /// `N`: the header has ended.
    Eoh,
    /// `B`: a chunk of the body, of up to 65,535 bytes of any kind.
    Body(&'a [u8]),
    /// `E`: the message has ended, perhaps with a last chunk of the body.
    Eob(&'a [u8]),
    /// `U`: the client has sent a command that the MTA doesn't know.
    Unknown(&'a [u8]),
    /// `A`: the message is given up; the connection goes on.
    Abort,
    /// `Q`: the connection has ended.
    Quit,
    /// `K`: the client's connection has ended, and another one follows on this stream.
    QuitNew,
}

impl<'a> CommandRef<'a> {
    /// The command that a packet's code and payload encode, borrowed from the payload. The fault is `UnknownCode(code)`
    /// where no command has the code, and `Malformed(code)` where one has it and the payload isn't in its layout.
    /// Doesn't allocate. Source: mfdef.h, and the layouts that libmilter reads.
    pub fn decode(code: u8, payload: &'a [u8]) -> Result<CommandRef<'a>, WireFault>
        ensures { map_ok command_of result ≡ frame_command (record { code = code; payload = payload.now }) }
    {
        match CommandRef::of_payload(code, payload) {
            Some(command) => Ok(command),
            None => Err(fault_of(code)),
        }
    }

    /// The command of this code and payload, where it is in its layout.
    #[tactic(auto, unfolding(crate::specs::Command::command_in))]
    fn of_payload(code: u8, payload: &'a [u8]) -> Option<CommandRef<'a>>
        ensures { option_map command_of result ≡ command_in code payload.now }
    {
        match code {
            SMFIC_HEADER => Some(CommandRef::Header(HeaderRef::of_payload(payload)?)),
            SMFIC_BODY => Some(CommandRef::Body(payload)),
            SMFIC_RCPT => Some(CommandRef::Rcpt(PathRef::of_payload(payload)?)),
            SMFIC_MACRO => macro_of(payload),
            SMFIC_BODYEOB => Some(CommandRef::Eob(payload)),
            SMFIC_MAIL => Some(CommandRef::Mail(PathRef::of_payload(payload)?)),
            SMFIC_CONNECT => Some(CommandRef::Connect(ClientRef::of_payload(payload)?)),
            SMFIC_HELO => Some(CommandRef::Helo(one_string(payload)?)),
            SMFIC_UNKNOWN => Some(CommandRef::Unknown(one_string(payload)?)),
            SMFIC_OPTNEG => Some(CommandRef::Options(take_options(payload)?)),
            SMFIC_DATA => payload.is_empty().then_some(CommandRef::DataCmd),
            SMFIC_EOH => payload.is_empty().then_some(CommandRef::Eoh),
            SMFIC_ABORT => payload.is_empty().then_some(CommandRef::Abort),
            SMFIC_QUIT => payload.is_empty().then_some(CommandRef::Quit),
            SMFIC_QUIT_NC => payload.is_empty().then_some(CommandRef::QuitNew),
            _ => None,
        }
    }

    /// A copy of the command.
    pub fn to_command(&self, alloc: Global) -> Result<Command, NoMemory>
        ensures { IfOk result (λ copy. copy ≡ command_of self.now) }
    {
        Ok(match self {
            CommandRef::Options(options) => Command::Options(*options),
            CommandRef::Macro { command, pairs } => Command::Macro {
                command: *command,
                pairs: pairs.to_pairs(alloc)?,
            },
            CommandRef::Connect(client) => Command::Connect(client.to_client(alloc)?),
            CommandRef::Helo(name) => Command::Helo(Text::copy_of(alloc, name)?),
            CommandRef::Mail(sender) => Command::Mail(sender.to_path(alloc)?),
            CommandRef::Rcpt(recipient) => Command::Rcpt(recipient.to_path(alloc)?),
            CommandRef::DataCmd => Command::DataCmd,
            CommandRef::Header(header) => Command::Header(header.to_header(alloc)?),
            CommandRef::Eoh => Command::Eoh,
            CommandRef::Body(bytes) => Command::Body(Text::copy_of(alloc, bytes)?),
            CommandRef::Eob(bytes) => Command::Eob(Text::copy_of(alloc, bytes)?),
            CommandRef::Unknown(text) => Command::Unknown(Text::copy_of(alloc, text)?),
            CommandRef::Abort => Command::Abort,
            CommandRef::Quit => Command::Quit,
            CommandRef::QuitNew => Command::QuitNew,
        })
    }

    /// Whether the command has an encoding, as [`Command::fits`]. Doesn't allocate.
    pub fn fits(&self) -> bool
        ensures { IsTrue result ↔ Fits (command_of self.now) }
    {
        self.fields_fit() && self.payload_len() <= PAYLOAD_MAX
    }

    /// Appends the packet to `out`: four bytes of length, the code, the payload. After `NoMemory`, `out` is as it was.
    /// Source: mfdef.h.
    pub fn encode(&self, _alloc: Global, out: &mut Vec<u8>) -> Result<(), NoMemory>
        requires { Fits (command_of self.now) }
        ensures ok { OnOk result (out.new.items ≡ out.old.items ++ encoding (command_of self.now)) }
        ensures err { OnErr result (out.new.items ≡ out.old.items) }
    {
        let start = out.len();
        let written = self.put(out);
        if written.is_err() {
            out.truncate(start);
        }
        written
    }

    /// The stage that the command is, as [`Command::stage`]. Doesn't allocate.
    pub fn stage(&self) -> Option<Stage>
        ensures { result ≡ stage_of (command_of self.now) }
    {
        match self {
            CommandRef::Connect(_) => Some(Stage::Connect),
            CommandRef::Helo(_) => Some(Stage::Helo),
            CommandRef::Mail(_) => Some(Stage::Mail),
            CommandRef::Rcpt(_) => Some(Stage::Rcpt),
            CommandRef::DataCmd => Some(Stage::DataCmd),
            CommandRef::Header(_) => Some(Stage::Header),
            CommandRef::Eoh => Some(Stage::Eoh),
            CommandRef::Body(_) => Some(Stage::Body),
            CommandRef::Eob(_) => Some(Stage::Eob),
            _ => None,
        }
    }

    /// Whether no string in it has a NUL.
    fn fields_fit(&self) -> bool
        ensures { IsTrue result ↔ FieldsFit (command_of self.now) }
    {
        match self {
            CommandRef::Options(options) => options_fit(options),
            CommandRef::Macro { pairs, .. } => pairs.fit(),
            CommandRef::Connect(client) => client.fits(),
            CommandRef::Helo(text) | CommandRef::Unknown(text) => has_no_nul(text),
            CommandRef::Mail(path) | CommandRef::Rcpt(path) => path.fits(),
            CommandRef::Header(header) => header.fits(),
            _ => true,
        }
    }

    fn put(&self, out: &mut Vec<u8>) -> Result<(), NoMemory>
        requires { Fits (command_of self.now) }
        ensures { PutsBytes (encoding (command_of self.now)) out.old.items out.new.items result }
    {
        put_head(out, self.code(), self.payload_len())?;
        self.put_payload(out)
    }

    fn code(&self) -> u8
        ensures { result ≡ code_of (command_of self.now) }
    {
        match self {
            CommandRef::Options(_) => SMFIC_OPTNEG,
            CommandRef::Macro { .. } => SMFIC_MACRO,
            CommandRef::Connect(_) => SMFIC_CONNECT,
            CommandRef::Helo(_) => SMFIC_HELO,
            CommandRef::Mail(_) => SMFIC_MAIL,
            CommandRef::Rcpt(_) => SMFIC_RCPT,
            CommandRef::DataCmd => SMFIC_DATA,
            CommandRef::Header(_) => SMFIC_HEADER,
            CommandRef::Eoh => SMFIC_EOH,
            CommandRef::Body(_) => SMFIC_BODY,
            CommandRef::Eob(_) => SMFIC_BODYEOB,
            CommandRef::Unknown(_) => SMFIC_UNKNOWN,
            CommandRef::Abort => SMFIC_ABORT,
            CommandRef::Quit => SMFIC_QUIT,
            CommandRef::QuitNew => SMFIC_QUIT_NC,
        }
    }

    /// The number of bytes of the payload, or the greatest `usize`.
    #[tactic(auto, unfolding(milter_fields::specs::Number::number))]
    fn payload_len(&self) -> usize
        ensures { result ≡ min (length (payload_of (command_of self.now))) (2 ^ 64 - 1) }
    {
        match self {
            CommandRef::Options(_) => OPTIONS_LEN,
            CommandRef::Macro { pairs, .. } => pairs.payload_len().saturating_add(1),
            CommandRef::Connect(client) => client.payload_len(),
            CommandRef::Helo(text) | CommandRef::Unknown(text) => string_len(text),
            CommandRef::Mail(path) | CommandRef::Rcpt(path) => path.payload_len(),
            CommandRef::Header(header) => header.payload_len(),
            CommandRef::Body(bytes) | CommandRef::Eob(bytes) => bytes.len(),
            _ => 0,
        }
    }

    fn put_payload(&self, out: &mut Vec<u8>) -> Result<(), NoMemory>
        ensures { PutsBytes (payload_of (command_of self.now)) out.old.items out.new.items result }
    {
        match self {
            CommandRef::Options(options) => put_options(out, options),
            CommandRef::Macro { command, pairs } => put_macro(out, *command, pairs),
            CommandRef::Connect(client) => client.put(out),
            CommandRef::Helo(text) | CommandRef::Unknown(text) => put_string(out, text),
            CommandRef::Mail(path) | CommandRef::Rcpt(path) => path.put(out),
            CommandRef::Header(header) => header.put(out),
            CommandRef::Body(bytes) | CommandRef::Eob(bytes) => put_bytes(out, bytes),
            _ => Ok(()),
        }
    }
}

/// Appends the byte of the command and the macros.
fn put_macro(out: &mut Vec<u8>, command: u8, pairs: &PairsRef<'_>) -> Result<(), NoMemory>
    ensures { PutsBytes (command ∷ flat_map pair pairs.now) out.old.items out.new.items result }
{
    out.push(command)?;
    pairs.put(out)
}

/// The macros that these bytes encode, all of the bytes, and the code before them.
#[tactic(auto, unfolding(milter_fields::specs::Decoders::macro_in))]
fn macro_of(bytes: &[u8]) -> Option<CommandRef<'_>>
    ensures { option_map command_of result ≡ option_map (λ m. commands.Macro m.0 m.1) (macro_in bytes.now) }
{
    let [command, rest @ ..] = bytes else {
        return None;
    };
    let pairs = PairsRef::of_payload(rest)?;
    Some(CommandRef::Macro {
        command: *command,
        pairs,
    })
}

/// The fault of a packet with this code whose payload is no command's.
#[tactic(auto, unfolding(crate::specs::Command::is_code))]
fn fault_of(code: u8) -> WireFault
    ensures { result ≡ if is_code code then faults.Malformed code else faults.UnknownCode code }
{
    match code {
        SMFIC_ABORT
        | SMFIC_BODY
        | SMFIC_CONNECT
        | SMFIC_MACRO
        | SMFIC_BODYEOB
        | SMFIC_HELO
        | SMFIC_QUIT_NC
        | SMFIC_HEADER
        | SMFIC_MAIL
        | SMFIC_EOH
        | SMFIC_OPTNEG
        | SMFIC_QUIT
        | SMFIC_RCPT
        | SMFIC_DATA
        | SMFIC_UNKNOWN => WireFault::Malformed(code),
        _ => WireFault::UnknownCode(code),
    }
}
