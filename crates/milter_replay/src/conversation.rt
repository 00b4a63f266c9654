//! A recorded conversation.

use milter_wire::{Command, Options};

/// A packet from the filter to the mail server.
#[derive(Debug, Drop)]
pub struct ReplyPacket {
    /// Its code.
    pub code: u8,
    /// What follows the code, up to 65,535 bytes.
    pub payload: Vec<u8>,
    /// Its line, with the LF, as `milter_tool trace` prints it.
    pub text: Vec<u8>,
}

/// A command of the mail server, as it was recorded.
#[derive(Debug, Drop)]
pub struct RecordedCommand {
    /// The number of the line of the trace in which its packet becomes whole, from 1.
    pub line: u64,
    /// The command.
    pub command: Command,
    /// Its line, with the LF, as `milter_tool trace` prints it.
    pub text: Vec<u8>,
}

/// A command, and the packets of the filter that answer it, but for progress. A packet that answers none, since no
/// reply was due by what was negotiated in the recording, is with the last command before it.
#[derive(Debug, Drop)]
pub struct Exchange {
    /// The command.
    pub recorded: RecordedCommand,
    /// The packets of the filter, in order.
    pub replies: Vec<ReplyPacket>,
}

/// A conversation over one connection, as it was recorded: the offer, and what follows it.
#[derive(Debug, Drop)]
pub struct Recording {
    /// What the mail server offers.
    pub offer: Options,
    /// The exchanges in order, of which the first has the offer as its command.
    pub exchanges: Vec<Exchange>,
}
