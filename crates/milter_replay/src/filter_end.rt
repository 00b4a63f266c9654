//! One command to a filter, and what it replies.

ghost use Rattle.std.specs.Prelude.{◌≡◌, None, [], OnOk};
ghost use Rattle.milter_wire.specs.Command.{Fits, encoding};
ghost use Rattle.milter_text.specs.WrittenText.{WritesText};
ghost use Rattle.milter_replay.specs.Sending.{Sends, is_due};

use crate::conversation::ReplyPacket;
use crate::packets::keep_replies;
use milter_mta_connection::{ExpectedReply, MtaChannel};
use milter_mta_outcome::Loss;
use milter_text::write_text;
use milter_wire::{Command, CommandRef, Negotiated, NoMemory, Options, Splitter, read_buffer};
use std::alloc::Global;
use std::io::{ErrorKind, Read, Write};

/// Queues a command on a channel on which nothing is pending: the reply to an offer are options, and to another command
/// what was negotiated says.
pub(crate) fn queue_command(channel: &mut MtaChannel, command: &Command) -> Result<(), NoMemory>
    requires fits { Fits command.now }
    requires idle { channel.old.pending ≡ [] }
    ensures { OnOk result (channel.new.pending ≡ encoding command.now) }
{
    let command = command.as_ref();
    match command {
        CommandRef::Options(_) => channel.queue_expecting(&command, ExpectedReply::Options),
        _ => channel.queue(&command),
    }
}

/// The most reads for one answer.
const READS_MAX: u32 = 1_073_741_824;

/// A mail server's end of a connection to a filter.
#[derive(Drop)]
pub(crate) struct FilterEnd {
    alloc: Global,
    channel: MtaChannel,
    splitter: Splitter,
    // Room for what is read at once.
    room: Vec<u8>,
}

/// What came of a command.
#[derive(Drop)]
pub(crate) struct Answer {
    /// Whether the command was sent, at least a part of it.
    pub(crate) is_sent: bool,
    /// The packets that came, in order, but for progress.
    pub(crate) replies: Vec<ReplyPacket>,
    /// Why the filter was lost, if it was.
    pub(crate) loss: Option<Loss>,
}

/// Whether a command is sent after the offer: a filter may leave stages out, and nothing else. None is sent where
/// nothing was negotiated.
pub(crate) fn is_due(negotiated: &Option<Negotiated>, command: &Command) -> bool
    ensures { result ≡ is_due negotiated.now command.now }
{
    match (negotiated, command.stage()) {
        (Some(negotiated), Some(stage)) => negotiated.is_sent(stage),
        (Some(_), None) => true,
        (None, _) => false,
    }
}

impl FilterEnd {
    /// An end of a connection on which nothing was sent.
    pub(crate) fn new(alloc: Global, offer: Options) -> Result<FilterEnd, NoMemory> {
        Ok(FilterEnd {
            alloc,
            channel: MtaChannel::new(alloc, offer),
            splitter: Splitter::new(alloc),
            room: read_buffer(alloc)?,
        })
    }

    /// A copy of what was negotiated, once the filter replied to the offer.
    pub(crate) fn negotiated(&self) -> Result<Option<Negotiated>, NoMemory> {
        match self.channel.negotiated() {
            Some(negotiated) => Ok(Some(negotiated.clone()?)),
            None => Ok(None),
        }
    }

    /// What came of a command that was not sent. Doesn't allocate.
    pub(crate) fn unasked(&self) -> Answer
        ensures { result.loss ≡ None }
    {
        Answer {
            is_sent: false,
            replies: Vec::new(self.alloc),
            loss: None,
        }
    }

    /// Sends a command, and takes the replies to it, where some are due.
    pub(crate) fn ask<R: Read, L: Write>(
        &mut self,
        command: &Command,
        reader: &mut R,
        link: &mut L,
    ) -> Answer
        requires { Fits command.now }
        ensures { Sends (encoding command.now) (L.contents link.old) (L.contents link.new) result.loss }
    {
        let mut replies = Vec::new(self.alloc);
        let loss = match self.send(command, link) {
            Ok(()) => self.receive(reader, &mut replies),
            Err(loss) => Some(loss),
        };
        Answer {
            is_sent: true,
            replies,
            loss,
        }
    }

    /// Sends a command. What is left of the answer before is forgotten.
    fn send<L: Write>(&mut self, command: &Command, link: &mut L) -> Result<(), Loss>
        requires { Fits command.now }
        ensures { WritesText (encoding command.now) (L.contents link.old) (L.contents link.new) result }
    {
        self.channel.clear();
        if queue_command(&mut self.channel, command).is_err() {
            return Err(Loss::Memory);
        }
        let written = write_text(link, self.channel.pending());
        let count = self.channel.pending().len();
        self.channel.sent(count);
        match written {
            Ok(()) => Ok(()),
            Err(_) => Err(Loss::Reset),
        }
    }

    /// Takes replies until the last one that is due. The result is the loss, if the filter was lost before it.
    fn receive<R: Read>(&mut self, reader: &mut R, replies: &mut Vec<ReplyPacket>) -> Option<Loss> {
        for _ in 0..READS_MAX {
            if self.channel.expected() == ExpectedReply::Nothing {
                return None;
            }
            if let Err(loss) = self.receive_piece(reader, replies) {
                return Some(loss);
            }
        }
        Some(Loss::Timeout)
    }

    /// Takes a piece of what the filter sends. A read that was interrupted gives nothing.
    fn receive_piece<R: Read>(
        &mut self,
        reader: &mut R,
        replies: &mut Vec<ReplyPacket>,
    ) -> Result<(), Loss> {
        let count = match reader.read(self.room.as_mut_slice()) {
            Ok(0) => return Err(Loss::Reset),
            Ok(count) => count,
            Err(error) => return failed_read(error.kind()),
        };
        let piece = &self.room[..count];
        if keep_replies(self.alloc, &mut self.splitter, piece, replies).is_err() {
            return Err(Loss::Memory);
        }
        match self.channel.feed(piece).loss {
            Some(loss) => Err(loss),
            None => Ok(()),
        }
    }
}

/// What a failed read means.
fn failed_read(kind: ErrorKind) -> Result<(), Loss> {
    match kind {
        ErrorKind::Interrupted => Ok(()),
        ErrorKind::WouldBlock | ErrorKind::TimedOut => Err(Loss::Timeout),
        _ => Err(Loss::Reset),
    }
}
