//! Which command each packet of a recorded filter answers.

ghost use Rattle.std.specs.Prelude.{◌≡◌};
ghost use Rattle.milter_fields.specs.Packet.{IsPayload};
ghost use Rattle.milter_wire.specs.Command.{Fits};
ghost use Rattle.milter_replay.specs.Recordings.{AllFit};

use crate::conversation::Exchange;
use crate::filter_end::queue_command;
use milter_fields::put_head;
use milter_mta_connection::{ExpectedReply, MtaChannel};
use milter_wire::codes::SMFIR_REPLYCODE;
use milter_wire::{Command, NoMemory, Options, Packet, Verdict};
use std::alloc::Global;

/// The commands of a recording in their order, up to the first to which a reply is still due by what was negotiated in
/// the recording.
#[derive(Drop)]
pub(crate) struct RecordedAnswers {
    alloc: Global,
    // What was negotiated, and the reply that is due to the last command that was queued. Nothing is sent on it.
    channel: MtaChannel,
    // How many commands were queued.
    queued: usize,
}

impl RecordedAnswers {
    /// Before the first command, which makes this offer. Doesn't allocate.
    pub(crate) fn new(alloc: Global, offer: Options) -> RecordedAnswers {
        RecordedAnswers {
            alloc,
            channel: MtaChannel::new(alloc, offer),
            queued: 0,
        }
    }

    /// The offer. Doesn't allocate.
    pub(crate) fn offer(&self) -> Options {
        self.channel.offer()
    }

    /// The index of the exchange to which the next packet of the filter belongs: the first one to whose command a reply
    /// is still due, or the last one where none is.
    pub(crate) fn answered(&mut self, exchanges: &[Exchange]) -> Result<usize, NoMemory>
        requires { AllFit exchanges.now }
    {
        while self.queued < exchanges.len() && self.channel.expected() == ExpectedReply::Nothing {
            let command = &exchanges[self.queued].recorded.command;
            self.queued += 1;
            self.queue(command)?;
        }
        Ok(self.queued.saturating_sub(1))
    }

    /// Queues a command, where no reply is due to one before it.
    fn queue(&mut self, command: &Command) -> Result<(), NoMemory>
        requires { Fits command.now }
        ensures { self.new.queued ≡ self.old.queued }
    {
        self.channel.clear();
        queue_command(&mut self.channel, command)?;
        let count = self.channel.pending().len();
        self.channel.sent(count);
        Ok(())
    }

    /// Notes a packet of the filter: no more is due to the command that it answers, unless it is an edit or progress.
    pub(crate) fn note(&mut self, packet: &Packet<'_>) -> Result<(), NoMemory>
        requires { IsPayload packet.now.payload.now }
    {
        match self.channel.expected() {
            ExpectedReply::Nothing => Ok(()),
            ExpectedReply::Options => self.negotiate(packet),
            ExpectedReply::Verdict(_) | ExpectedReply::Unknown => {
                if is_verdict(packet) {
                    self.channel.clear();
                }
                Ok(())
            }
        }
    }

    /// Takes the reply to the offer. Where it is none that a mail server takes, nothing is negotiated.
    fn negotiate(&mut self, packet: &Packet<'_>) -> Result<(), NoMemory>
        requires { IsPayload packet.now.payload.now }
    {
        let mut bytes = Vec::new(self.alloc);
        put_head(&mut bytes, packet.code, packet.payload.len())?;
        bytes.extend_from_slice(packet.payload)?;
        let _ = self.channel.feed(bytes.as_slice());
        Ok(())
    }
}

/// Whether a packet of a filter is a verdict.
fn is_verdict(packet: &Packet<'_>) -> bool {
    packet.code == SMFIR_REPLYCODE || Verdict::of_packet(packet.code, packet.payload).is_some()
}
