//! The exchanges of a trace, packet by packet.

ghost use Rattle.std.specs.Prelude.{◌≡◌, ◌++◌, [], IfOk, OnOk};
ghost use Rattle.milter_fields.specs.Packet.{IsPayload};
ghost use Rattle.milter_fields.specs.Splitter.{frame_of};
ghost use Rattle.milter_fields.specs.Stream.{frame_bytes};
ghost use Rattle.milter_wire.specs.Command.{Fits, encoding};
ghost use Rattle.milter_trace.specs.declared.direction.Direction.TheVariants.{ToFilter};
ghost use Rattle.milter_trace.specs.Trace.{bytes_if};
ghost use Rattle.milter_replay.specs.Recordings.{AllFit, commands_bytes};
ghost use Rattle.milter_replay.specs.ReadExchanges.{HasFitting, read_bytes};

use crate::conversation::{Exchange, RecordedCommand, Recording, ReplyPacket};
use crate::packets::reply_of;
use crate::recorded_answers::RecordedAnswers;
use crate::recording_fault::RecordingFault;
use milter_trace::{Direction, packet_fault, put_packet};
use milter_wire::{Command, NoMemory, Packet, WireFault};
use std::alloc::Global;

/// The exchanges that were read.
#[derive(Drop)]
pub(crate) struct ExchangeReader {
    pub(crate) alloc: Global,
    /// Which command the filter answers, once the mail server's offer was read.
    pub(crate) answers: Option<RecordedAnswers>,
    /// The exchanges, of which the last one has the last command.
    pub(crate) exchanges: Vec<Exchange>,
}

impl ExchangeReader {
    ghost use Rattle.milter_replay.specs.ReadExchanges.{HasFitting, read_bytes};

    /// Before the first packet. Doesn't allocate.
    pub(crate) fn new(alloc: Global) -> ExchangeReader
        ensures fitting { HasFitting result }
        ensures bytes { read_bytes result ≡ [] }
    {
        ExchangeReader {
            alloc,
            answers: None,
            exchanges: Vec::new(alloc),
        }
    }

    /// Takes a packet, which became whole in the line with this number.
    pub(crate) fn on_packet(
        &mut self,
        line: u64,
        direction: Direction,
        packet: &Packet<'_>,
    ) -> Result<(), RecordingFault>
        requires payload { IsPayload packet.now.payload.now }
        requires fitting { HasFitting self.old }
        ensures fitting { OnOk result (HasFitting self.new) }
        ensures bytes { OnOk result (read_bytes self.new
            ≡ read_bytes self.old ++ bytes_if ToFilter direction (frame_bytes (frame_of packet.now))) }
    {
        match direction {
            Direction::ToFilter => self.on_command(line, packet),
            Direction::ToMta => self.on_reply(line, packet),
        }
    }

    /// Takes a packet of the filter.
    fn on_reply(&mut self, line: u64, packet: &Packet<'_>) -> Result<(), RecordingFault>
        requires payload { IsPayload packet.now.payload.now }
        requires fitting { HasFitting self.old }
        ensures fitting { OnOk result (HasFitting self.new) }
        ensures bytes { OnOk result (read_bytes self.new ≡ read_bytes self.old) }
    {
        let reply = match reply_of(self.alloc, packet) {
            Ok(reply) => reply,
            Err(fault) => return Err(fault_of(line, Direction::ToMta, fault)),
        };
        let Some(answers) = &mut self.answers else {
            return Err(RecordingFault::NoOffer(line));
        };
        let Some(reply) = reply else {
            return Ok(());
        };
        let place = answers.answered(self.exchanges.as_slice())?;
        answers.note(packet)?;
        Ok(self.push_reply(place, reply)?)
    }

    /// Puts a packet of the filter to the exchange with this index.
    fn push_reply(&mut self, place: usize, reply: ReplyPacket) -> Result<(), NoMemory>
        requires { HasFitting self.old }
        ensures fitting { OnOk result (HasFitting self.new) }
        ensures bytes { OnOk result (read_bytes self.new ≡ read_bytes self.old) }
    {
        if let Some(exchange) = self.exchanges.get_mut(place) {
            exchange.replies.push(reply)?;
        }
        Ok(())
    }

    /// Takes a packet of the mail server.
    fn on_command(&mut self, line: u64, packet: &Packet<'_>) -> Result<(), RecordingFault>
        requires payload { IsPayload packet.now.payload.now }
        requires fitting { HasFitting self.old }
        ensures fitting { OnOk result (HasFitting self.new) }
        ensures bytes { OnOk result (read_bytes self.new ≡ read_bytes self.old ++ frame_bytes (frame_of packet.now)) }
    {
        let recorded = match recorded_of(self.alloc, line, packet) {
            Ok(recorded) => recorded,
            Err(fault) => return Err(fault_of(line, Direction::ToFilter, fault)),
        };
        match (&self.answers, &recorded.command) {
            (None, Command::Options(offer)) => {
                self.answers = Some(RecordedAnswers::new(self.alloc, *offer));
            }
            (None, _) => return Err(RecordingFault::NoOffer(line)),
            (Some(_), Command::Options(_)) => return Err(RecordingFault::SecondOffer(line)),
            (Some(_), _) => {}
        }
        Ok(self.begin(recorded)?)
    }

    /// Begins the exchange of the next command.
    fn begin(&mut self, recorded: RecordedCommand) -> Result<(), NoMemory>
        requires fits { Fits recorded.command }
        requires fitting { HasFitting self.old }
        ensures fitting { OnOk result (HasFitting self.new) }
        ensures bytes { OnOk result (read_bytes self.new ≡ read_bytes self.old ++ encoding recorded.command) }
    {
        let replies = Vec::new(self.alloc);
        self.exchanges.push(Exchange { recorded, replies })?;
        Ok(())
    }

    /// The conversation, at the end of a trace whose last line has this number.
    pub(crate) fn into_recording(self, line: u64) -> Result<Recording, RecordingFault>
        requires { HasFitting self }
        ensures fitting { IfOk result (λ recording. AllFit recording.exchanges.items) }
        ensures commands { IfOk result (λ recording. commands_bytes recording.exchanges.items ≡ read_bytes self) }
    {
        let ExchangeReader {
            alloc: _,
            answers,
            exchanges,
        } = self;
        match answers {
            Some(answers) => Ok(Recording {
                offer: answers.offer(),
                exchanges,
            }),
            None => Err(RecordingFault::NoOffer(line)),
        }
    }
}

/// The command of a packet, with its line.
fn recorded_of(alloc: Global, line: u64, packet: &Packet<'_>) -> Result<RecordedCommand, WireFault>
    requires { IsPayload packet.now.payload.now }
    ensures fits { IfOk result (λ recorded. Fits recorded.command) }
    ensures bytes { IfOk result (λ recorded. encoding recorded.command ≡ frame_bytes (frame_of packet.now)) }
{
    let mut text = Vec::new(alloc);
    put_packet(alloc, Direction::ToFilter, packet, &mut text)?;
    let command = Command::decode(alloc, packet.code, packet.payload)?;
    Ok(RecordedCommand {
        line,
        command,
        text,
    })
}

/// The fault of a packet that became whole in this line, and can't be read.
fn fault_of(line: u64, direction: Direction, fault: WireFault) -> RecordingFault {
    RecordingFault::Trace(packet_fault(line, direction, fault))
}
