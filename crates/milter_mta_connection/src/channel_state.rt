//! The state of a channel without its bytes: what was negotiated, the reply that is expected, and the edits that came.

ghost use Rattle.std.specs.Prelude.{◌≡◌, ◌<◌, ◌≤◌, [], IfOk, OnErr, OnOk, None, length, true};
ghost use Rattle.milter_fields.specs.Splitter.{frame_of};
ghost use Rattle.milter_fields.specs.Stream.{IsFrame, IsUnfinished};
ghost use Rattle.milter_wire.specs.BorrowedCommand.{command_of};
ghost use Rattle.milter_wire.specs.Frames.{frame_reply};
ghost use Rattle.milter_wire.specs.Reply.{Fits};
ghost use Rattle.milter_wire.specs.Verdicts.{reply_of as carrier};
ghost use Rattle.milter_mta_connection.specs.declared.filter_event.FilterEvent.{FilterEvent as EventValue};
ghost use Rattle.milter_mta_connection.specs.Channel.{expected_at, expected_by, expected_of, is_expecting};
ghost use Rattle.milter_mta_connection.specs.ChannelParts.{Receives, Leaves, LeavesPrefix, channel_of, left_by};
ghost use Rattle.milter_mta_connection.specs.Received.{edits_left, framed, negotiated_on, replied, replied_at, wire_loss};
ghost use Rattle.milter_mta_outcome.specs.ReceivedReplies.{options_received};

use crate::filter_event::{Fed, FilterEvent, latest};
use milter_mta_outcome::{
    Action, Loss, MtaFault, ReceivedEdits, on_options, on_reply, on_verdict, received_replies,
};
use milter_wire::{
    CommandRef, HEAD_LEN, Negotiated, Options, Packet, Protocol, Reply, Splitter, Stage, Verdict,
    WireFault, reply_frames,
};
use std::alloc::Global;

/// What a filter is to reply once all that is pending was sent. Source: mfdef.h, and the layouts that libmilter reads.
#[derive(Clone, Copy, Debug, PartialEq, Eq)]
pub enum ExpectedReply {
    /// Nothing.
    Nothing,
    /// The options, by the offer.
    Options,
    /// A verdict on a command of this stage; at the end of a message its edits and progress before it.
    Verdict(Stage),
    /// A verdict on a command of the client that the mail server doesn't know: one that a recipient may have.
    Unknown,
}

/// What was negotiated with a filter, the reply that is expected of it, and the edits that came.
#[derive(Debug, Drop)]
pub(crate) struct ChannelState {
    pub(crate) alloc: Global,
    pub(crate) offer: Options,
    pub(crate) negotiated: Option<Negotiated>,
    pub(crate) expected: ExpectedReply,
    pub(crate) edits: ReceivedEdits,
}

/// What came of the first bytes of a piece.
#[derive(Debug, Drop)]
pub(crate) struct FedPrefix {
    /// How many they are.
    pub(crate) count: usize,
    /// The event, if a reply is whole with them.
    pub(crate) event: Option<FilterEvent>,
}

/// The loss by a packet that can't be read, or for which memory was refused.
fn loss_of(fault: WireFault) -> Loss
    ensures { result ≡ wire_loss fault }
{
    match fault {
        WireFault::NoMemory => Loss::Memory,
        other => Loss::Fault(MtaFault::Wire(other)),
    }
}

impl ChannelState {
    /// The reply that a command is to get.
    pub(crate) fn expected_of(&self, command: &CommandRef<'_>) -> ExpectedReply
        ensures { result ≡ expected_of self.now.negotiated (command_of command.now) }
    {
        let Some(negotiated) = &self.negotiated else {
            return ExpectedReply::Nothing;
        };
        match command.stage() {
            Some(stage) => expected_at(negotiated, stage),
            None if matches!(command, CommandRef::Unknown(_)) => expected_unknown(negotiated),
            None => ExpectedReply::Nothing,
        }
    }

    /// Whether a reply is expected.
    pub(crate) fn is_expecting(&self) -> bool
        ensures { result ≡ is_expecting self.now.expected }
    {
        match self.expected {
            ExpectedReply::Nothing => false,
            _ => true,
        }
    }

    /// No reply is expected then. Doesn't allocate.
    pub(crate) fn expect_nothing(&mut self)
        ensures { self.new ≡ record self.old { expected = ExpectedReply.Nothing } }
    {
        self.expected = ExpectedReply::Nothing;
    }

    /// Drops the edits. Doesn't allocate.
    pub(crate) fn clear_edits(&mut self)
        ensures { self.new ≡ record self.old { edits = [] } }
    {
        self.edits = ReceivedEdits::new(self.alloc);
    }

    /// Goes on after a loss: no reply is expected, and of the edits those of a verdict are left. Doesn't allocate.
    pub(crate) fn end(&mut self, last: &FilterEvent)
        ensures { self.new ≡ record self.old {
          expected = ExpectedReply.Nothing;
          edits = edits_left last.now self.old.edits;
        } }
    {
        self.expect_nothing();
        if !matches!(last, FilterEvent::Verdict(_)) {
            self.clear_edits();
        }
    }

    /// Takes the reply to the offer.
    fn receive_options(&mut self, reply: Reply) -> Result<FilterEvent, Loss>
        ensures leaves { (before : EventValue) → Leaves before (channel_of self.old [] [])
            (negotiated_on (options_received self.old.offer reply) before (channel_of self.old [] []))
            (channel_of self.new [] []) result }
        ensures kept { OnErr result (self.new ≡ self.old) }
    {
        match on_options(self.offer, reply) {
            Ok(negotiated) => {
                self.negotiated = Some(negotiated);
                self.expected = ExpectedReply::Nothing;
                Ok(FilterEvent::Negotiated)
            }
            Err(fault) => Err(Loss::Fault(fault)),
        }
    }

    /// Takes the reply to a command of this stage.
    fn receive_answer(&mut self, stage: Stage, reply: Reply) -> Result<FilterEvent, Loss>
        requires { Fits reply }
        ensures leaves { (before : EventValue) → Leaves before (channel_of self.old [] [])
            (replied_at self.old.negotiated stage reply before (channel_of self.old [] []))
            (channel_of self.new [] []) result }
        ensures kept { OnErr result (self.new ≡ self.old) }
    {
        received_replies();
        let Some(negotiated) = &self.negotiated else {
            return Err(Loss::Fault(MtaFault::NotAtThisStage));
        };
        match on_reply(negotiated, stage, self.edits.weight(), reply) {
            Ok(Action::Edit(edit)) => match self.edits.push(edit) {
                Ok(()) => Ok(FilterEvent::InProgress),
                Err(_) => Err(Loss::Memory),
            },
            Ok(Action::Verdict(verdict)) => {
                self.expected = ExpectedReply::Nothing;
                Ok(FilterEvent::Verdict(verdict))
            }
            Err(fault) => Err(Loss::Fault(fault)),
        }
    }

    /// Takes a verdict on a command of this stage, as the reply that carries it.
    fn receive_verdict(&mut self, stage: Stage, verdict: Verdict) -> Result<FilterEvent, Loss>
        ensures leaves { (before : EventValue) → Leaves before (channel_of self.old [] [])
            (replied_at self.old.negotiated stage (carrier verdict) before (channel_of self.old [] []))
            (channel_of self.new [] []) result }
        ensures kept { OnErr result (self.new ≡ self.old) }
    {
        let Some(negotiated) = &self.negotiated else {
            return Err(Loss::Fault(MtaFault::NotAtThisStage));
        };
        match on_verdict(negotiated, stage, &verdict) {
            Ok(()) => {
                self.expected = ExpectedReply::Nothing;
                Ok(FilterEvent::Verdict(verdict))
            }
            Err(fault) => Err(Loss::Fault(fault)),
        }
    }

    /// Takes the reply to what was sent.
    fn receive(&mut self, reply: Reply) -> Result<FilterEvent, Loss>
        requires { Fits reply }
        ensures leaves { (before : EventValue) → Leaves before (channel_of self.old [] [])
            (replied self.old.expected reply before (channel_of self.old [] []))
            (channel_of self.new [] []) result }
        ensures kept { OnErr result (self.new ≡ self.old) }
    {
        match self.expected {
            ExpectedReply::Nothing => Err(Loss::Fault(MtaFault::Early)),
            ExpectedReply::Options => self.receive_options(reply),
            ExpectedReply::Verdict(stage) => self.receive_answer(stage, reply),
            ExpectedReply::Unknown => self.receive_answer(Stage::Rcpt, reply),
        }
    }

    /// Takes a packet. After a loss it is as it was.
    fn receive_packet(&mut self, packet: &Packet<'_>) -> Result<FilterEvent, Loss>
        requires { IsFrame (frame_of packet.now) }
        ensures leaves { (before : EventValue) → Leaves before (channel_of self.old [] [])
            (framed (frame_reply (frame_of packet.now)) before (channel_of self.old [] []))
            (channel_of self.new [] []) result }
        ensures kept { OnErr result (self.new ≡ self.old) }
    {
        reply_frames();
        if let ExpectedReply::Verdict(stage) = self.expected {
            if let Some(verdict) = Verdict::of_packet(packet.code, packet.payload) {
                return self.receive_verdict(stage, verdict);
            }
        }
        match Reply::decode(self.alloc, packet.code, packet.payload) {
            Ok(reply) => self.receive(reply),
            Err(fault) => Err(loss_of(fault)),
        }
    }

    /// Takes bytes up to the end of one packet, while a reply is owed. A packet that is whole in the piece is read
    /// where it lies. After a loss it is as it was.
    fn feed_prefix(&mut self, splitter: &mut Splitter, piece: &[u8]) -> Result<FedPrefix, Loss>
        requires expecting { is_expecting self.old.expected ≡ true }
        requires unfinished { IsUnfinished splitter.old }
        requires some { 0 < length piece.now }
        ensures taken { IfOk result (λ prefix. (0 < prefix.count) × (prefix.count ≤ length piece.now)) }
        ensures leaves { (before : EventValue) → LeavesPrefix before (channel_of self.old [] splitter.old) piece.now
            (channel_of self.new [] splitter.new) result }
        ensures unfinished { OnOk result (IsUnfinished splitter.new) }
        ensures kept { OnErr result (self.new ≡ self.old) }
    {
        if splitter.unread() == 0 {
            if let Some(packet) = Packet::first_of(piece) {
                let event = self.receive_packet(&packet)?;
                return Ok(FedPrefix {
                    count: packet.payload.len() + HEAD_LEN,
                    event: Some(event),
                });
            }
        }
        let Ok(count) = splitter.feed(piece) else {
            return Err(Loss::Memory);
        };
        match splitter.next() {
            Ok(None) => Ok(FedPrefix { count, event: None }),
            Ok(Some(packet)) => {
                let event = self.receive_packet(&packet)?;
                Ok(FedPrefix {
                    count,
                    event: Some(event),
                })
            }
            Err(fault) => Err(loss_of(fault)),
        }
    }

    /// Takes a piece, where nothing is pending. After a loss what is left is not known, but for the offer and what was
    /// negotiated.
    pub(crate) fn feed_piece(&mut self, splitter: &mut Splitter, piece: &[u8]) -> Fed
        requires { IsUnfinished splitter.old }
        ensures receives { Receives (channel_of self.old [] splitter.old) piece.now
            (left_by result (channel_of self.new [] splitter.new)) result }
        ensures unfinished { result.loss ≡ None → IsUnfinished splitter.new }
    {
        let mut event = FilterEvent::Nothing;
        let mut taken = 0;
        while taken < piece.len() {
            if !self.is_expecting() {
                let loss = Some(Loss::Fault(MtaFault::Early));
                return Fed { event, loss };
            }
            match self.feed_prefix(splitter, &piece[taken..]) {
                Ok(prefix) => {
                    taken += prefix.count;
                    event = latest(event, prefix.event);
                }
                Err(loss) => {
                    return Fed {
                        event,
                        loss: Some(loss),
                    };
                }
            }
        }
        Fed { event, loss: None }
    }
}

/// The reply that a command of a stage is to get.
fn expected_at(negotiated: &Negotiated, stage: Stage) -> ExpectedReply
    ensures { result ≡ expected_at negotiated.now stage }
{
    if negotiated.is_answered(stage) {
        ExpectedReply::Verdict(stage)
    } else {
        ExpectedReply::Nothing
    }
}

/// The reply that a command which the mail server doesn't know is to get.
fn expected_unknown(negotiated: &Negotiated) -> ExpectedReply
    ensures { result ≡ expected_by negotiated.now None true }
{
    if negotiated.options.protocol.0 & Protocol::NR_UNKN.0 != 0 {
        ExpectedReply::Nothing
    } else {
        ExpectedReply::Unknown
    }
}
