//! A mail server's connection to a filter, fed stage by stage.

ghost use Rattle.std.specs.Prelude.{◌≡◌, ◌≤◌, [], All, IfErr, IfOk, None, OnErr, OnOk, Some, false, length, unwrap_or};
ghost use Rattle.std.specs.Option.{option_copied};
ghost use Rattle.milter_wire.specs.declared.command.Command.TheVariants as commands;
ghost use Rattle.milter_wire.specs.BorrowedCommand.{command_of};
ghost use Rattle.milter_wire.specs.Reply.{Fits as ReplyFits};
ghost use Rattle.milter_wire.specs.Stages.{macro_command_of};
ghost use Rattle.milter_fields.specs.Borrowed.{client_of, header_of, path_of};
ghost use Rattle.milter_message.specs.EditReplies.{reply_of};
ghost use Rattle.milter_message.specs.EditedMessage.{edited_message};
ghost use Rattle.milter_mta_connection.specs.Channel.{sent, without_edits};
ghost use Rattle.milter_mta_connection.specs.ChannelParts.{Receives};
ghost use Rattle.milter_mta_connection.specs.Connection.{CallLeaves, CanBeQueued, CommandLeaves, FitPackets, QueuesSome, UnknownLeaves, after_abort, after_command, after_event, after_fed, after_quit, after_verdict, any_fault, closed_by, fault_at, fresh, has_leading_space_in, header_command, is_left_out, is_under_way, lost, outcome_of, pairs_for, want, with_command};

use crate::call_outcome::{CallFault, CallOutcome};
use crate::channel_state::ExpectedReply;
use crate::filter_event::{Fed, FilterEvent};
use crate::mta_channel::MtaChannel;
use crate::packets::{packets_fit, queue_abort, queue_abort_before, queue_packets, queue_quit};
use crate::phase::{Phase, rank_aborted, rank_after, rank_after_verdict};
use milter_mail::pairs_asked_for;
use milter_message::{Edit, Held, Message, apply, sent_header};
use milter_protocol::{Edits, is_final_at};
use milter_wire::codes::SMFIC_UNKNOWN;
use milter_wire::{
    ClientRef, CommandRef, HeaderRef, Negotiated, NoMemory, Options, Pair, Pairs, PathRef, Stage,
    Verdict,
};
use std::alloc::Global;
use std::marker::Model;

/// What is to be done next on a connection.
#[derive(Clone, Copy, Debug, PartialEq, Eq)]
pub enum Want {
    /// Write what is pending.
    Send,
    /// Read what the filter sends.
    Receive,
    /// Call with the client's next command, once there is one.
    Command,
    /// Nothing: the connection has ended, or the filter was lost.
    Nothing,
}

/// A mail server's connection to a filter. The mail server calls it with what its client does, stage by stage, and has
/// the filter's verdicts from [`MtaConnection::feed`]. It neither reads nor writes: [`MtaConnection::want`] says what
/// is to be done next.
///
/// Each call for a command gives the macros that the mail server has for it. Those that the filter asked for by a
/// symbol list are sent before the command, or all of them where it has no list of the stage. A refused call changes
/// nothing. A message may have any size; its edits have at most 16,777,216 bytes. Source: the libmilter callback
/// documentation.
#[derive(Debug, Drop)]
pub struct MtaConnection {
    alloc: Global,
    channel: MtaChannel,
    phase: Phase,
    last_rank: u8,
}

impl Model for MtaConnection {
    ghost use Rattle.milter_mta_connection.specs.Connection.{Connection};

    ghost Value = { Connection };

    ghost view = { λ c. record { channel = c.channel; phase = c.phase; last_rank = c.last_rank } };
}

impl MtaConnection {
    /// A connection that was just made: the offer is pending. Allocates the few bytes of its packet.
    pub fn new(alloc: Global, offer: Options) -> Result<Self, NoMemory>
        ensures { IfOk result (λ c. c ≡ fresh offer) }
    {
        let mut channel = MtaChannel::new(alloc, offer);
        channel.queue_offer()?;
        Ok(MtaConnection {
            alloc,
            channel,
            phase: Phase::NoMessage,
            last_rank: 0,
        })
    }

    /// What was negotiated, once the filter replied to the offer; its symbol lists name the macros that it asks for.
    /// Doesn't allocate.
    pub fn negotiated(&self) -> Option<&Negotiated>
        ensures { option_copied result ≡ self.now.channel.negotiated }
    {
        self.channel.negotiated()
    }

    /// Where the connection is, in the order of commands. Doesn't allocate.
    pub fn phase(&self) -> Phase
        ensures { result ≡ self.now.phase }
    {
        self.phase
    }

    /// What is to be done next. Doesn't allocate.
    pub fn want(&self) -> Want
        ensures { result ≡ want self.now }
    {
        if !self.channel.pending().is_empty() {
            return Want::Send;
        }
        match (self.channel.expected(), self.phase) {
            (ExpectedReply::Nothing, Phase::Closed) => Want::Nothing,
            (ExpectedReply::Nothing, _) => Want::Command,
            _ => Want::Receive,
        }
    }

    /// The bytes that wait to be sent. Doesn't allocate.
    pub fn pending(&self) -> &[u8]
        ensures { result.now ≡ self.now.channel.pending }
    {
        self.channel.pending()
    }

    /// Notes that the first `count` bytes of what is pending were sent. Doesn't allocate.
    pub fn sent(&mut self, count: usize)
        requires { count ≤ length self.old.channel.pending }
        ensures { self.new ≡ record self.old { channel = sent count self.old.channel } }
    {
        self.channel.sent(count);
    }

    /// Takes a piece of what the filter sent, all of it. A verdict comes only after all that is pending was sent. With
    /// a loss the connection is closed; the event came before it. A packet that the end of the piece cuts is kept in
    /// the room for one packet, 65,540 bytes, which is allocated then, where there is none.
    pub fn feed(&mut self, piece: &[u8]) -> Fed
        ensures receives { Receives self.old.channel piece.now self.new.channel result }
        ensures goes_on { self.new ≡ after_fed result self.new.channel self.old }
    {
        let expected = self.channel.expected();
        let fed = self.channel.feed(piece);
        self.on_event(expected, &fed.event);
        if fed.loss.is_some() {
            self.phase = Phase::Closed;
        }
        fed
    }

    /// Goes on by an event, where this reply was expected.
    fn on_event(&mut self, expected: ExpectedReply, event: &FilterEvent)
        ensures { self.new ≡ after_event expected event.now self.old }
    {
        match (expected, event) {
            (ExpectedReply::Verdict(stage), FilterEvent::Verdict(verdict)) => {
                self.on_verdict(stage, verdict);
            }
            (ExpectedReply::Unknown, FilterEvent::Verdict(verdict)) => {
                if is_final_at(Stage::Rcpt, verdict) && self.phase.is_under_way() {
                    self.phase = Phase::MessageOver;
                }
            }
            _ => {}
        }
    }

    /// Goes on by a verdict.
    fn on_verdict(&mut self, stage: Stage, verdict: &Verdict)
        ensures { self.new ≡ after_verdict stage verdict.now self.old }
    {
        self.last_rank = rank_after_verdict(stage, verdict, self.last_rank);
        self.phase = self.phase.after_verdict(stage, verdict);
    }

    /// The edits of the answer to the end of a message, as they came, until the next call that isn't refused. Each fits
    /// a packet, so that a message can be changed by [`apply`]. Doesn't allocate.
    pub fn edits(&self) -> &[Edit]
        ensures edits { result.now ≡ self.now.channel.edits }
        ensures fit { All (λ edit. ReplyFits (reply_of edit)) result.now }
    {
        self.channel.edits()
    }

    /// Takes these edits; there are none then. Doesn't allocate.
    pub fn take_edits(&mut self) -> Edits
        ensures edits { result ≡ self.old.channel.edits }
        ensures fit { All (λ edit. ReplyFits (reply_of edit)) result }
        ensures left { self.new ≡ record self.old { channel = without_edits self.old.channel } }
    {
        self.channel.take_edits()
    }

    /// A copy of the message after these edits. Source: the libmilter callback documentation (message modification
    /// functions).
    pub fn edited(&self, message: &Message) -> Result<Held, NoMemory>
        ensures { IfOk result (λ held. held ≡ edited_message (has_leading_space_in self.now.channel.negotiated)
            message.now self.now.channel.edits) }
    {
        apply(self.alloc, message, self.edits(), self.has_leading_space())
    }

    /// Frees the room for one packet where no byte of a packet is unread, as on a connection that is idle; else it does
    /// nothing. Doesn't allocate.
    pub fn release(&mut self)
        ensures { self.new ≡ self.old }
    {
        self.channel.release();
    }

    /// The filter is lost: nothing is pending, and every call is refused. Doesn't allocate.
    pub fn lost(&mut self)
        ensures { self.new ≡ lost self.old }
    {
        self.channel.clear();
        self.phase = Phase::Closed;
    }

    /// Whether a message is under way that no verdict ended: where the filter is lost, the default action settles it.
    /// Ask before [`MtaConnection::lost`] and [`MtaConnection::feed`]. Doesn't allocate.
    pub fn is_message_under_way(&self) -> bool
        ensures { result ≡ is_under_way self.now.phase }
    {
        self.phase.is_under_way()
    }

    // ---- calls for commands

    /// A client has connected.
    pub fn connect(
        &mut self,
        client: ClientRef<'_>,
        macros: &[Pair],
    ) -> Result<CallOutcome, CallFault>
        ensures { CommandLeaves Stage.Connect (commands.Connect (client_of client.entry)) macros.now
            self.old self.new result }
    {
        self.call(Stage::Connect, &CommandRef::Connect(client), macros)
    }

    /// The client has sent HELO or EHLO, with this name.
    pub fn helo(&mut self, name: &[u8], macros: &[Pair]) -> Result<CallOutcome, CallFault>
        ensures { CommandLeaves Stage.Helo (commands.Helo name.now) macros.now self.old self.new result }
    {
        self.call(Stage::Helo, &CommandRef::Helo(name), macros)
    }

    /// The sender of a message. Where the dialogue about the last one ended early, an abort comes before it.
    pub fn mail(&mut self, sender: PathRef<'_>, macros: &[Pair]) -> Result<CallOutcome, CallFault>
        ensures { CommandLeaves Stage.Mail (commands.Mail (path_of sender.entry)) macros.now self.old self.new result }
    {
        self.call(Stage::Mail, &CommandRef::Mail(sender), macros)
    }

    /// A recipient of the message.
    pub fn rcpt(
        &mut self,
        recipient: PathRef<'_>,
        macros: &[Pair],
    ) -> Result<CallOutcome, CallFault>
        ensures { CommandLeaves Stage.Rcpt (commands.Rcpt (path_of recipient.entry)) macros.now
            self.old self.new result }
    {
        self.call(Stage::Rcpt, &CommandRef::Rcpt(recipient), macros)
    }

    /// The client has sent DATA.
    pub fn data(&mut self, macros: &[Pair]) -> Result<CallOutcome, CallFault>
        ensures { CommandLeaves Stage.DataCmd commands.DataCmd macros.now self.old self.new result }
    {
        self.call(Stage::DataCmd, &CommandRef::DataCmd, macros)
    }

    /// A header field of the message, with the blank that its value begins with.
    pub fn header(&mut self, header: HeaderRef<'_>) -> Result<CallOutcome, CallFault>
        ensures { CommandLeaves Stage.Header (header_command self.old (header_of header.entry)) []
            self.old self.new result }
    {
        let header = sent_header(header, self.has_leading_space());
        self.call(Stage::Header, &CommandRef::Header(header), &[])
    }

    /// The header has ended.
    pub fn eoh(&mut self, macros: &[Pair]) -> Result<CallOutcome, CallFault>
        ensures { CommandLeaves Stage.Eoh commands.Eoh macros.now self.old self.new result }
    {
        self.call(Stage::Eoh, &CommandRef::Eoh, macros)
    }

    /// A chunk of the body, of at most 65,535 bytes.
    pub fn body(&mut self, chunk: &[u8]) -> Result<CallOutcome, CallFault>
        ensures { CommandLeaves Stage.Body (commands.Body chunk.now) [] self.old self.new result }
    {
        self.call(Stage::Body, &CommandRef::Body(chunk), &[])
    }

    /// The message has ended.
    pub fn end(&mut self, macros: &[Pair]) -> Result<CallOutcome, CallFault>
        ensures { CommandLeaves Stage.Eob (commands.Eob []) macros.now self.old self.new result }
    {
        self.call(Stage::Eob, &CommandRef::Eob(&[]), macros)
    }

    /// A command of the client that the mail server doesn't know, at any stage. All macros are sent, as no symbol list
    /// is of it. A verdict that refuses is of this command alone; Accept and Discard end a message that is under way.
    pub fn unknown(&mut self, command: &[u8], macros: &[Pair]) -> Result<CallOutcome, CallFault>
        ensures { UnknownLeaves command.now macros.now self.old self.new result }
    {
        self.check()?;
        if self.phase.leaves_unknown_out(self.channel.negotiated()) {
            self.channel.clear_edits();
            return Ok(CallOutcome::LeftOut);
        }
        let command = CommandRef::Unknown(command);
        if !packets_fit(Some(SMFIC_UNKNOWN), &command, macros) {
            return Err(CallFault::DoesNotFit);
        }
        if queue_packets(&mut self.channel, Some(SMFIC_UNKNOWN), &command, macros).is_err() {
            self.channel.discard_pending();
            return Err(CallFault::NoMemory);
        }
        self.channel.clear_edits();
        Ok(self.outcome())
    }

    /// The message is given up, and the connection goes on. Left out where no message is under way.
    pub fn abort(&mut self) -> Result<CallOutcome, CallFault>
        ensures { CallLeaves (any_fault self.old) Unit (after_abort self.old) self.old self.new result }
    {
        self.check()?;
        if queue_abort(&mut self.channel, self.phase).is_err() {
            return Err(CallFault::NoMemory);
        }
        self.channel.clear_edits();
        self.last_rank = rank_aborted(self.phase, self.last_rank);
        self.phase = self.phase.after_abort();
        Ok(self.outcome())
    }

    /// The client has ended the connection; a message that is under way is given up.
    pub fn quit(&mut self) -> Result<CallOutcome, CallFault>
        ensures { CallLeaves (any_fault self.old) Unit (after_quit self.old) self.old self.new result }
    {
        self.check()?;
        if queue_quit(&mut self.channel, self.phase).is_err() {
            self.channel.discard_pending();
            return Err(CallFault::NoMemory);
        }
        self.channel.clear_edits();
        self.phase = Phase::Closed;
        Ok(self.outcome())
    }

    // ---- what a call does

    /// Whether values of header fields are sent with the blank that they begin with.
    fn has_leading_space(&self) -> bool
        ensures { result ≡ has_leading_space_in self.now.channel.negotiated }
    {
        match self.channel.negotiated() {
            Some(negotiated) => negotiated.has_leading_space(),
            None => false,
        }
    }

    /// What came of a call, by what it queued.
    fn outcome(&self) -> CallOutcome
        ensures { result ≡ outcome_of self.now.channel }
    {
        if self.channel.pending().is_empty() {
            return CallOutcome::LeftOut;
        }
        match self.channel.expected() {
            ExpectedReply::Nothing => CallOutcome::NoReply,
            _ => CallOutcome::VerdictDue,
        }
    }

    /// Whether any call is taken.
    fn check(&self) -> Result<(), CallFault>
        ensures ok { OnOk result (any_fault self.now ≡ None) }
        ensures err { IfErr result (λ fault. any_fault self.now ≡ Some fault) }
    {
        if self.phase == Phase::Closed {
            return Err(CallFault::Closed);
        }
        if !self.channel.is_idle() {
            return Err(CallFault::Busy);
        }
        Ok(())
    }

    /// Whether a command of the stage is taken.
    fn check_stage(&self, stage: Stage) -> Result<(), CallFault>
        ensures ok { OnOk result (fault_at stage self.now ≡ None) }
        ensures err { IfErr result (λ fault. fault_at stage self.now ≡ Some fault) }
    {
        self.check()?;
        if !self.phase.takes(self.last_rank, stage) {
            return Err(CallFault::OutOfOrder);
        }
        Ok(())
    }

    /// Copies of the macros that the filter asked for, where it has a symbol list of the stage.
    fn pairs_for(&self, stage: Stage, macros: &[Pair]) -> Result<Option<Pairs>, NoMemory>
        ensures { IfOk result (λ pairs. unwrap_or pairs macros.now ≡ pairs_for self.now stage macros.now) }
    {
        match (self.channel.negotiated(), stage.macro_stage()) {
            (Some(negotiated), Some(stage)) => {
                pairs_asked_for(self.alloc, &negotiated.lists, stage, macros)
            }
            _ => Ok(None),
        }
    }

    /// Queues a command of the stage with those of the macros that the filter asked for.
    fn call(
        &mut self,
        stage: Stage,
        command: &CommandRef<'_>,
        macros: &[Pair],
    ) -> Result<CallOutcome, CallFault>
        ensures { CommandLeaves stage (command_of command.now) macros.now self.old self.new result }
    {
        self.check_stage(stage)?;
        match self.pairs_for(stage, macros) {
            Ok(Some(pairs)) => self.queue_checked(stage, command, pairs.as_slice()),
            Ok(None) => self.queue_checked(stage, command, macros),
            Err(_) => Err(CallFault::NoMemory),
        }
    }

    /// Queues a command of the stage, which is taken, with these macros.
    fn queue_checked(
        &mut self,
        stage: Stage,
        command: &CommandRef<'_>,
        macros: &[Pair],
    ) -> Result<CallOutcome, CallFault>
        requires { fault_at stage self.old ≡ None }
        ensures { CallLeaves (fault_at stage self.old)
            (CanBeQueued (is_left_out self.old.channel.negotiated self.old.phase stage)
            (macro_command_of stage) (command_of command.now) macros.now)
            (after_command stage (command_of command.now) macros.now self.old) self.old self.new result }
    {
        let left_out = self.phase.leaves_out(self.channel.negotiated(), stage);
        if !left_out && !packets_fit(stage.macro_command(), command, macros) {
            return Err(CallFault::DoesNotFit);
        }
        if self
            .queue_command(left_out, stage, command, macros)
            .is_err()
        {
            self.channel.discard_pending();
            return Err(CallFault::NoMemory);
        }
        self.channel.clear_edits();
        self.last_rank = rank_after(self.phase, self.last_rank, stage);
        self.phase = self.phase.after(stage);
        Ok(self.outcome())
    }

    /// Queues the packets of a command of the stage, or what comes before one that is left out. After `NoMemory` some
    /// of them may be pending.
    fn queue_command(
        &mut self,
        left_out: bool,
        stage: Stage,
        command: &CommandRef<'_>,
        macros: &[Pair],
    ) -> Result<(), NoMemory>
        requires left_out { left_out ≡ is_left_out self.old.channel.negotiated self.old.phase stage }
        requires fit { left_out ≡ false → FitPackets (macro_command_of stage) (command_of command.now) macros.now }
        ensures ok { OnOk result (self.new ≡ record self.old {
          channel = with_command stage (command_of command.now) macros.now self.old.phase self.old.channel;
        }) }
        ensures err { OnErr result (QueuesSome self.old self.new) }
    {
        queue_abort_before(&mut self.channel, self.phase, stage)?;
        if left_out {
            return Ok(());
        }
        queue_packets(&mut self.channel, stage.macro_command(), command, macros)
    }
}
