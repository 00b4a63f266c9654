//! What a filter's end asks and replies at the commands of a connection.

ghost use Rattle.std.specs.Prelude.{◌≡◌, ◌≤◌, ◌+◌, ◌↔◌, [], ◌∷◌, All, IfErr, IfOk, IsTrue, None, Ok, OnErr, OnOk, Some, length, true};
ghost use Rattle.milter_fields.specs.Packet.{packet};
ghost use Rattle.milter_fields.specs.Splitter.{frame_of};
ghost use Rattle.milter_fields.specs.Stream.{IsFrame};
ghost use Rattle.milter_fields.specs.declared.number.TheConstants.{PAYLOAD_MAX};
ghost use Rattle.milter_message.specs.declared.message.TheConstants.{WEIGHT_MAX};
ghost use Rattle.milter_message.specs.EditReplies as asked_by;
ghost use Rattle.milter_wire.specs.OptionsPayload.{OptionsFit};
ghost use Rattle.milter_wire.specs.Command.{Fits, IsEncodedAs, encoding};
ghost use Rattle.milter_wire.specs.Reply as wire_replies;
ghost use Rattle.milter_wire.specs.Verdicts as given;
ghost use Rattle.milter_wire.specs.declared.reply.Reply.TheVariants as replies;
ghost use Rattle.milter_wire.specs.Frames.{frame_command};
ghost use Rattle.milter_wire.specs.BorrowedCommand.{command_of};
ghost use Rattle.milter_wire.specs.Stages.{stage_of};
ghost use Rattle.milter_wire.specs.declared.stage.Stage.{Stage as At};
ghost use Rattle.milter_wire.specs.Tables.{map_ok};
ghost use Rattle.milter_wire.specs.Negotiation.{negotiate};
ghost use Rattle.milter_protocol.specs.Commands.{is_shown};
ghost use Rattle.milter_protocol.specs.Replies.{options_reply};
ghost use Rattle.milter_protocol.specs.OrderStates.{order_state_fault};

use crate::answer_packets::{put_answer, put_continue, put_progress};
use crate::connection::{Connection, KEPT_MAX};
use crate::policy::Policy;
use crate::seen::{Search, Seen};
use crate::wants::WantsRef;
use milter_protocol::{Answer, CommandOrder, FilterFault, FilterState};
use milter_wire::{
    CommandRef, HEAD_LEN, Negotiated, NoMemory, Options, Packet, Protocol, Reply, Stage, WireFault,
    copy_sym_lists, negotiate,
};
use std::alloc::Global;
use std::marker::Model;

/// What asks and replies at the commands of a connection: what is kept of it, the stage of the question that is open,
/// and the replies that are pending. After a fault nothing is known of what is kept and of what is pending.
#[derive(Drop)]
pub(crate) struct Asker {
    alloc: Global,
    connection: Connection,
    asked: Option<Stage>,
    pending: Vec<u8>,
}

impl Model for Asker {
    ghost use Rattle.std.specs.Prelude.{◌≡◌, Some};
    ghost use Rattle.milter_wire.specs.declared.stage.Stage.{Stage as At};
    ghost use Rattle.milter_filter_stream.specs.Asking.{Asking, IsAsked};

    ghost Value = { Asking };

    ghost view = { λ r. record {
      state = record { order_state = r.connection; asked = r.asked };
      pending = r.pending.items;
    } };

    ghost invariant = { λ r. (stage : At) → r.asked ≡ Some stage → IsAsked r.connection stage };
}

impl Asker {
    ghost use Rattle.milter_protocol.specs.Replies.{options_reply, replies_to_unknown};
    ghost use Rattle.milter_protocol.specs.OrderStates.{after_options, with_shown};
    ghost use Rattle.milter_protocol.specs.Questions.{IsTaking, answer_step, question_at};
    ghost use Rattle.milter_filter_stream.specs.Asking.{FailsAt, GoesOn, asking_by, asking_next, asking_step, asking_with, failed_asking, fresh_asking, shown_and_asked};

    /// For a connection of which nothing has come.
    pub(crate) fn new(alloc: Global, order: CommandOrder) -> Self
        ensures { result ≡ fresh_asking order }
    {
        Asker {
            alloc,
            connection: Connection::new(alloc, order),
            asked: None,
            pending: Vec::new(alloc),
        }
    }

    /// Begins again, for another connection of which nothing has come. Doesn't allocate.
    pub(crate) fn restart(&mut self, order: CommandOrder)
        ensures { self.new ≡ fresh_asking order }
    {
        self.connection.restart(self.alloc, order);
        self.asked = None;
        self.pending.clear();
        if self.pending.capacity() > KEPT_MAX {
            self.pending = Vec::new(self.alloc);
        }
    }

    /// Gives up the connection for a fault.
    pub(crate) fn fail(&mut self, fault: FilterFault)
        ensures { self.new ≡ failed_asking fault }
    {
        self.connection = Connection::failed(self.alloc, fault);
        self.asked = None;
        self.pending.clear();
    }

    /// Whether the connection goes on.
    pub(crate) fn state(&self) -> FilterState
        ensures { result ≡ self.now.state.order_state.state }
    {
        self.connection.state()
    }

    /// The stage of the question that is open.
    pub(crate) fn asked(&self) -> Option<Stage>
        ensures asked { result ≡ self.now.state.asked }
        ensures serving { (stage : At) → self.now.state.asked ≡ Some stage →
            self.now.state.order_state.state ≡ FilterState.Serving }
    {
        self.asked
    }

    /// Whether the connection goes on and commands are replied to.
    pub(crate) fn is_serving(&self) -> bool
        ensures { IsTrue result ↔ (self.now.state.order_state.state ≡ FilterState.Serving) }
    {
        // A question is open only while it serves, and most commands leave one open.
        self.asked.is_some() || self.connection.is_serving()
    }

    /// Whether more packets are taken: no question is open, no replies are pending, and the connection serves.
    pub(crate) fn takes_more(&self) -> bool
        ensures { IsTrue result ↔ (IsTaking self.now.state × (self.now.pending ≡ [])) }
    {
        self.asked.is_none() && self.pending.is_empty() && self.connection.is_serving()
    }

    /// What is shown.
    pub(crate) fn seen(&self) -> &Seen
        ensures shown { result.now.shown ≡ self.now.state.order_state.shown.seen }
    {
        self.connection.seen()
    }

    /// Has a policy search what is shown for what it is going to look for at the stage.
    pub(crate) fn prepare<P: Policy>(&mut self, policy: &P, stage: Stage)
        ensures { self.new ≡ self.old }
    {
        self.connection.prepare(self.alloc, policy, stage);
    }

    /// The replies.
    pub(crate) fn pending(&self) -> &[u8]
        ensures { result.now ≡ self.now.pending }
    {
        &self.pending
    }

    /// Clears the replies, which were sent.
    pub(crate) fn clear_pending(&mut self)
        ensures { self.new ≡ record self.old { pending = [] } }
    {
        self.pending.clear();
    }

    /// Asks about a packet, or replies to it, or answers the fault of its command.
    pub(crate) fn on_packet(
        &mut self,
        wants: &WantsRef<'_>,
        packet: &Packet<'_>,
    ) -> Result<(), FilterFault>
        requires payload { IsFrame (frame_of packet.now) }
        requires taking { IsTaking self.old.state }
        ensures replied { OnOk result (self.new
            ≡ asking_next wants.now self.old (frame_command (frame_of packet.now))) }
        ensures going { OnOk result (GoesOn self.new.state.order_state) }
        ensures fails { IfErr result (λ fault. FailsAt wants.now self.old.state
            (frame_command (frame_of packet.now)) fault) }
    {
        let command = match read_command(packet.code, packet.payload) {
            Ok(command) => command,
            Err(fault) => return Err(FilterFault::Wire(fault)),
        };
        let len = packet.payload.len() + HEAD_LEN;
        self.connection.end_message_before(&command);
        if let Some(fault) = self.connection.fault_of(&command, len) {
            return Err(fault);
        }
        self.on_command(wants, &command, len)?;
        Ok(())
    }

    /// Goes on by a command that is at no fault; its packet has `len` bytes.
    fn on_command(
        &mut self,
        wants: &WantsRef<'_>,
        command: &CommandRef<'_>,
        len: usize,
    ) -> Result<(), NoMemory>
        requires fits { Fits (command_of command.now) }
        requires len { len ≡ length (encoding (command_of command.now)) }
        requires taking { IsTaking self.old.state }
        requires no_fault { order_state_fault self.old.state.order_state (Ok (command_of command.now)) ≡ None }
        ensures { OnOk result (self.new ≡ asking_by wants.now self.old (command_of command.now)) }
    {
        match command {
            CommandRef::Options(offer) => self.negotiate_on(wants, *offer)?,
            CommandRef::Unknown(_) => self.reply_to_unknown()?,
            CommandRef::Abort => self.connection.end_message(),
            CommandRef::QuitNew => self.connection.end_client(),
            CommandRef::Quit => self.connection.quit(),
            _ => self.show(command, len)?,
        }
        Ok(())
    }

    /// Replies to the offer of a mail server, and keeps what is negotiated.
    fn negotiate_on(&mut self, wants: &WantsRef<'_>, offer: Options) -> Result<(), NoMemory>
        requires fits { OptionsFit offer }
        requires unasked { self.old.state.asked ≡ None }
        ensures { let negotiated = negotiate offer wants.now.options wants.now.lists in
            OnOk result (self.new
            ≡ asking_with self.old (after_options self.old.state.order_state negotiated)
            (options_reply negotiated ∷ [])) }
    {
        let Negotiated { options, lists } = negotiated_with(self.alloc, wants, offer)?;
        let reply = Reply::Options { options, lists };
        let encoded = reply.encode(self.alloc, &mut self.pending);
        drop(reply);
        encoded?;
        self.connection
            .set_negotiated(negotiated_with(self.alloc, wants, offer)?);
        Ok(())
    }

    /// Lets an unknown command of the client go on, unless such commands aren't answered.
    fn reply_to_unknown(&mut self) -> Result<(), NoMemory>
        ensures { OnOk result (self.new
            ≡ asking_with self.old self.old.state.order_state
            (replies_to_unknown self.old.state.order_state.negotiated)) }
    {
        match self.connection.negotiated() {
            Some(negotiated) if negotiated.options.protocol.0 & Protocol::NR_UNKN.0 == 0 => {
                put_continue(&mut self.pending)
            }
            _ => Ok(()),
        }
    }

    /// Shows a command of a stage, or macros, and asks at the stage, where the filter is to be asked.
    fn show(&mut self, command: &CommandRef<'_>, len: usize) -> Result<(), NoMemory>
        requires len { len ≡ length (encoding (command_of command.now)) }
        requires amount { is_shown (command_of command.now) ≡ true →
            len + self.old.state.order_state.shown.bytes ≤ WEIGHT_MAX }
        requires taking { IsTaking self.old.state }
        ensures { OnOk result (self.new ≡ shown_and_asked self.old (command_of command.now)) }
    {
        let Some(stage) = command.stage() else {
            return self.connection.note(self.alloc, command, len);
        };
        let Some(stage) = self.connection.question_at(stage) else {
            return self.connection.note(self.alloc, command, len);
        };
        if !self.connection.counts_late(stage) {
            self.connection.note(self.alloc, command, len)?;
            self.asked = Some(stage);
            return Ok(());
        }
        self.asked = Some(stage);
        Ok(())
    }

    /// Replies the answer to the question that is open, about this stage. After `NoMemory` nothing has changed.
    #[inline(always)]
    pub(crate) fn answer(&mut self, stage: Stage, answer: Answer) -> Result<(), NoMemory>
        requires asked { self.old.state.asked ≡ Some stage }
        requires edits { All (λ edit. wire_replies.Fits (asked_by.reply_of edit)) answer.edits }
        requires verdict { wire_replies.Fits (given.reply_of answer.verdict) }
        ensures ok { OnOk result (self.new ≡ asking_step self.old (answer_step self.old.state answer)) }
        ensures err { OnErr result (self.new ≡ self.old) }
    {
        let effect = self.connection.effect_at(stage, &answer.verdict);
        let Some(negotiated) = self.connection.negotiated() else {
            return Ok(());
        };
        put_answer(self.alloc, negotiated, answer, &mut self.pending)?;
        self.asked = None;
        self.connection.apply_effect(effect);
        Ok(())
    }

    /// Reports progress. After `NoMemory` nothing has changed.
    pub(crate) fn put_progress(&mut self) -> Result<(), NoMemory>
        ensures ok { OnOk result (self.new
            ≡ asking_with self.old self.old.state.order_state (replies.Progress ∷ [])) }
        ensures err { OnErr result (self.new ≡ self.old) }
    {
        put_progress(&mut self.pending)
    }

    /// Searches what is shown, as [`Seen::search`] does.
    pub(crate) fn search(&mut self, place: usize, search: Search<'_>)
        ensures { self.new ≡ self.old }
    {
        self.connection.search(self.alloc, place, search);
    }
}

/// The command of a packet, or the fault for which it can't be read.
fn read_command(code: u8, payload: &[u8]) -> Result<CommandRef<'_>, WireFault>
    requires { length payload.now ≤ PAYLOAD_MAX }
    ensures read { map_ok command_of result ≡ frame_command (record { code = code; payload = payload.now }) }
    ensures encoded { IfOk result (λ command. IsEncodedAs (command_of command) (packet code payload.now)) }
{
    CommandRef::decode(code, payload)
}

/// What is negotiated with a mail server that offers this.
fn negotiated_with(
    alloc: Global,
    wants: &WantsRef<'_>,
    offer: Options,
) -> Result<Negotiated, NoMemory>
    requires { OptionsFit offer }
    ensures negotiated { IfOk result (λ negotiated.
        negotiated ≡ negotiate offer wants.now.options wants.now.lists) }
    ensures fits { IfOk result (λ negotiated. wire_replies.Fits (options_reply negotiated)) }
{
    let lists = copy_sym_lists(alloc, wants.lists())?;
    Ok(negotiate(offer, wants.options(), lists))
}
