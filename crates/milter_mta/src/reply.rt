//! What a mail server's end makes of what comes on its channel.

ghost use Rattle.std.specs.Prelude.{◌≡◌, ◌<◌, [], All, IfErr, IfOk, OnErr, OnOk, Some, false, length, true};
ghost use Rattle.milter_wire.specs.Reply.{Fits};
ghost use Rattle.milter_wire.specs.Verdicts.{given_at};
ghost use Rattle.milter_mail.specs.ChosenMacros.{chosen_macros};
ghost use Rattle.milter_message.specs.EditReplies.{reply_of};
ghost use Rattle.milter_mta_connection.specs.Channel.{is_owed};
ghost use Rattle.milter_mta_outcome.specs.Transactions.{stage_first, left_of};
ghost use Rattle.milter_mta.specs.declared.state.Position.TheVariants as parts;
ghost use Rattle.milter_mta.specs.ActedReplies.{ActsOn};
ghost use Rattle.milter_mta.specs.CoreParts.{Follows, IsCommand, IsConsistent, IsConsistentAfter, IsTaken, IsUnderWay, mta_at, mta_of, only, position_of, unconnected};
ghost use Rattle.milter_mta.specs.Cores.{IsCore, IsCoreAfter, ReceivesBytes, mta_then};
ghost use Rattle.milter_mta.specs.Dispositions.{lost};
ghost use Rattle.milter_mta.specs.Driven.{opened_by, ruled_in};

use crate::state::{FilterConnection, Position, SessionState};
use milter_mail::Macros;
use milter_mta_connection::{
    ExpectedReply, Fed, FilterEvent, MtaChannel, events_leave_channels, verdicts_follow_commands,
};
use milter_mta_outcome::{ActedVerdicts, ClientInfo, Loss, Transaction, received_replies};
use milter_protocol::Answer;
use milter_wire::{Negotiated, NoMemory, Stage, copy_sym_lists};
use std::alloc::Global;

/// A copy of what was negotiated, which a message under way keeps while the channel is changed.
fn copy_negotiated(alloc: Global, negotiated: &Negotiated) -> Result<Negotiated, NoMemory>
    ensures { IfOk result (λ copy. copy ≡ negotiated.now) }
{
    let lists = copy_sym_lists(alloc, negotiated.lists.as_slice())?;
    Ok(Negotiated {
        options: negotiated.options,
        lists,
    })
}

/// Acts on the answer to the next command of a message under way, which is of this stage. It comes back where the
/// dialogue ends by it.
fn act_on(
    transaction: &mut Transaction,
    alloc: Global,
    client_info: &ClientInfo,
    stage: Stage,
    answer: Answer,
) -> Result<Option<Answer>, NoMemory>
    requires under_way { IsUnderWay client_info.now transaction.old }
    requires stage { stage_first (left_of client_info.now transaction.old) ≡ Some stage }
    requires given { given_at answer.verdict stage ≡ true }
    ensures acts { ActsOn client_info.now stage answer transaction.old transaction.new result }
    ensures under_way { IsUnderWay client_info.now transaction.new }
{
    if transaction.find(client_info).is_none() {
        return Err(NoMemory);
    }
    let Answer { edits, verdict } = answer;
    let copy = verdict.copy(alloc)?;
    if transaction.act(client_info, stage, verdict)? {
        return Ok(Some(Answer {
            edits,
            verdict: copy,
        }));
    }
    Ok(None)
}

impl SessionState {
    /// Copies of what was negotiated, and of the macros that the filter asked for by it.
    fn chosen(&self, negotiated: &Negotiated) -> Result<(Negotiated, Macros), NoMemory>
        ensures negotiated { IfOk result (λ chosen. chosen.0 ≡ negotiated.now) }
        ensures macros { IfOk result (λ chosen.
            chosen.1 ≡ chosen_macros negotiated.now.lists self.now.client_info.macros) }
    {
        let macros = self
            .client_info
            .macros
            .chosen(self.alloc, &negotiated.lists)?;
        Ok((copy_negotiated(self.alloc, negotiated)?, macros))
    }

    /// The first message is under way from the client on, by what was negotiated. Where memory is refused the filter is
    /// lost before that.
    fn open(
        &mut self,
        filter_connection: &mut FilterConnection,
        negotiated: &Negotiated,
    ) -> Result<(), Loss>
        requires { IsConsistent self.old (Some (only parts.Offering)) }
        ensures opened { OnOk result (mta_at self.new filter_connection.new
            ≡ opened_by (Some negotiated.now) (mta_at self.old (only parts.Offering))) }
        ensures refused { IfErr result (λ loss. loss ≡ Loss.Memory) }
        ensures lost { OnErr result
            (unconnected self.new [] ≡ lost Loss.Memory (mta_at self.old (only parts.Offering))) }
        ensures consistent { IsConsistentAfter self.new filter_connection.new result }
    {
        let Ok((negotiated, macros)) = self.chosen(negotiated) else {
            self.lose_waiting(Loss::Memory);
            return Err(Loss::Memory);
        };
        let acted = ActedVerdicts::new(self.queue.take_roomy(self.alloc));
        *filter_connection = FilterConnection::at(self.begin(
            negotiated,
            macros,
            acted,
            Stage::Connect,
        ));
        Ok(())
    }

    /// Goes on by the answer to the next command of the message under way, which is of this stage. Where memory is
    /// refused the filter is lost before it.
    fn follow(
        &mut self,
        filter_connection: &mut FilterConnection,
        stage: Stage,
        answer: Answer,
    ) -> Result<(), Loss>
        requires consistent { IsConsistent self.old (Some (only filter_connection.old.position)) }
        requires no_abort { filter_connection.old.aborts ≡ false }
        requires command { IsCommand self.old.client_info stage filter_connection.old.position }
        requires given { given_at answer.verdict stage ≡ true }
        requires fit { All (λ edit. Fits (reply_of edit)) answer.edits }
        ensures ruled { OnOk result (mta_at self.new filter_connection.new
            ≡ ruled_in (position_of self.old.client_info [] filter_connection.old.position) answer.verdict answer.edits
            (mta_at self.old (only filter_connection.old.position))) }
        ensures refused { IfErr result (λ loss. loss ≡ Loss.Memory) }
        ensures lost { OnErr result
            (unconnected self.new [] ≡ lost Loss.Memory (mta_at self.old (only filter_connection.old.position))) }
        ensures consistent { IsConsistentAfter self.new filter_connection.new result }
    {
        let Position::Sending(transaction) = &mut filter_connection.position else {
            return Ok(());
        };
        match act_on(transaction, self.alloc, &self.client_info, stage, answer) {
            Ok(None) => Ok(()),
            Ok(Some(answer)) => match filter_connection.take_position() {
                Position::Sending(transaction) => {
                    self.settle(filter_connection, transaction, stage, answer)
                }
                _ => Ok(()),
            },
            Err(NoMemory) => {
                self.lose(filter_connection, Loss::Memory);
                Err(Loss::Memory)
            }
        }
    }

    /// Goes on by an event that came while this reply was expected. Where memory is refused the filter is lost before
    /// it.
    fn on_event(
        &mut self,
        filter_connection: &mut FilterConnection,
        channel: &mut MtaChannel,
        expected: ExpectedReply,
        event: FilterEvent,
    ) -> Result<(), Loss>
        requires consistent { IsConsistent self.old (Some (only filter_connection.old.position)) }
        requires no_abort { filter_connection.old.aborts ≡ false }
        requires taken { IsTaken self.old.client_info filter_connection.old.position expected event channel.old }
        ensures follows { OnOk result (Follows event self.old filter_connection.old channel.old
            self.new filter_connection.new channel.new) }
        ensures refused { IfErr result (λ loss. loss ≡ Loss.Memory) }
        ensures lost { OnErr result
            (unconnected self.new [] ≡ lost Loss.Memory (mta_at self.old (only filter_connection.old.position))) }
        ensures consistent { IsConsistentAfter self.new filter_connection.new result }
        ensures offer { channel.new.offer ≡ channel.old.offer }
    {
        match (event, expected) {
            (FilterEvent::Verdict(verdict), ExpectedReply::Verdict(stage)) => {
                let edits = channel.take_edits();
                self.follow(filter_connection, stage, Answer { edits, verdict })
            }
            (FilterEvent::Negotiated, _) => match channel.negotiated() {
                Some(negotiated) => self.open(filter_connection, negotiated),
                None => Ok(()),
            },
            _ => Ok(()),
        }
    }

    /// Takes a piece of what the filter sent, while a reply is owed. After a loss the connection is given up.
    pub(crate) fn receive(
        &mut self,
        filter_connection: &mut FilterConnection,
        channel: &mut MtaChannel,
        piece: &[u8],
    ) -> Result<(), Loss>
        requires core { IsCore self.old (Some filter_connection.old) channel.old }
        requires owed { is_owed channel.old ≡ true }
        requires some { 0 < length piece.now }
        ensures receives { ReceivesBytes (mta_of self.old (Some filter_connection.old) channel.old) piece.now
            (mta_then self.new filter_connection.new channel.new result) result }
        ensures core { IsCoreAfter self.new filter_connection.new channel.new result }
    {
        verdicts_follow_commands();
        events_leave_channels();
        received_replies();
        let expected = channel.expected();
        let Fed { event, loss } = channel.feed(piece);
        self.on_event(filter_connection, channel, expected, event)?;
        match loss {
            None => Ok(()),
            Some(loss) => {
                self.lose(filter_connection, loss);
                Err(loss)
            }
        }
    }
}
