//! What is known of a session, and where it is with the filter.

ghost use Rattle.std.specs.Prelude.{◌≡◌, ◌<◌, [], List, None, Some, drop, false, option_map, true};
ghost use Rattle.milter_wire.specs.BorrowedCommand.{command_of};
ghost use Rattle.milter_message.specs.declared.edit.Edit.{Edit as EditValue};
ghost use Rattle.milter_mta_outcome.specs.Transactions.{left_of, stage_first};
ghost use Rattle.milter_mta.specs.declared.state.Position.TheVariants as parts;
ghost use Rattle.milter_mta.specs.CoreParts.{CanSend, IsConsistent, IsSamePlace, IsUnderWay, messages_at, mta_at, only, position_of, unconnected, with_state_report};
ghost use Rattle.milter_mta.specs.Dispositions.{default_report, lost};
ghost use Rattle.milter_mta.specs.Driven.{expected_after, expected_first};
ghost use Rattle.milter_mta.specs.Output.{after_packet, command_at, want_at};

use crate::config::Config;
use crate::mta_core::Want;
use crate::queue::Queue;
use milter_mail::Message;
use milter_mta_connection::ExpectedReply;
use milter_mta_outcome::{ActedVerdicts, By, ClientInfo, Loss, Report, Transaction, fall_back};
use milter_wire::{CommandRef, Options, Verdict};
use std::alloc::Global;
use std::mem::replace;

/// What is sent next to a filter.
#[derive(Debug, Drop)]
pub(crate) enum Position {
    /// The offer.
    Offering,
    /// The next command of a message.
    Sending(Transaction),
    /// The end of the connection.
    Quitting,
    /// Nothing: the end was sent.
    Ended,
}

/// A connection to a filter.
#[derive(Debug, Drop)]
pub(crate) struct FilterConnection {
    /// Whether an abort must still be sent.
    pub(crate) aborts: bool,
    /// What is sent after that.
    pub(crate) position: Position,
}

impl FilterConnection {
    /// A connection on which this is sent next.
    pub(crate) fn at(position: Position) -> Self
        ensures { result ≡ only position }
    {
        FilterConnection {
            aborts: false,
            position,
        }
    }

    /// What is waited for, where a reply is owed or none is.
    pub(crate) fn want(&self, client_info: &ClientInfo, is_owed: bool) -> Want
        ensures { (edits : List EditValue) →
            result ≡ want_at self.now.aborts (position_of client_info.now edits self.now.position) is_owed }
    {
        match (self.aborts, &self.position, is_owed) {
            (false, Position::Ended, _) => Want::Done,
            (_, _, true) => Want::Receive,
            (_, _, false) => Want::Send,
        }
    }

    /// The next packet's command, where this is offered.
    pub(crate) fn command<'a>(
        &'a self,
        offer: Options,
        client_info: &'a ClientInfo,
    ) -> Option<CommandRef<'a>>
        ensures { (edits : List EditValue) → option_map command_of result
            ≡ command_at offer self.now.aborts (position_of client_info.now edits self.now.position) }
    {
        if self.aborts {
            return Some(CommandRef::Abort);
        }
        match &self.position {
            Position::Offering => Some(CommandRef::Options(offer)),
            Position::Sending(transaction) => transaction.command(client_info),
            Position::Quitting => Some(CommandRef::Quit),
            Position::Ended => None,
        }
    }

    /// The reply that the next packet gets. Doesn't allocate.
    pub(crate) fn expected(&mut self, client_info: &ClientInfo) -> ExpectedReply
        requires { CanSend client_info.now self.old.position }
        ensures expected { (edits : List EditValue) →
            result ≡ expected_after self.old.aborts (position_of client_info.now edits self.old.position) }
        ensures same { IsSamePlace client_info.now self.old self.new }
    {
        if self.aborts {
            return ExpectedReply::Nothing;
        }
        match &mut self.position {
            Position::Offering => ExpectedReply::Options,
            Position::Sending(transaction) => expected_verdict(transaction, client_info),
            Position::Quitting | Position::Ended => ExpectedReply::Nothing,
        }
    }

    /// Goes on after a packet that has no reply. Doesn't allocate.
    pub(crate) fn advance(&mut self, client_info: &ClientInfo)
        requires { CanSend client_info.now self.old.position }
        ensures aborted { self.old.aborts ≡ true → self.new ≡ only self.old.position }
        ensures after { self.old.aborts ≡ false → (edits : List EditValue) →
            position_of client_info.now edits self.new.position
            ≡ after_packet (position_of client_info.now edits self.old.position) }
        ensures aborts { self.new.aborts ≡ false }
        ensures can_send { CanSend client_info.now self.new.position }
        ensures messages { messages_at self.new.position ≡ messages_at self.old.position }
    {
        if self.aborts {
            self.aborts = false;
            return;
        }
        self.position.advance(client_info);
    }

    /// What was sent next, which is taken out; nothing is sent next then. Doesn't allocate.
    pub(crate) fn take_position(&mut self) -> Position
        ensures position { result ≡ self.old.position }
        ensures left { self.new ≡ record self.old { position = parts.Ended } }
    {
        replace(&mut self.position, Position::Ended)
    }
}

impl Position {
    /// Goes on after a packet that has no reply. Doesn't allocate.
    fn advance(&mut self, client_info: &ClientInfo)
        requires { CanSend client_info.now self.old }
        ensures after { (edits : List EditValue) →
            position_of client_info.now edits self.new ≡ after_packet (position_of client_info.now edits self.old) }
        ensures can_send { CanSend client_info.now self.new }
        ensures messages { messages_at self.new ≡ messages_at self.old }
    {
        match self {
            Position::Sending(transaction) => advance_command(transaction, client_info),
            Position::Quitting => *self = Position::Ended,
            Position::Offering | Position::Ended => {}
        }
    }
}

/// The verdict that the next command of a message gets, which is found; nothing where it isn't answered.
fn expected_verdict(transaction: &mut Transaction, client_info: &ClientInfo) -> ExpectedReply
    requires { IsUnderWay client_info.now transaction.old }
    ensures expected { result ≡ expected_first transaction.old.negotiated
        (stage_first (left_of client_info.now transaction.old)) }
    ensures left { left_of client_info.now transaction.new ≡ left_of client_info.now transaction.old }
    ensures kept { transaction.new ≡ record transaction.old { cursor = transaction.new.cursor } }
    ensures under_way { IsUnderWay client_info.now transaction.new }
{
    match transaction.find(client_info) {
        Some(stage) if transaction.negotiated.is_answered(stage) => ExpectedReply::Verdict(stage),
        _ => ExpectedReply::Nothing,
    }
}

/// Goes on after a command of a message that has no reply.
fn advance_command(transaction: &mut Transaction, client_info: &ClientInfo)
    requires { IsUnderWay client_info.now transaction.old }
    ensures after { left_of client_info.now transaction.new ≡ drop 1 (left_of client_info.now transaction.old) }
    ensures kept { transaction.new ≡ record transaction.old { cursor = transaction.new.cursor } }
    ensures under_way { IsUnderWay client_info.now transaction.new }
{
    transaction.advance(client_info);
}

/// What is known of a session, whatever filter it is shown. A message that is under way is not in it.
#[derive(Debug, Drop)]
pub(crate) struct SessionState {
    pub(crate) alloc: Global,
    pub(crate) config: Config,
    pub(crate) client_info: ClientInfo,
    pub(crate) queue: Queue,
    /// The verdict that ended the client's connection.
    pub(crate) connection: Option<Verdict>,
}

impl SessionState {
    /// Settles a message by default, after these verdicts.
    pub(crate) fn settle_by_default(&mut self, message: Message, acted: ActedVerdicts, loss: Loss)
        requires { 0 < self.old.queue.spare }
        ensures { self.new
            ≡ with_state_report (default_report self.old.config.on_loss loss message acted) self.old }
    {
        let outcome = fall_back(self.config.on_loss(), message, acted.as_slice());
        self.queue.add_report(Report {
            acted,
            outcome,
            settled_by: By::Default(loss),
        });
    }

    /// The filter is lost with a message under way. Doesn't allocate.
    fn lose_transaction(&mut self, transaction: Transaction, loss: Loss)
        requires { IsConsistent self.old (Some (only (parts.Sending transaction))) }
        ensures lost { unconnected self.new [] ≡ lost loss (mta_at self.old (only (parts.Sending transaction))) }
        ensures consistent { IsConsistent self.new None }
    {
        let Transaction { message, acted, .. } = transaction;
        self.settle_by_default(message, acted, loss);
    }

    /// The filter is lost while no message is under way. Doesn't allocate.
    pub(crate) fn lose_waiting(&mut self, loss: Loss)
        requires { IsConsistent self.old None }
        ensures lost { unconnected self.new [] ≡ lost loss (unconnected self.old []) }
        ensures consistent { IsConsistent self.new None }
    {
        if let Some(message) = self.queue.next_message() {
            let acted = ActedVerdicts::new(self.queue.take_reserved(self.alloc));
            self.settle_by_default(message, acted, loss);
        }
    }

    /// The filter of a connection is lost. Doesn't allocate.
    pub(crate) fn lose(&mut self, filter_connection: &mut FilterConnection, loss: Loss)
        requires { IsConsistent self.old (Some (only filter_connection.old.position)) }
        ensures lost { unconnected self.new [] ≡ lost loss (mta_at self.old (only filter_connection.old.position)) }
        ensures consistent { IsConsistent self.new None }
    {
        match filter_connection.take_position() {
            Position::Sending(transaction) => self.lose_transaction(transaction, loss),
            Position::Offering | Position::Quitting | Position::Ended => self.lose_waiting(loss),
        }
    }
}
