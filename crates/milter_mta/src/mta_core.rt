//! A mail server's end of a connection to a filter.

ghost use Rattle.std.specs.Prelude.{◌≡◌, ◌≤◌, IfErr, IfOk, List, OnErr, OnOk, length};
ghost use Rattle.milter_message.specs.declared.edit.Edit.{Edit as EditValue};
ghost use Rattle.milter_mta.specs.Cores.{ReceivesBytes};
ghost use Rattle.milter_mta.specs.Mta.{fresh};
ghost use Rattle.milter_mta.specs.Output as output;
ghost use Rattle.milter_mta.specs.Output.{command_at};
ghost use Rattle.milter_mta.specs.CoreParts.{CanSend, IsSamePlace, position_of};
ghost use Rattle.milter_mta.specs.Dispositions.{lost};
ghost use Rattle.milter_mta.specs.Driven.{expected_after, queued};

use crate::config::Config;
use crate::queue::Queue;
use crate::reports::Reports;
use crate::state::{FilterConnection, Position, SessionState};
use milter_mail::{Session, SessionParts};
use milter_mta_connection::MtaChannel;
use milter_mta_outcome::{ClientInfo, Loss, MtaFault, Report};
use milter_wire::NoMemory;
use std::alloc::Global;
use std::marker::Model;

/// What is to be done for a mail server's end before it goes on.
#[derive(Clone, Copy, Debug, PartialEq, Eq)]
pub enum Want {
    /// A connection to a filter is to be made.
    Dial,
    /// Bytes are to be sent: those pending, or the next packet's.
    Send,
    /// The filter's reply is to be received.
    Receive,
    /// Nothing: every message is settled, and the end of the connection was sent, or there is none.
    Done,
}

/// A mail server's end of a connection to a filter: it plays a session to the filter, and settles each message by what
/// the filter answers, or by default where the filter is lost. It neither reads nor writes: do what [`MtaCore::want`]
/// asks for until that is [`Want::Done`], then take the reports with [`MtaCore::into_reports`].
#[derive(Drop)]
pub struct MtaCore {
    state: SessionState,
    filter_connection: Option<FilterConnection>,
    channel: MtaChannel,
}

impl Model for MtaCore {
    ghost use Rattle.milter_mta.specs.CoreParts.{mta_of};
    ghost use Rattle.milter_mta.specs.Cores.{IsCore};
    ghost use Rattle.milter_mta.specs.Mta.{Mta};

    ghost Value = { Mta };

    ghost view = { λ c. mta_of c.state c.filter_connection c.channel };

    ghost invariant = { λ c. IsCore c.state c.filter_connection c.channel };
}

impl MtaCore {
    /// A core that isn't connected yet. Allocates all reports up front, with room for two verdicts each. Where memory
    /// is refused the session comes back.
    pub fn new(alloc: Global, config: Config, session: Session) -> Result<Self, Session>
        ensures ok { IfOk result (λ core. core ≡ fresh config session) }
        ensures err { IfErr result (λ back. back ≡ session) }
    {
        let channel = MtaChannel::new(alloc, config.offer());
        let SessionParts {
            client,
            helo,
            macros,
            messages,
        } = session.into_parts();
        let queue = match Queue::new(alloc, messages) {
            Ok(queue) => queue,
            Err(messages) => return Err(Session::from_parts(client, helo, macros, messages)),
        };
        let state = SessionState {
            alloc,
            config,
            client_info: ClientInfo {
                client,
                helo,
                macros,
            },
            queue,
            connection: None,
        };
        Ok(MtaCore {
            state,
            filter_connection: None,
            channel,
        })
    }

    /// What is to be done next. Doesn't allocate.
    pub fn want(&self) -> Want
        ensures { result ≡ output.want self.now }
    {
        match &self.filter_connection {
            Some(filter_connection) => {
                filter_connection.want(&self.state.client_info, self.channel.is_owed())
            }
            None if self.state.queue.len() == 0 => Want::Done,
            None => Want::Dial,
        }
    }

    /// Notes that a connection to a filter was made, where [`Want::Dial`] is wanted; else nothing changes. Doesn't
    /// allocate.
    pub fn dialled(&mut self)
        ensures { self.new ≡ output.dialled self.old }
    {
        if self.want() != Want::Dial {
            return;
        }
        self.channel.restart();
        drop(
            self.filter_connection
                .replace(FilterConnection::at(Position::Offering)),
        );
    }

    /// The bytes that wait to be sent. Doesn't allocate.
    pub fn pending(&self) -> &[u8]
        ensures { result.now ≡ output.pending self.now }
    {
        match &self.filter_connection {
            Some(_) => self.channel.pending(),
            None => &[],
        }
    }

    /// Makes the next packet, where [`Want::Send`] is wanted and nothing is pending; else nothing changes. After
    /// `NoMemory` nothing has changed.
    pub fn advance(&mut self) -> Result<(), NoMemory>
        ensures ok { OnOk result (self.new ≡ output.advanced self.old) }
        ensures err { OnErr result (self.new ≡ self.old) }
    {
        let Some(filter_connection) = &mut self.filter_connection else {
            return Ok(());
        };
        let is_owed = self.channel.is_owed();
        if filter_connection.want(&self.state.client_info, is_owed) != Want::Send {
            return Ok(());
        }
        if !self.channel.pending().is_empty() {
            return Ok(());
        }
        queue_next(
            &mut self.channel,
            filter_connection,
            &self.state.client_info,
        )
    }

    /// Notes that the first `count` bytes of what is pending were sent. With the last byte of the offer, or of a
    /// command that is answered, its reply is owed. Doesn't allocate.
    pub fn sent(&mut self, count: usize)
        requires { count ≤ length (output.pending self.old) }
        ensures { self.new ≡ output.sent count self.old }
    {
        let Some(filter_connection) = &mut self.filter_connection else {
            return;
        };
        if self.channel.pending().is_empty() {
            return;
        }
        self.channel.sent(count);
        if !self.channel.pending().is_empty() {
            return;
        }
        if self.channel.is_owed() {
            return;
        }
        filter_connection.advance(&self.state.client_info);
    }

    /// Takes a piece of what the filter sent, all of it. An empty piece changes nothing. After a loss it is as after
    /// [`MtaCore::lost`]: what came before is acted on. Where memory is refused a reply is still owed, so no verdict in
    /// the piece is acted on. The first packet that the end of a piece cuts allocates the room for one packet, 65,540
    /// bytes, which is kept. Source: the libmilter callback documentation.
    pub fn feed(&mut self, piece: &[u8]) -> Result<(), Loss>
        ensures { ReceivesBytes self.old piece.now self.new result }
    {
        if piece.is_empty() {
            return Ok(());
        }
        let Some(filter_connection) = &mut self.filter_connection else {
            let loss = Loss::Fault(MtaFault::Early);
            self.state.lose_waiting(loss);
            return Err(loss);
        };
        if !self.channel.is_owed() {
            let loss = Loss::Fault(MtaFault::Early);
            self.state.lose(filter_connection, loss);
            self.filter_connection = None;
            return Err(loss);
        }
        let received = self
            .state
            .receive(filter_connection, &mut self.channel, piece);
        if received.is_err() {
            self.filter_connection = None;
        }
        received
    }

    /// Gives up the connection, or the dial, with what is pending. The first message that isn't settled is settled by
    /// default; where none is left nothing is reported. Doesn't allocate.
    pub fn lost(&mut self, loss: Loss)
        ensures { self.new ≡ lost loss self.old }
    {
        match &mut self.filter_connection {
            Some(filter_connection) => {
                self.state.lose(filter_connection, loss);
                self.filter_connection = None;
            }
            None => self.state.lose_waiting(loss),
        }
    }

    /// How many messages are settled. Doesn't allocate.
    pub fn settled(&self) -> usize
        ensures { result ≡ length self.now.reports }
    {
        self.state.queue.count()
    }

    /// The reports of the messages that are settled so far, in the session's order. Doesn't allocate.
    pub fn reports(&self) -> &[Report]
        ensures { result.now ≡ self.now.reports }
    {
        self.state.queue.reports()
    }

    /// What became of the messages that were settled. Doesn't allocate.
    pub fn into_reports(self) -> Reports
        ensures connection { result.connection ≡ self.connection }
        ensures messages { result.messages ≡ self.reports }
    {
        Reports::new(self.state.connection, self.state.queue.into_reports())
    }
}

/// Queues the next packet, where none is pending.
fn queue_next(
    channel: &mut MtaChannel,
    filter_connection: &mut FilterConnection,
    client_info: &ClientInfo,
) -> Result<(), NoMemory>
    requires { CanSend client_info.now filter_connection.old.position }
    ensures ok { OnOk result ((edits : List EditValue) → channel.new
        ≡ queued (command_at channel.old.offer filter_connection.old.aborts
        (position_of client_info.now edits filter_connection.old.position))
        (expected_after filter_connection.old.aborts
        (position_of client_info.now edits filter_connection.old.position)) channel.old) }
    ensures err { OnErr result (channel.new ≡ channel.old) }
    ensures same { IsSamePlace client_info.now filter_connection.old filter_connection.new }
{
    let expected = filter_connection.expected(client_info);
    match filter_connection.command(channel.offer(), client_info) {
        Some(command) => channel.queue_expecting(&command, expected),
        None => Ok(()),
    }
}
