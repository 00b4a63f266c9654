//! A channel to a filter.

ghost use Rattle.std.specs.Prelude.{All, ◌≡◌, ◌≤◌, [], OnErr, OnOk, length};
ghost use Rattle.std.specs.Option.{option_copied};
ghost use Rattle.milter_message.specs.EditReplies.{reply_of};
ghost use Rattle.milter_wire.specs.BorrowedCommand.{command_of};
ghost use Rattle.milter_wire.specs.Command.{Fits};
ghost use Rattle.milter_wire.specs.Reply.{Fits as ReplyFits};
ghost use Rattle.milter_mta_connection.specs.Channel.{cleared, is_idle, is_owed, offered, queue, queue_expecting, sent, unopened, without_edits, without_pending};
ghost use Rattle.milter_mta_connection.specs.ChannelParts.{Receives};

use crate::channel_state::{ChannelState, ExpectedReply};
use crate::filter_event::{Fed, FilterEvent};
use crate::pending::append;
use milter_fields::ByteQueue;
use milter_message::Edit;
use milter_mta_outcome::{Loss, MtaFault, ReceivedEdits};
use milter_protocol::Edits;
use milter_wire::{CommandRef, Negotiated, NoMemory, Options, Splitter};
use std::alloc::Global;
use std::marker::Model;
use std::mem;

/// A channel to a filter: the commands that a mail server sends on a connection, one by one, and the replies to them.
/// It knows nothing of the order of commands. It neither reads nor writes. Source: mfdef.h.
#[derive(Debug, Drop)]
pub struct MtaChannel {
    state: ChannelState,
    pending: ByteQueue,
    splitter: Splitter,
}

impl Model for MtaChannel {
    ghost use Rattle.milter_fields.specs.Stream.{IsUnfinished};
    ghost use Rattle.milter_mta_connection.specs.Channel.{Channel};
    ghost use Rattle.milter_mta_connection.specs.ChannelParts.{channel_of};

    ghost Value = { Channel };

    ghost view = { λ c. channel_of c.state c.pending c.splitter };

    ghost invariant = { λ c. IsUnfinished c.splitter };
}

impl MtaChannel {
    /// A channel on which nothing was sent. Doesn't allocate.
    pub fn new(alloc: Global, offer: Options) -> Self
        ensures { result ≡ unopened offer }
    {
        MtaChannel {
            state: ChannelState {
                alloc,
                offer,
                negotiated: None,
                expected: ExpectedReply::Nothing,
                edits: ReceivedEdits::new(alloc),
            },
            pending: ByteQueue::new(alloc),
            splitter: Splitter::new(alloc),
        }
    }

    /// Begins another connection, on which nothing was sent. The memory is kept. Doesn't allocate.
    pub fn restart(&mut self)
        ensures { self.new ≡ unopened self.old.offer }
    {
        self.clear();
        self.state.negotiated = None;
    }

    /// What the filter is offered. Doesn't allocate.
    pub fn offer(&self) -> Options
        ensures { result ≡ self.now.offer }
    {
        self.state.offer
    }

    /// Queues the offer, the first packet of a connection. After `NoMemory` nothing has changed.
    pub fn queue_offer(&mut self) -> Result<(), NoMemory>
        requires { self.old.pending ≡ [] }
        ensures ok { OnOk result (self.new ≡ offered self.old) }
        ensures err { OnErr result (self.new ≡ self.old) }
    {
        let offer = CommandRef::Options(self.offer());
        append(&mut self.pending, self.state.alloc, &offer)?;
        self.state.expected = ExpectedReply::Options;
        Ok(())
    }

    /// What was negotiated, once the filter replied to the offer. Doesn't allocate.
    pub fn negotiated(&self) -> Option<&Negotiated>
        ensures { option_copied result ≡ self.now.negotiated }
    {
        self.state.negotiated.as_ref()
    }

    /// What the filter is to reply once all that is pending was sent. Doesn't allocate.
    pub fn expected(&self) -> ExpectedReply
        ensures { result ≡ self.now.expected }
    {
        self.state.expected
    }

    /// Whether the reply that is expected is owed: all that was pending was sent. Doesn't allocate.
    pub fn is_owed(&self) -> bool
        ensures { result ≡ is_owed self.now }
    {
        self.pending.as_slice().is_empty() && self.state.is_expecting()
    }

    /// The edits of the answer to the end of a message, in order: of the last one, or of the one that comes. Doesn't
    /// allocate.
    pub fn edits(&self) -> &[Edit]
        ensures edits { result.now ≡ self.now.edits }
        ensures fit { All (λ edit. ReplyFits (reply_of edit)) result.now }
    {
        self.state.edits.as_slice()
    }

    /// Takes these edits; there are none then. Doesn't allocate.
    pub fn take_edits(&mut self) -> Edits
        ensures edits { result ≡ self.old.edits }
        ensures fit { All (λ edit. ReplyFits (reply_of edit)) result }
        ensures left { self.new ≡ without_edits self.old }
    {
        let none = ReceivedEdits::new(self.state.alloc);
        mem::replace(&mut self.state.edits, none).into_edits()
    }

    /// Drops these edits. Doesn't allocate.
    pub fn clear_edits(&mut self)
        ensures { self.new ≡ without_edits self.old }
    {
        self.state.clear_edits();
    }

    /// Whether the next command may be queued: the options came, nothing is pending, and no reply is expected. Doesn't
    /// allocate.
    pub fn is_idle(&self) -> bool
        ensures { result ≡ is_idle self.now }
    {
        match (&self.state.negotiated, self.state.expected) {
            (Some(_), ExpectedReply::Nothing) => self.pending.as_slice().is_empty(),
            _ => false,
        }
    }

    /// The bytes that wait to be sent. Doesn't allocate.
    pub fn pending(&self) -> &[u8]
        ensures { result.now ≡ self.now.pending }
    {
        self.pending.as_slice()
    }

    /// Notes that the first `count` bytes of what is pending were sent. Doesn't allocate.
    pub fn sent(&mut self, count: usize)
        requires { count ≤ length self.old.pending }
        ensures { self.new ≡ sent count self.old }
    {
        self.pending.advance(count);
    }

    /// Queues the packet of a command after what is pending. Where the command is answered, it is the last one to be
    /// queued before its answer. After `NoMemory` nothing has changed.
    pub fn queue(&mut self, command: &CommandRef<'_>) -> Result<(), NoMemory>
        requires { Fits (command_of command.now) }
        ensures ok { OnOk result (self.new ≡ queue (command_of command.now) self.old) }
        ensures err { OnErr result (self.new ≡ self.old) }
    {
        let expected = self.state.expected_of(command);
        self.queue_expecting(command, expected)
    }

    /// Queues the packet of a command after what is pending, where the caller knows which reply it gets. After
    /// `NoMemory` nothing has changed.
    pub fn queue_expecting(
        &mut self,
        command: &CommandRef<'_>,
        expected: ExpectedReply,
    ) -> Result<(), NoMemory>
        requires { Fits (command_of command.now) }
        ensures ok { OnOk result (self.new ≡ queue_expecting (command_of command.now) expected self.old) }
        ensures err { OnErr result (self.new ≡ self.old) }
    {
        append(&mut self.pending, self.state.alloc, command)?;
        self.state.expected = expected;
        Ok(())
    }

    /// Drops what is pending, as if it had not been queued: no reply is expected then. Doesn't allocate.
    pub fn discard_pending(&mut self)
        ensures { self.new ≡ without_pending self.old }
    {
        self.state.expect_nothing();
        self.pending.clear();
    }

    /// Takes a piece of what the filter sent, all of it. An empty piece changes nothing. After a loss no reply is
    /// expected, nothing is pending, and the edits that are left are those of a verdict that came in this piece. A
    /// packet that the end of the piece cuts is kept in the room for one packet, 65,540 bytes, which is allocated then,
    /// where there is none. A verdict without a text allocates nothing where its packet is whole in the piece.
    pub fn feed(&mut self, piece: &[u8]) -> Fed
        ensures { Receives self.old piece.now self.new result }
    {
        if piece.is_empty() {
            return Fed {
                event: FilterEvent::Nothing,
                loss: None,
            };
        }
        if !self.pending.as_slice().is_empty() {
            self.clear();
            return Fed {
                event: FilterEvent::Nothing,
                loss: Some(Loss::Fault(MtaFault::Early)),
            };
        }
        let fed = self.state.feed_piece(&mut self.splitter, piece);
        if fed.loss.is_none() {
            return fed;
        }
        self.state.end(&fed.event);
        self.splitter.clear();
        fed
    }

    /// Frees the room for one packet where no byte of a packet is unread, as on a connection that is idle; else it does
    /// nothing. Doesn't allocate.
    pub fn release(&mut self)
        ensures { self.new ≡ self.old }
    {
        self.splitter.release();
    }

    /// Gives the connection up: no reply is expected, nothing is pending, and no edits are left. Doesn't allocate.
    pub fn clear(&mut self)
        ensures { self.new ≡ cleared self.old }
    {
        self.state.expect_nothing();
        self.state.clear_edits();
        self.pending.clear();
        self.splitter.clear();
    }
}
