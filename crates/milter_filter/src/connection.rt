//! A filter's end of a connection over a reader and a writer, whose caller answers its questions.

ghost use Rattle.std.specs.Prelude.{◌≡◌, ◌≢◌, ◌<◌, Err, IfErr, IfSome, None, OnErr, OnOk, Some, length};
ghost use Rattle.milter_wire.specs.declared.stage.Stage.{Stage as At};
ghost use Rattle.milter_wire.specs.declared.stage.Stage.TheVariants.{Eob};
ghost use Rattle.milter_protocol.specs.Lawful.{AnswerFits};
ghost use Rattle.milter_filter_stream.specs.declared.answer_fault.AnswerFault.TheVariants as refusals;
ghost use Rattle.milter_filter_stream.specs.AnswerFaults.{Breaks};
ghost use Rattle.milter_filter.specs.declared.turn.Turn.TheVariants as turns;

use crate::filter_connection::FilterConnection;
use crate::steps::run_turn;
use crate::turn::{Served, Turn};
use milter_fields::ByteQueue;
use milter_filter_stream::{AnswerFault, Policy, Search, Seen, Wants};
use milter_protocol::{Answer, CommandOrder};
use milter_wire::{NoMemory, Stage};
use std::alloc::Global;
use std::io::{Read, Write};
use std::marker::Model;

/// A filter's end of one connection of a mail server, over a reader and a writer that may have to wait. Its owner gives
/// it a turn whenever its socket is ready, and any number of connections take turns in one process. A turn ends at a
/// question, a stage that is to be answered: its owner looks at what is shown, for as long as it likes, and answers;
/// nothing is read before. One that is idle has memory for one packet, 65,540 bytes, and for what is shown; while a
/// question is open, or its peer doesn't read its replies, at most what was read at once is kept beside it.
#[derive(Drop)]
pub struct Connection {
    filter: FilterConnection,
    // What was read and is not taken, since replies are pending or a question is open.
    backlog: ByteQueue,
    ended: Option<Served>,
}

impl Model for Connection {
    ghost use Rattle.std.specs.Prelude.{◌≡◌, None};
    ghost use Rattle.milter_filter.specs.Connections.{Connected, IsServing};

    ghost Value = { Connected };

    ghost view = { λ c. record {
      conversation = c.filter;
      waiting = c.backlog;
      ended = c.ended;
    } };

    ghost invariant = { λ c. c.ended ≡ None → IsServing c.filter };
}

impl Connection {
    ghost use Rattle.milter_filter.specs.Connections.{ReadsWhereDone, TurnsBy, connected_answered, connected_reporting, fresh_connected, question_in};

    /// A connection of which nothing has come, of a filter that wants this, and which takes commands in this order.
    /// Doesn't allocate.
    pub fn new(alloc: Global, wants: Wants, order: CommandOrder) -> Self
        ensures { result ≡ fresh_connected order wants }
    {
        Connection {
            filter: FilterConnection::new(alloc, wants, order),
            backlog: ByteQueue::new(alloc),
            ended: None,
        }
    }

    /// Begins again for another connection, of which nothing has come, by the same wants. Nothing of the former one is
    /// left in it but memory, as [`FilterConnection::restart`] says, and for what is read at once. Doesn't allocate.
    pub fn restart(&mut self, order: CommandOrder)
        ensures { self.new ≡ fresh_connected order self.old.conversation.wanted }
    {
        self.filter.restart(order);
        self.backlog.clear();
        self.ended = None;
    }

    /// Begins again as [`Connection::restart`] does, by these wants. Doesn't allocate.
    pub fn restart_with(&mut self, wants: Wants, order: CommandOrder)
        ensures { self.new ≡ fresh_connected order wants }
    {
        self.filter.restart_with(wants, order);
        self.backlog.clear();
        self.ended = None;
    }

    /// What the filter wants. Doesn't allocate.
    pub fn wants(&self) -> &Wants
        ensures { result.now ≡ self.now.conversation.wanted }
    {
        self.filter.wants()
    }

    /// Frees the memory for one packet, 65,540 bytes, where no packet has begun, and that for what was read at once,
    /// where all of it is taken: for a connection that is idle. It is allocated again when it is needed. Doesn't
    /// allocate.
    pub fn release(&mut self)
        ensures { self.new ≡ self.old }
    {
        self.filter.release();
        self.backlog.release();
    }

    /// The stage of the question that is open: none after the end. Doesn't allocate.
    pub fn asked(&self) -> Option<Stage>
        ensures { result ≡ question_in self.now }
    {
        match self.ended {
            Some(_) => None,
            None => self.filter.asked(),
        }
    }

    /// What is shown: of the connection, and of the message up to the last command that came. Doesn't allocate.
    pub fn seen(&self) -> &Seen
        ensures { result.now.shown ≡ self.now.conversation.state.order_state.shown.seen }
    {
        self.filter.seen()
    }

    /// Searches what is shown, as [`Seen::search`] does.
    pub fn search(&mut self, place: usize, search: Search<'_>)
        ensures { self.new ≡ self.old }
    {
        self.filter.search(place, search);
    }

    /// Answers the question that is open, as [`FilterConnection::answer`] does: the next turns write the packets, for
    /// which it allocates. After the end no question is open. An answer that breaks a rule, and one for which memory is
    /// refused, changes nothing: the question stays open.
    pub fn answer(&mut self, answer: Answer) -> Result<(), AnswerFault>
        ensures ok { OnOk result (self.new ≡ connected_answered self.old answer) }
        // What is sent keeps the rules of the stage.
        ensures fits { OnOk result ((stage : At) → question_in self.old ≡ Some stage → AnswerFits stage answer) }
        ensures refused { OnErr result (self.new ≡ self.old) }
        ensures not_asked { question_in self.old ≡ None → result ≡ Err refusals.NotAsked }
        ensures breaks { (stage : At) → question_in self.old ≡ Some stage →
            IfErr result (λ fault. fault ≢ refusals.NoMemory → Breaks stage answer fault) }
        ensures lawful { (stage : At) → question_in self.old ≡ Some stage → AnswerFits stage answer →
            IfErr result (λ fault. fault ≡ refusals.NoMemory) }
    {
        if self.ended.is_some() {
            return Err(AnswerFault::NotAsked);
        }
        self.filter.answer(answer)
    }

    /// Answers the question that is open as a policy decides, which searches what is shown before: its answer keeps the
    /// rules. Where no question is open it does nothing. It allocates for the packets, and where the policy does. After
    /// `NoMemory` nothing has changed.
    pub fn answer_by<P: Policy>(&mut self, alloc: Global, policy: &P) -> Result<(), NoMemory>
        ensures ok { OnOk result ((stage : At) → question_in self.old ≡ Some stage → self.new
            ≡ connected_answered self.old ((P.behavior policy.now).decide stage
            self.old.conversation.state.order_state.shown.seen)) }
        ensures not_asked { question_in self.old ≡ None → self.new ≡ self.old }
        ensures err { OnErr result (self.new ≡ self.old) }
    {
        if self.ended.is_some() {
            return Ok(());
        }
        self.filter.answer_by(alloc, policy)
    }

    /// Reports progress while the end of a message is asked about: the next turns write a packet with which the mail
    /// server begins anew to wait for the answer, and for which it allocates. After the end no question is open. An
    /// error changes nothing. Source: the libmilter callback documentation (smfi_progress).
    pub fn progress(&mut self) -> Result<(), AnswerFault>
        ensures ok { OnOk result (self.new ≡ connected_reporting self.old) }
        ensures at_end { OnOk result (question_in self.old ≡ Some Eob) }
        ensures refused { OnErr result (self.new ≡ self.old) }
        ensures cause { IfErr result (λ fault. fault ≢ refusals.NoMemory →
            (fault ≡ refusals.NotAtEnd) × (question_in self.old ≢ Some Eob)) }
    {
        if self.ended.is_some() {
            return Err(AnswerFault::NotAtEnd);
        }
        self.filter.progress()
    }

    /// Takes a turn: writes the replies that are pending. Where none is pending any more and no question is open, it
    /// takes what was read before, up to its next question, and writes the replies; and where all of it is taken it
    /// reads once, at most as many bytes as the buffer has, takes them up to their next question, and writes the
    /// replies. While replies are pending or a question is open nothing is read. A call that says `WouldBlock` ends the
    /// turn, any other error the connection, as do refused memory and a fault in what was read; no call that failed is
    /// made again in the same turn. A connection that has ended does nothing more, and says again how it ended. It
    /// allocates for a packet that is cut by the end of what was read, for what is shown, for replies, and for what was
    /// read and is not taken.
    pub fn turn<R: Read, W: Write>(
        &mut self,
        buffer: &mut [u8],
        reader: &mut R,
        writer: &mut W,
    ) -> Turn
        requires room { 0 < length buffer.old }
        ensures turns { self.old.ended ≡ None →
            TurnsBy self.old (R.remaining reader.old) (R.remaining reader.new)
            (W.contents writer.old) (W.contents writer.new) self.new result }
        ensures reads { self.old.ended ≡ None →
            ReadsWhereDone self.old (R.remaining reader.old) (R.remaining reader.new) (W.contents writer.old) }
        ensures asked { (stage : At) → question_in self.old ≡ Some stage →
            R.remaining reader.new ≡ R.remaining reader.old }
        ensures ended { IfSome self.old.ended (λ end. (result ≡ turns.Ended end) × (self.new ≡ self.old)) }
    {
        if let Some(end) = self.ended {
            return Turn::Ended(end);
        }
        let Connection {
            filter,
            backlog,
            ended,
        } = self;
        let end = match run_turn(filter, backlog, buffer, reader, writer) {
            Ok(turn) => return turn,
            Err(end) => end,
        };
        *ended = Some(end);
        Turn::Ended(end)
    }
}
