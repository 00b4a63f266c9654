//! A filter's end of a connection, apart from what the filter wants.

ghost use Rattle.std.specs.Prelude.{◌≡◌, ◌≢◌, ◌≤◌, ◌++◌, [], All, IfErr, IfOk, None, OnErr, OnOk, Some, drop, length};
ghost use Rattle.milter_message.specs.EditReplies as asked_by;
ghost use Rattle.milter_wire.specs.declared.stage.Stage.{Stage as At};
ghost use Rattle.milter_wire.specs.Reply as wire_replies;
ghost use Rattle.milter_wire.specs.Verdicts as given;
ghost use Rattle.milter_protocol.specs.declared.filter_fault.FilterFault.TheVariants as faults;
ghost use Rattle.milter_protocol.specs.declared.filter_fault.FilterState.TheVariants.{Serving};
ghost use Rattle.milter_protocol.specs.Questions.{IsTaking, ProgressReported, Wanted, answer_step, event_step};
ghost use Rattle.milter_filter_stream.specs.Streams.{received_in};

use crate::asker::Asker;
use crate::pieces::feed_piece;
use crate::policy::Policy;
use crate::seen::{Search, Seen};
use crate::wants::WantsRef;
use milter_protocol::{Answer, CommandOrder, FilterFault, FilterState};
use milter_wire::{NoMemory, Splitter, Stage};
use std::alloc::Global;
use std::marker::Model;

/// What the caller of a connection does next, so that it goes on.
#[derive(Clone, Copy, Debug, PartialEq, Eq)]
pub enum NextStep {
    /// It gives bytes of the mail server to `feed`.
    Feed,
    /// It sends what is pending, and says so to `sent`.
    Send,
    /// It answers the question about this stage by `answer`, when it can.
    Answer(Stage),
    /// Nothing: the mail server has quit, or the connection was given up for a fault.
    Done,
}

/// A filter's end of a connection, apart from what the filter wants: the bytes of a packet that isn't whole, what is
/// kept and asked, and the replies that are pending.
#[derive(Drop)]
pub struct FilterStream {
    splitter: Splitter,
    asker: Asker,
    // How many bytes of the replies were sent.
    sent: usize,
}

impl Model for FilterStream {
    ghost use Rattle.std.specs.Prelude.{◌≡◌, ◌≤◌, drop, length};
    ghost use Rattle.milter_protocol.specs.declared.filter_fault.FilterState.TheVariants.{Serving};
    ghost use Rattle.milter_filter_stream.specs.Conversations.{StreamState};
    ghost use Rattle.milter_filter_stream.specs.Asking.{IsUnread};

    ghost Value = { StreamState };

    ghost view = { λ s. record {
      state = s.asker.state;
      unread = s.splitter;
      pending = drop s.sent s.asker.pending;
    } };

    ghost invariant = { λ s. (s.asker.state.order_state.state ≡ Serving → IsUnread s.splitter)
        × (s.sent ≤ length s.asker.pending) };
}

impl FilterStream {
    ghost use Rattle.milter_filter_stream.specs.Conversations.{GivesUpIn, TakesIn, conversation_of, failed_stream, fresh_stream, next_step, stream_by};

    /// Of a connection of which nothing has come. Doesn't allocate.
    pub fn new(alloc: Global, order: CommandOrder) -> Self
        ensures { result ≡ fresh_stream order }
    {
        FilterStream {
            splitter: Splitter::new(alloc),
            asker: Asker::new(alloc, order),
            sent: 0,
        }
    }

    /// Begins again for another connection, of which nothing has come. Doesn't allocate.
    pub fn restart(&mut self, order: CommandOrder)
        ensures { self.new ≡ fresh_stream order }
    {
        self.splitter.clear();
        self.asker.restart(order);
        self.sent = 0;
    }

    /// Gives the connection up, since memory was refused.
    pub fn give_up(&mut self)
        ensures { self.new ≡ failed_stream faults.NoMemory }
    {
        self.asker.fail(FilterFault::NoMemory);
        self.splitter.clear();
        self.sent = 0;
    }

    /// The bytes of replies that are pending.
    pub fn pending(&self) -> &[u8]
        ensures { result.now ≡ self.now.pending }
    {
        &self.asker.pending()[self.sent..]
    }

    /// Drops the first `count` bytes of what is pending, which were sent.
    pub fn sent(&mut self, count: usize)
        requires { count ≤ length self.old.pending }
        ensures { self.new ≡ record self.old { pending = drop count self.old.pending } }
    {
        // No more bytes are sent than there are, so the sum has no overflow.
        let _all = self.asker.pending().len();
        self.sent += count;
    }

    /// How many bytes were taken and not handed out.
    pub fn unread(&self) -> usize
        ensures { result ≡ length self.now.unread }
    {
        self.splitter.unread()
    }

    /// Frees the memory for one packet, where no packet has begun.
    pub fn release(&mut self)
        ensures { self.new ≡ self.old }
    {
        self.splitter.release();
    }

    /// Whether it goes on.
    pub fn state(&self) -> FilterState
        ensures { result ≡ self.now.state.order_state.state }
    {
        self.asker.state()
    }

    /// The stage of the question that is open: it is so only while the connection serves.
    pub fn asked(&self) -> Option<Stage>
        ensures asked { result ≡ self.now.state.asked }
        ensures serving { (stage : At) → self.now.state.asked ≡ Some stage →
            self.now.state.order_state.state ≡ Serving }
    {
        self.asker.asked()
    }

    /// What the caller does next, so that it goes on.
    pub fn next_step(&self) -> NextStep
        ensures { result ≡ next_step self.now.pending self.now.state.asked self.now.state.order_state.state }
    {
        if !self.pending().is_empty() {
            return NextStep::Send;
        }
        if let Some(stage) = self.asked() {
            return NextStep::Answer(stage);
        }
        match self.state() {
            FilterState::Serving => NextStep::Feed,
            FilterState::Quit | FilterState::Failed(_) => NextStep::Done,
        }
    }

    /// What is shown.
    pub fn seen(&self) -> &Seen
        ensures { result.now.shown ≡ self.now.state.order_state.shown.seen }
    {
        self.asker.seen()
    }

    /// Searches what is shown, as [`Seen::search`] does.
    pub fn search(&mut self, place: usize, search: Search<'_>)
        ensures { self.new ≡ self.old }
    {
        self.asker.search(place, search);
    }

    /// Has a policy search what is shown for what it is going to look for at the stage.
    pub fn prepare<P: Policy>(&mut self, policy: &P, stage: Stage)
        ensures { self.new ≡ self.old }
    {
        self.asker.prepare(policy, stage);
    }

    /// Takes bytes of a piece, where commands are taken and nothing is pending.
    #[inline(always)]
    pub fn feed(&mut self, wants: &WantsRef<'_>, piece: &[u8]) -> Result<usize, FilterFault>
        requires taking { IsTaking self.old.state }
        requires nothing_pending { self.old.pending ≡ [] }
        ensures takes { IfOk result (λ n. TakesIn (conversation_of wants.now self.old) piece.now n
            (conversation_of wants.now self.new)) }
        ensures gives_up { IfErr result (λ fault. self.new ≡ failed_stream fault) }
        ensures cause { IfErr result (λ fault. fault ≢ faults.NoMemory →
            GivesUpIn wants.now self.old.state (received_in (self.old.unread ++ piece.now)) fault) }
    {
        let FilterStream {
            splitter,
            asker,
            sent,
        } = self;
        asker.clear_pending();
        *sent = 0;
        let taken = match feed_piece(wants, splitter, asker, piece) {
            Ok(taken) => taken,
            Err(fault) => {
                asker.fail(fault);
                return Err(fault);
            }
        };
        if asker.is_serving() {
            return Ok(taken);
        }
        splitter.clear();
        Ok(piece.len())
    }

    /// Answers the question that is open, about this stage, with what keeps the rules. After `NoMemory` nothing has
    /// changed.
    #[inline(always)]
    pub fn answer(&mut self, stage: Stage, answer: Answer) -> Result<(), NoMemory>
        requires asked { self.old.state.asked ≡ Some stage }
        requires edits { All (λ edit. wire_replies.Fits (asked_by.reply_of edit)) answer.edits }
        requires verdict { wire_replies.Fits (given.reply_of answer.verdict) }
        ensures ok { OnOk result (self.new ≡ stream_by self.old (answer_step self.old.state answer)) }
        ensures err { OnErr result (self.new ≡ self.old) }
    {
        self.asker.answer(stage, answer)?;
        Ok(())
    }

    /// Reports progress. After `NoMemory` nothing has changed.
    pub fn put_progress(&mut self) -> Result<(), NoMemory>
        ensures ok { OnOk result ((wanted : Wanted) →
            self.new ≡ stream_by self.old (event_step wanted self.old.state ProgressReported)) }
        ensures err { OnErr result (self.new ≡ self.old) }
    {
        self.asker.put_progress()?;
        Ok(())
    }
}
