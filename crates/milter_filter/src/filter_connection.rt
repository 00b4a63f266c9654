//! A filter's end of a connection, whose caller answers its questions.

ghost use Rattle.std.specs.Prelude.{◌≡◌, ◌≢◌, ◌≤◌, ◌++◌, [], Err, IfErr, IfOk, None, Ok, OnErr, OnOk, Some, drop, length};
ghost use Rattle.milter_wire.specs.declared.stage.Stage.{Stage as At};
ghost use Rattle.milter_wire.specs.declared.stage.Stage.TheVariants.{Eob};
ghost use Rattle.milter_protocol.specs.Lawful.{AnswerFits};
ghost use Rattle.milter_protocol.specs.declared.filter_fault.FilterFault.{FilterFault as Fault};
ghost use Rattle.milter_protocol.specs.declared.filter_fault.FilterFault.TheVariants as faults;
ghost use Rattle.milter_protocol.specs.declared.filter_fault.FilterState.TheVariants.{Failed, Quit, Serving};
ghost use Rattle.milter_protocol.specs.Questions.{IsTaking, ProgressReported, event_step};
ghost use Rattle.milter_filter_stream.specs.declared.answer_fault.AnswerFault.TheVariants as refusals;
ghost use Rattle.milter_filter_stream.specs.AnswerFaults.{Breaks};
ghost use Rattle.milter_filter_stream.specs.Streams.{received_in};

use crate::policy::answer_at_once;
use milter_filter_stream::{
    AnswerFault, FilterStream, NextStep, Policy, Search, Seen, Wants, check_answer,
};
use milter_protocol::{Answer, CommandOrder, FilterFault, FilterState};
use milter_wire::{NoMemory, Stage};
use std::alloc::Global;
use std::marker::Model;

/// A filter's end of one connection, whose caller decides. It takes the bytes of a mail server in any pieces, up to a
/// question: a stage that is to be answered. While a question is open it takes no bytes; its caller looks at what is
/// shown, for as long as it likes, and answers. It has the bytes of the replies. It neither reads, writes nor waits.
#[derive(Drop)]
pub struct FilterConnection {
    wants: Wants,
    stream: FilterStream,
}

impl Model for FilterConnection {
    ghost use Rattle.milter_filter_stream.specs.Conversations.{Conversation, conversation_of};

    ghost Value = { Conversation };

    ghost view = { λ c. conversation_of c.wants c.stream };
}

impl FilterConnection {
    ghost use Rattle.milter_filter_stream.specs.Conversations.{GivesUpIn, TakesIn, answered, conversation_by, fresh_conversation, given_up_in, next_step};

    /// A connection of which nothing has come, of a filter that wants this, and which takes commands in this order.
    /// Doesn't allocate.
    pub fn new(alloc: Global, wants: Wants, order: CommandOrder) -> Self
        ensures { result ≡ fresh_conversation order wants }
    {
        FilterConnection {
            wants,
            stream: FilterStream::new(alloc, order),
        }
    }

    /// Begins again for another connection, of which nothing has come, by the same wants. Nothing of the former one is
    /// left in it but memory: for one packet, and what was taken for up to 65,536 bytes that were shown at once and for
    /// as many of replies. Doesn't allocate.
    pub fn restart(&mut self, order: CommandOrder)
        ensures { self.new ≡ fresh_conversation order self.old.wanted }
    {
        self.stream.restart(order);
    }

    /// Begins again as [`FilterConnection::restart`] does, by these wants. Doesn't allocate.
    pub fn restart_with(&mut self, wants: Wants, order: CommandOrder)
        ensures { self.new ≡ fresh_conversation order wants }
    {
        self.wants = wants;
        self.stream.restart(order);
    }

    /// What the filter wants. Doesn't allocate.
    pub fn wants(&self) -> &Wants
        ensures { result.now ≡ self.now.wanted }
    {
        &self.wants
    }

    /// What its caller does next, so that it goes on. Doesn't allocate.
    pub fn next_step(&self) -> NextStep
        ensures { result ≡ next_step self.now.pending self.now.state.asked self.now.state.order_state.state }
    {
        self.stream.next_step()
    }

    /// The bytes of replies that are to be sent. Doesn't allocate.
    pub fn pending(&self) -> &[u8]
        ensures { result.now ≡ self.now.pending }
    {
        self.stream.pending()
    }

    /// Drops the first `count` bytes of what is pending, which were sent. Doesn't allocate.
    pub fn sent(&mut self, count: usize)
        requires { count ≤ length self.old.pending }
        ensures { self.new ≡ record self.old { pending = drop count self.old.pending } }
    {
        self.stream.sent(count);
    }

    /// How many bytes were taken and not handed out: those of a packet that isn't whole yet, or after a length at fault
    /// its four bytes; none after the mail server has quit, and none after any other fault. Doesn't allocate.
    pub fn unread(&self) -> usize
        ensures { result ≡ length self.now.unread }
    {
        self.stream.unread()
    }

    /// Frees the memory for one packet, 65,540 bytes, where no packet has begun: for a connection that is idle. The
    /// next packet that is cut by the end of a piece takes it again. Doesn't allocate.
    pub fn release(&mut self)
        ensures { self.new ≡ self.old }
    {
        self.stream.release();
    }

    /// Whether it goes on. Doesn't allocate.
    pub fn state(&self) -> FilterState
        ensures { result ≡ self.now.state.order_state.state }
    {
        self.stream.state()
    }

    /// The stage of the question that is open: none but while the connection serves. Doesn't allocate.
    pub fn asked(&self) -> Option<Stage>
        ensures asked { result ≡ self.now.state.asked }
        ensures serving { (stage : At) → self.now.state.asked ≡ Some stage →
            self.now.state.order_state.state ≡ Serving }
    {
        self.stream.asked()
    }

    /// What is shown: of the connection, and of the message up to the last command that came. Doesn't allocate.
    pub fn seen(&self) -> &Seen
        ensures { result.now.shown ≡ self.now.state.order_state.shown.seen }
    {
        self.stream.seen()
    }

    /// Searches what is shown, as [`Seen::search`] does.
    pub fn search(&mut self, place: usize, search: Search<'_>)
        ensures { self.new ≡ self.old }
    {
        self.stream.search(place, search);
    }

    /// Takes bytes from the start of a piece of what the mail server sends, and answers how many. While replies are
    /// pending, or a question is open, it takes none. Else it takes bytes up to the end of the first packet that has
    /// replies or a question, or all where none has; after the mail server has quit it takes all and does nothing with
    /// them. After a fault nothing is kept but that and the four bytes of a length at fault, and every later call
    /// answers it again and takes nothing. Source: mfdef.h, and the libmilter callback documentation.
    pub fn feed(&mut self, piece: &[u8]) -> Result<usize, FilterFault>
        ensures failed { (fault : Fault) → self.old.state.order_state.state ≡ Failed fault →
            (result ≡ Err fault) × (self.new ≡ self.old) }
        ensures quit { self.old.state.order_state.state ≡ Quit →
            (result ≡ Ok (length piece.now)) × (self.new ≡ self.old) }
        ensures waits { self.old.state.order_state.state ≡ Serving → self.old.pending ≢ [] →
            (result ≡ Ok 0) × (self.new ≡ self.old) }
        ensures asks { (stage : At) → self.old.state.order_state.state ≡ Serving → self.old.state.asked ≡ Some stage →
            (result ≡ Ok 0) × (self.new ≡ self.old) }
        ensures takes { IsTaking self.old.state → self.old.pending ≡ [] →
            IfOk result (λ n. TakesIn self.old piece.now n self.new) }
        ensures gives_up { self.old.state.order_state.state ≡ Serving →
            IfErr result (λ fault. self.new ≡ given_up_in self.old fault) }
        ensures cause { IsTaking self.old.state → self.old.pending ≡ [] →
            IfErr result (λ fault. fault ≢ faults.NoMemory →
            GivesUpIn self.old.wanted self.old.state (received_in (self.old.unread ++ piece.now)) fault) }
    {
        let FilterConnection { wants, stream } = self;
        match stream.state() {
            FilterState::Failed(fault) => Err(fault),
            FilterState::Quit => Ok(piece.len()),
            FilterState::Serving => {
                if !stream.pending().is_empty() || stream.asked().is_some() {
                    return Ok(0);
                }
                stream.feed(&wants.as_ref(), piece)
            }
        }
    }

    /// Answers the question that is open: the packets of the edits that were negotiated, and of the verdict, are
    /// pending then. An answer that breaks a rule, and one for which memory is refused, changes nothing: the question
    /// stays open.
    pub fn answer(&mut self, answer: Answer) -> Result<(), AnswerFault>
        ensures ok { OnOk result (self.new ≡ answered self.old answer) }
        // What is sent keeps the rules of the stage.
        ensures fits { OnOk result ((stage : At) → self.old.state.asked ≡ Some stage → AnswerFits stage answer) }
        ensures refused { OnErr result (self.new ≡ self.old) }
        ensures not_asked { self.old.state.asked ≡ None → result ≡ Err refusals.NotAsked }
        ensures breaks { (stage : At) → self.old.state.asked ≡ Some stage →
            IfErr result (λ fault. fault ≢ refusals.NoMemory → Breaks stage answer fault) }
        ensures lawful { (stage : At) → self.old.state.asked ≡ Some stage → AnswerFits stage answer →
            IfErr result (λ fault. fault ≡ refusals.NoMemory) }
    {
        let Some(stage) = self.stream.asked() else {
            return Err(AnswerFault::NotAsked);
        };
        if let Err(fault) = check_answer(stage, &answer) {
            return Err(fault);
        }
        self.stream.answer(stage, answer)?;
        Ok(())
    }

    /// Answers the question that is open as a policy decides, whose answers keep the rules; the policy searches what is
    /// shown before. Where no question is open it does nothing. After `NoMemory` nothing has changed.
    pub fn answer_by<P: Policy>(&mut self, alloc: Global, policy: &P) -> Result<(), NoMemory>
        ensures ok { OnOk result ((stage : At) → self.old.state.asked ≡ Some stage → self.new
            ≡ answered self.old ((P.behavior policy.now).decide stage self.old.state.order_state.shown.seen)) }
        ensures not_asked { self.old.state.asked ≡ None → self.new ≡ self.old }
        ensures err { OnErr result (self.new ≡ self.old) }
    {
        let Some(stage) = self.stream.asked() else {
            return Ok(());
        };
        answer_at_once(alloc, policy, &mut self.stream, stage)?;
        Ok(())
    }

    /// Reports progress while the end of a message is asked about: a packet is pending then with which the mail server
    /// begins anew to wait for the answer. An error changes nothing. Source: the libmilter callback documentation
    /// (smfi_progress).
    pub fn progress(&mut self) -> Result<(), AnswerFault>
        ensures ok { OnOk result (self.new
            ≡ conversation_by self.old (event_step self.old.wanted self.old.state ProgressReported)) }
        ensures at_end { OnOk result (self.old.state.asked ≡ Some Eob) }
        ensures refused { OnErr result (self.new ≡ self.old) }
        ensures cause { IfErr result (λ fault. fault ≢ refusals.NoMemory →
            (fault ≡ refusals.NotAtEnd) × (self.old.state.asked ≢ Some Eob)) }
    {
        match self.stream.asked() {
            Some(Stage::Eob) => {}
            _ => return Err(AnswerFault::NotAtEnd),
        }
        self.stream.put_progress()?;
        Ok(())
    }
}
