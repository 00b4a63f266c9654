//! A connection as its host has it while a question is open.

ghost use Rattle.std.specs.Prelude.{◌≡◌, ◌≢◌, Err, IfErr, None, OnErr, OnOk, Some};
ghost use Rattle.milter_wire.specs.declared.stage.Stage.{Stage as At};
ghost use Rattle.milter_protocol.specs.Lawful.{AnswerFits};
ghost use Rattle.milter_filter_stream.specs.declared.answer_fault.AnswerFault.TheVariants as refusals;
ghost use Rattle.milter_filter_stream.specs.AnswerFaults.{Breaks};

use milter_filter::{Answer, AnswerFault, Connection, Policy, Search, Seen, Wants};
use milter_wire::{NoMemory, Stage};
use std::alloc::Global;
use std::marker::Model;

/// A connection as its host has it while a question is open: what is shown, and the answer. A host can't give it turns,
/// begin it again, or report progress: the service does so.
#[derive(Drop)]
pub struct AskedConnection {
    pub(crate) inner: Connection,
}

impl Model for AskedConnection {
    ghost use Rattle.milter_filter.specs.Connections.{Connected};

    ghost Value = { Connected };

    ghost view = { λ c. c.inner };
}

impl AskedConnection {
    ghost use Rattle.milter_filter.specs.Connections.{connected_answered, question_in};

    /// What the filter wants. Doesn't allocate.
    pub fn wants(&self) -> &Wants
        ensures { result.now ≡ self.now.conversation.wanted }
    {
        self.inner.wants()
    }

    /// The stage of the question that is open: none once it is answered. Doesn't allocate.
    pub fn asked(&self) -> Option<Stage>
        ensures { result ≡ question_in self.now }
    {
        self.inner.asked()
    }

    /// What is shown, as [`Connection::seen`] has it. Doesn't allocate.
    pub fn seen(&self) -> &Seen
        ensures { result.now.shown ≡ self.now.conversation.state.order_state.shown.seen }
    {
        self.inner.seen()
    }

    /// Searches what is shown, as [`Seen::search`] does.
    pub fn search(&mut self, place: usize, search: Search<'_>)
        ensures { self.new ≡ self.old }
    {
        self.inner.search(place, search);
    }

    /// Answers the question, as [`Connection::answer`] does: by `NotAsked` where it is answered by now. An error
    /// changes nothing.
    pub fn answer(&mut self, answer: Answer) -> Result<(), AnswerFault>
        ensures ok { OnOk result (self.new ≡ connected_answered self.old answer) }
        ensures fits { OnOk result ((stage : At) → question_in self.old ≡ Some stage → AnswerFits stage answer) }
        ensures refused { OnErr result (self.new ≡ self.old) }
        ensures not_asked { question_in self.old ≡ None → result ≡ Err refusals.NotAsked }
        ensures breaks { (stage : At) → question_in self.old ≡ Some stage →
            IfErr result (λ fault. fault ≢ refusals.NoMemory → Breaks stage answer fault) }
        ensures lawful { (stage : At) → question_in self.old ≡ Some stage → AnswerFits stage answer →
            IfErr result (λ fault. fault ≡ refusals.NoMemory) }
    {
        self.inner.answer(answer)
    }

    /// Answers the question as a policy decides, as [`Connection::answer_by`] does: nothing is done where it is
    /// answered by now. After `NoMemory` nothing has changed.
    pub fn answer_by<P: Policy>(&mut self, alloc: Global, policy: &P) -> Result<(), NoMemory>
        ensures ok { OnOk result ((stage : At) → question_in self.old ≡ Some stage → self.new
            ≡ connected_answered self.old ((P.behavior policy.now).decide stage
            self.old.conversation.state.order_state.shown.seen)) }
        ensures not_asked { question_in self.old ≡ None → self.new ≡ self.old }
        ensures err { OnErr result (self.new ≡ self.old) }
    {
        self.inner.answer_by(alloc, policy)
    }
}
