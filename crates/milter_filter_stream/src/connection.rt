//! What a filter's end keeps of a connection.

ghost use Rattle.std.specs.Prelude.{◌≡◌, ◌≤◌, ◌+◌, ◌↔◌, [], IfSome, IsTrue, Ok, OnOk, Some, length, true, if◌then◌else◌};
ghost use Rattle.std.specs.Option.{option_copied};
ghost use Rattle.milter_wire.specs.Command.{encoding};
ghost use Rattle.milter_wire.specs.BorrowedCommand.{command_of};
ghost use Rattle.milter_protocol.specs.Commands.{is_end_by, is_shown};
ghost use Rattle.milter_protocol.specs.Faults.{fault_in_message, fault_of};
ghost use Rattle.milter_protocol.specs.Aborts.{needs_abort};
ghost use Rattle.milter_filter_stream.specs.Conversations.{unread_after};
ghost use Rattle.milter_protocol.specs.Questions.{counts_late, question_at};
ghost use Rattle.milter_filter_stream.specs.Asking.{effect_at, with_effect};
ghost use Rattle.milter_protocol.specs.OrderStates.{after_client, after_message, after_options, fresh_in, nothing_kept, with_shown};

use crate::commands::{is_greeting_or_sender, is_of_connection, is_shown};
use crate::policy::Policy;
use crate::seen::{Search, Seen};
use milter_message::WEIGHT_MAX;
use milter_protocol::{
    CommandOrder, FilterFault, FilterState, VERSION_MIN, is_final_at, may_follow, rank_of,
};
use milter_wire::{CommandRef, HEAD_LEN, Negotiated, NoMemory, Stage, Verdict};
use std::alloc::Global;
use std::marker::Model;

/// What an answer does to what is kept of a connection.
#[derive(Clone, Copy, Debug, PartialEq, Eq)]
pub(crate) enum AnswerEffect {
    /// All stays as it is.
    Nothing,
    /// The message ends.
    EndsMessage,
    /// The DATA command that was asked about counts from now on.
    CountsData,
}

/// The rank of the last stage from which the next message goes on: at most that of a greeting.
const RANK_OF_GREETING: u8 = 2;
/// The most bytes that may have been shown at once where the memory for them is used again for another connection.
pub(crate) const KEPT_MAX: usize = 65_536;

/// What a filter's end keeps of a connection, all of it bounded by the packets that came.
#[derive(Debug, Drop)]
pub(crate) struct Connection {
    order: CommandOrder,
    negotiated: Option<Negotiated>,
    last_rank: u8,
    seen: Seen,
    shown_bytes: usize,
    connection_bytes: usize,
    // The most bytes that were shown at once.
    most_bytes: usize,
    state: FilterState,
}

impl Model for Connection {
    ghost use Rattle.std.specs.Prelude.{◌≤◌};
    ghost use Rattle.milter_message.specs.declared.message.TheConstants.{WEIGHT_MAX};
    ghost use Rattle.milter_protocol.specs.OrderStates.{OrderState};

    ghost Value = { OrderState };

    ghost view = { λ c. record {
      order = c.order;
      negotiated = c.negotiated;
      last_rank = c.last_rank;
      shown = record { seen = c.seen.shown; bytes = c.shown_bytes };
      connection = record { seen = c.seen.connection; bytes = c.connection_bytes };
      state = c.state;
    } };

    ghost invariant = { λ c. (c.connection_bytes ≤ c.shown_bytes) × (c.shown_bytes ≤ WEIGHT_MAX) };
}

impl Connection {
    /// A connection of which nothing has come. Doesn't allocate.
    pub(crate) fn new(alloc: Global, order: CommandOrder) -> Self
        ensures { result ≡ fresh_in order }
    {
        Connection {
            order,
            negotiated: None,
            last_rank: 0,
            seen: Seen::new(alloc),
            shown_bytes: 0,
            connection_bytes: 0,
            most_bytes: 0,
            state: FilterState::Serving,
        }
    }

    /// Begins again, as a connection of which nothing has come. The memory for what was shown is used again, unless
    /// that was more than 65,536 bytes at once. Doesn't allocate.
    pub(crate) fn restart(&mut self, alloc: Global, order: CommandOrder)
        ensures { self.new ≡ fresh_in order }
    {
        if self.most_bytes > KEPT_MAX {
            self.seen = Seen::new(alloc);
        } else {
            self.seen.restart();
        }
        self.order = order;
        self.negotiated = None;
        self.last_rank = 0;
        self.shown_bytes = 0;
        self.connection_bytes = 0;
        self.most_bytes = 0;
        self.state = FilterState::Serving;
    }

    /// A connection that was given up: nothing is kept but the fault. Doesn't allocate.
    pub(crate) fn failed(alloc: Global, fault: FilterFault) -> Self
        ensures { result ≡ nothing_kept (FilterState.Failed fault) }
    {
        Connection {
            order: CommandOrder::Strict,
            negotiated: None,
            last_rank: 0,
            seen: Seen::new(alloc),
            shown_bytes: 0,
            connection_bytes: 0,
            most_bytes: 0,
            state: FilterState::Failed(fault),
        }
    }

    /// Whether it goes on.
    pub(crate) fn state(&self) -> FilterState
        ensures { result ≡ self.now.state }
    {
        self.state
    }

    /// Whether it takes commands.
    pub(crate) fn is_serving(&self) -> bool
        ensures { IsTrue result ↔ (self.now.state ≡ FilterState.Serving) }
    {
        matches!(self.state, FilterState::Serving)
    }

    /// Whether an abort is due before the command.
    fn needs_abort(&self, command: &CommandRef<'_>) -> bool
        ensures { result
            ≡ needs_abort self.now.order self.now.negotiated self.now.last_rank (Ok (command_of command.now)) }
    {
        match self.order {
            CommandOrder::Strict => false,
            CommandOrder::Lenient => {
                self.negotiated.is_some()
                    && is_greeting_or_sender(command)
                    && self.last_rank > RANK_OF_GREETING
            }
        }
    }

    /// The fault of a command whose packet has `len` bytes, if it is at one.
    pub(crate) fn fault_of(&self, command: &CommandRef<'_>, len: usize) -> Option<FilterFault>
        requires { len ≤ WEIGHT_MAX }
        ensures fault { result
            ≡ fault_of self.now.negotiated self.now.last_rank (len + self.now.shown.bytes) (command_of command.now) }
        // No such fault is one of a length.
        ensures no_length { IfSome result (λ fault. unread_after fault ≡ []) }
    {
        match (&self.negotiated, command) {
            (None, CommandRef::Options(offer)) => {
                (offer.version < VERSION_MIN).then_some(FilterFault::Version)
            }
            (None, CommandRef::Quit) => None,
            (None, _) => Some(FilterFault::NotNegotiated),
            (Some(_), CommandRef::Options(_)) => Some(FilterFault::NegotiatedTwice),
            (Some(_), _) => self.fault_in_message(command, len),
        }
    }

    /// The fault of a command after the options: of its order, or of the amount that is shown with it.
    fn fault_in_message(&self, command: &CommandRef<'_>, len: usize) -> Option<FilterFault>
        requires { len ≤ WEIGHT_MAX }
        ensures fault { result
            ≡ fault_in_message self.now.last_rank (len + self.now.shown.bytes) (command_of command.now) }
        ensures no_length { IfSome result (λ fault. unread_after fault ≡ []) }
    {
        if let Some(stage) = command.stage() {
            if !may_follow(self.last_rank, stage) {
                return Some(FilterFault::OutOfOrder);
            }
        }
        let is_too_much = is_shown(command) && len + self.shown_bytes > WEIGHT_MAX;
        is_too_much.then_some(FilterFault::TooMuch)
    }

    /// What was negotiated.
    pub(crate) fn negotiated(&self) -> Option<&Negotiated>
        ensures { option_copied result ≡ self.now.negotiated }
    {
        self.negotiated.as_ref()
    }

    /// The stage, where the filter is to be asked at it.
    pub(crate) fn question_at(&self, stage: Stage) -> Option<Stage>
        ensures { result ≡ question_at self.now.negotiated (Some stage) }
    {
        match &self.negotiated {
            Some(negotiated) if negotiated.is_answered(stage) => Some(stage),
            _ => None,
        }
    }

    /// What is shown.
    pub(crate) fn seen(&self) -> &Seen
        ensures shown { result.now.shown ≡ self.now.shown.seen }
    {
        &self.seen
    }

    /// Has the policy search what is shown for what it is going to look for at the stage.
    pub(crate) fn prepare<P: Policy>(&mut self, alloc: Global, policy: &P, stage: Stage)
        ensures { self.new ≡ self.old }
    {
        policy.prepare(alloc, stage, &mut self.seen);
    }

    /// Searches what is shown, as [`Seen::search`] does.
    pub(crate) fn search(&mut self, alloc: Global, place: usize, search: Search<'_>)
        ensures { self.new ≡ self.old }
    {
        self.seen.search(alloc, place, search);
    }

    /// Keeps a command that is shown, or none of it; its packet has `len` bytes.
    pub(crate) fn note(
        &mut self,
        alloc: Global,
        command: &CommandRef<'_>,
        len: usize,
    ) -> Result<(), NoMemory>
        requires len { len ≡ length (encoding (command_of command.now)) }
        requires amount { is_shown (command_of command.now) ≡ true → len + self.old.shown.bytes ≤ WEIGHT_MAX }
        ensures ok { OnOk result (self.new ≡ with_shown self.old (command_of command.now)) }
    {
        if !is_shown(command) {
            return Ok(());
        }
        self.seen.note(alloc, command)?;
        if let Some(stage) = command.stage() {
            self.last_rank = rank_of(stage);
        }
        self.shown_bytes += len;
        self.most_bytes = self.most_bytes.max(self.shown_bytes);
        if is_of_connection(command) {
            self.connection_bytes += len;
        }
        Ok(())
    }

    /// Whether DATA isn't counted before the question about it is answered.
    pub(crate) fn counts_late(&self, stage: Stage) -> bool
        ensures { result ≡ counts_late self.now.order self.now.last_rank stage }
    {
        match (stage, self.order) {
            (Stage::DataCmd, CommandOrder::Lenient) => {
                self.last_rank > RANK_OF_GREETING && self.last_rank < rank_of(stage)
            }
            _ => false,
        }
    }

    /// What an answer with this verdict does to what is kept, where the question about this stage is open.
    #[inline(always)]
    pub(crate) fn effect_at(&self, stage: Stage, verdict: &Verdict) -> AnswerEffect
        ensures { result ≡ effect_at self.now stage verdict.now }
    {
        if !self.counts_late(stage) {
            return match is_end_by(stage, verdict) {
                true => AnswerEffect::EndsMessage,
                false => AnswerEffect::Nothing,
            };
        }
        match verdict {
            Verdict::Reject | Verdict::Tempfail | Verdict::Code(_) => AnswerEffect::Nothing,
            Verdict::Accept | Verdict::Discard => AnswerEffect::EndsMessage,
            Verdict::Continue | Verdict::Skip => AnswerEffect::CountsData,
        }
    }

    /// Does this to what is kept.
    #[inline(always)]
    pub(crate) fn apply_effect(&mut self, effect: AnswerEffect)
        requires { effect ≡ AnswerEffect.CountsData → HEAD_LEN + self.old.shown.bytes ≤ WEIGHT_MAX }
        ensures { self.new ≡ with_effect self.old effect }
    {
        match effect {
            AnswerEffect::Nothing => {}
            AnswerEffect::EndsMessage => self.end_message(),
            AnswerEffect::CountsData => {
                self.last_rank = rank_of(Stage::DataCmd);
                self.shown_bytes += HEAD_LEN;
                self.most_bytes = self.most_bytes.max(self.shown_bytes);
            }
        }
    }

    /// Drops what was shown of a message.
    pub(crate) fn end_message(&mut self)
        ensures { self.new ≡ after_message self.old }
    {
        self.seen.end_message();
        self.shown_bytes = self.connection_bytes;
        self.last_rank = self.last_rank.min(RANK_OF_GREETING);
    }

    /// Drops what was shown of a client.
    pub(crate) fn end_client(&mut self)
        ensures { self.new ≡ after_client self.old }
    {
        self.seen.clear();
        self.shown_bytes = 0;
        self.connection_bytes = 0;
        self.last_rank = 0;
    }

    /// Ends the message that is under way, where an abort is due before the command.
    pub(crate) fn end_message_before(&mut self, command: &CommandRef<'_>)
        ensures serving { self.new.state ≡ self.old.state }
        ensures new { self.new ≡ (if needs_abort self.old.order self.old.negotiated self.old.last_rank
            (Ok (command_of command.now)) then after_message self.old else self.old) }
    {
        if self.needs_abort(command) {
            self.end_message();
        }
    }

    /// Sets what was negotiated.
    pub(crate) fn set_negotiated(&mut self, negotiated: Negotiated)
        ensures { self.new ≡ after_options self.old negotiated }
    {
        self.seen.set_leading_space(negotiated.has_leading_space());
        self.negotiated = Some(negotiated);
    }

    /// Ends, since the mail server has quit.
    pub(crate) fn quit(&mut self)
        ensures { self.new ≡ record self.old { state = FilterState.Quit } }
    {
        self.state = FilterState::Quit;
    }
}

/// Whether a message ends at the verdict: at the first two stages none is there yet.
fn is_end_by(stage: Stage, verdict: &Verdict) -> bool
    ensures { result ≡ is_end_by stage verdict.now }
{
    match stage {
        Stage::Connect | Stage::Helo => false,
        stage => is_final_at(stage, verdict),
    }
}
