//! How a message is settled by the last verdict on it.

ghost use Rattle.std.specs.Prelude.{◌≡◌, ◌≢◌, ◌<◌, ◌≤◌, ◌-◌, ◌⊎◌, ◌++◌, ◌∷◌, [], All, IfErr, IfOk, List, None, OnOk, Some, length};
ghost use Rattle.milter_mta_outcome.specs.declared.acted_verdicts.Acted.{Acted as ActedValue};
ghost use Rattle.milter_mta_outcome.specs.Outcomes.{at_connection, fallback};
ghost use Rattle.milter_mta_outcome.specs.ReceivedReplies.{is_end};
ghost use Rattle.milter_message.specs.EditReplies.{reply_of};
ghost use Rattle.milter_wire.specs.declared.stage.Stage.{Stage as StageValue};
ghost use Rattle.milter_wire.specs.Reply.{Fits};
ghost use Rattle.milter_mta_outcome.specs.TransactionVerdicts.{on_connection};
ghost use Rattle.milter_mail.specs.ChosenMacros.{chosen_macros};
ghost use Rattle.milter_mta.specs.declared.state.Position.TheVariants as parts;
ghost use Rattle.milter_mta.specs.CoreParts.{IsConsistent, IsConsistentAfter, IsLostBeforeLast, begun_position, messages_at, mta_at, only, position_of, session_of, unconnected, with_all_reports, with_state_report};
ghost use Rattle.milter_mta.specs.Dispositions.{after_message, default_report, report, settled, settled_all, settled_first};

use crate::state::{FilterConnection, Position, SessionState};
use milter_mail::{Macros, Message};
use milter_mta_outcome::{
    ActedVerdicts, By, Loss, Report, Transaction, begin_acted, copy_acted, fall_back, kept_message,
    outcome_at_connection, outcome_of, without_last,
};
use milter_protocol::Answer;
use milter_wire::{Negotiated, NoMemory, Stage, Verdict};

/// Whether the stage is the end of a message.
fn is_end(stage: Stage) -> bool
    ensures { result ≡ is_end stage }
{
    matches!(stage, Stage::Eob)
}

impl SessionState {
    /// Settles a message under way, or each that is left, by the answer to its last command, which is of this stage.
    /// The verdict is the last that was acted on. Where memory is refused the filter is lost before that verdict.
    pub(crate) fn settle(
        &mut self,
        filter_connection: &mut FilterConnection,
        transaction: Transaction,
        stage: Stage,
        answer: Answer,
    ) -> Result<(), Loss>
        requires consistent { IsConsistent self.old (Some (only (parts.Sending transaction))) }
        requires fit { All (λ edit. Fits (reply_of edit)) answer.edits }
        ensures settled { OnOk result (mta_at self.new filter_connection.new
            ≡ settled transaction.negotiated stage answer.edits answer.verdict transaction.acted
            (mta_at self.old (only (parts.Sending transaction)))) }
        ensures refused { IfErr result (λ loss. loss ≡ Loss.Memory) }
        ensures lost { IfErr result (λ loss. IsLostBeforeLast stage answer.verdict transaction self.old self.new) }
        ensures consistent { IsConsistentAfter self.new filter_connection.new result }
    {
        match stage {
            Stage::Connect | Stage::Helo => self.settle_all(
                filter_connection,
                transaction,
                answer.verdict,
            ),
            _ => self.settle_first(filter_connection, transaction, stage, answer),
        }
    }

    /// A message is settled by default before the last verdict on it, as memory was refused.
    fn refuse_last(&mut self, message: Message, acted: ActedVerdicts) -> Loss
        requires { 0 < self.old.queue.spare }
        ensures loss { result ≡ Loss.Memory }
        ensures state { (before : List ActedValue) (last : ActedValue) → acted ≡ before ++ last ∷ [] →
            self.new ≡ with_state_report
            (default_report self.old.config.on_loss Loss.Memory message before) self.old }
        ensures same { self.new ≡ record self.old {
          queue = record self.old.queue {
            reports = self.new.queue.reports;
            spare = self.old.queue.spare - 1;
          };
        } }
    {
        self.settle_by_default(message, without_last(acted), Loss::Memory);
        Loss::Memory
    }

    /// A message of which the refused recipients are gone is settled by default before the last verdict on it, as
    /// memory was refused.
    fn refuse_kept(&mut self, kept: Message, acted: ActedVerdicts) -> Loss
        requires { 0 < self.old.queue.spare }
        ensures loss { result ≡ Loss.Memory }
        ensures state { (before : List ActedValue) (last : ActedValue) → acted ≡ before ++ last ∷ [] →
            self.new ≡ with_state_report
            (report before (fallback self.old.config.on_loss kept) (By.Default Loss.Memory)) self.old }
        ensures same { self.new ≡ record self.old {
          queue = record self.old.queue {
            reports = self.new.queue.reports;
            spare = self.old.queue.spare - 1;
          };
        } }
    {
        let outcome = fall_back(self.config.on_loss(), kept, &[]);
        self.queue.add_report(Report {
            acted: without_last(acted),
            outcome,
            settled_by: By::Default(Loss::Memory),
        });
        Loss::Memory
    }

    /// The verdicts with which the next message that waits begins, copied in a list of its own. Doesn't allocate where
    /// none waits.
    fn opened_next(&mut self, acted: &ActedVerdicts) -> Result<ActedVerdicts, NoMemory>
        ensures opened { self.old.queue.waiting ≢ [] → IfOk result (λ opened. opened ≡ on_connection acted.now) }
        ensures same { self.new ≡ self.old }
    {
        if self.queue.len() == 0 {
            return Ok(ActedVerdicts::new(Vec::new(self.alloc)));
        }
        let reserved = self.queue.take_roomy(self.alloc);
        match begin_acted(self.alloc, reserved, acted.as_slice()) {
            Ok(opened) => Ok(opened),
            Err(reserved) => {
                self.queue.give_back(reserved);
                Err(NoMemory)
            }
        }
    }

    /// Settles the message under way by the answer to its last command, which is of this stage, and goes on to the next
    /// one.
    fn settle_first(
        &mut self,
        filter_connection: &mut FilterConnection,
        transaction: Transaction,
        stage: Stage,
        answer: Answer,
    ) -> Result<(), Loss>
        requires consistent { IsConsistent self.old (Some (only (parts.Sending transaction))) }
        requires fit { All (λ edit. Fits (reply_of edit)) answer.edits }
        ensures settled { OnOk result (mta_at self.new filter_connection.new
            ≡ settled_first transaction.negotiated stage answer.edits answer.verdict transaction.acted
            (mta_at self.old (only (parts.Sending transaction)))) }
        ensures refused { IfErr result (λ loss. loss ≡ Loss.Memory) }
        ensures lost { IfErr result (λ loss. IsLostBeforeLast stage answer.verdict transaction self.old self.new) }
        ensures consistent { IsConsistentAfter self.new filter_connection.new result }
    {
        let Transaction {
            negotiated,
            macros,
            message,
            acted,
            ..
        } = transaction;
        let Ok(opened) = self.opened_next(&acted) else {
            return Err(self.refuse_last(message, acted));
        };
        let kept = kept_message(message, acted.as_slice());
        match outcome_of(
            self.alloc,
            negotiated.has_leading_space(),
            stage,
            answer,
            kept,
        ) {
            Ok(outcome) => {
                self.queue.add_report(Report {
                    acted,
                    outcome,
                    settled_by: By::Filter,
                });
                *filter_connection = self.next_transaction(negotiated, macros, opened, stage);
                Ok(())
            }
            Err(kept) => {
                self.queue.give_back(opened.into_vec());
                Err(self.refuse_kept(kept, acted))
            }
        }
    }

    /// Gives back the reserved lists of copies that aren't needed. Doesn't allocate.
    fn give_back_all(&mut self, copies: Vec<ActedVerdicts>)
        ensures { self.new ≡ self.old }
    {
        let mut copies = copies;
        while let Some(copy) = copies.pop() {
            self.queue.give_back(copy.into_vec());
        }
    }

    /// Copies of the verdicts, one for each message that waits, each in the reserved list of one. After `NoMemory` each
    /// message has its reserved list.
    fn copies(&mut self, acted: &ActedVerdicts) -> Result<Vec<ActedVerdicts>, NoMemory>
        ensures len { IfOk result (λ copies. length copies.items ≡ length self.old.queue.waiting) }
        ensures equal { IfOk result (λ copies. All (λ copy. copy ≡ acted.now) copies.items) }
        ensures same { self.new ≡ self.old }
    {
        let count = self.queue.len();
        let mut copies = Vec::with_capacity(self.alloc, count)?;
        while copies.len() < count {
            let reserved = self.queue.take_reserved(self.alloc);
            match copy_acted(self.alloc, reserved, acted.as_slice()) {
                Ok(copy) => copies.push(copy)?,
                Err(reserved) => {
                    self.queue.give_back(reserved);
                    self.give_back_all(copies);
                    return Err(NoMemory);
                }
            }
        }
        Ok(copies)
    }

    /// Settles a message by a verdict on the client or its greeting.
    fn report_at_connection(&mut self, message: Message, acted: ActedVerdicts, verdict: &Verdict)
        requires { 0 < self.old.queue.spare }
        ensures { self.new ≡ with_state_report
            (report acted (at_connection verdict.now message) By.Connection) self.old }
    {
        let outcome = outcome_at_connection(verdict, message);
        self.queue.add_report(Report {
            acted,
            outcome,
            settled_by: By::Connection,
        });
    }

    /// Settles every message that waits by a verdict on the client or its greeting; there is a copy of the verdicts
    /// for each.
    fn report_all(&mut self, copies: Vec<ActedVerdicts>, verdict: &Verdict)
        requires room { length self.old.queue.waiting ≤ self.old.queue.spare }
        requires len { length copies.items ≡ length self.old.queue.waiting }
        ensures { (acted : List ActedValue) → All (λ copy. copy ≡ acted) copies.items →
            self.new ≡ with_all_reports acted verdict.now self.old }
    {
        let mut copies = copies;
        while let Some(acted) = copies.pop() {
            if let Some(message) = self.queue.next_message() {
                self.report_at_connection(message, acted, verdict);
            }
        }
    }

    /// Settles every message by a verdict on the client or its greeting, the last of those on the message under way.
    fn settle_all(
        &mut self,
        filter_connection: &mut FilterConnection,
        transaction: Transaction,
        verdict: Verdict,
    ) -> Result<(), Loss>
        requires { IsConsistent self.old (Some (only (parts.Sending transaction))) }
        ensures settled { OnOk result (mta_at self.new filter_connection.new
            ≡ settled_all verdict transaction.acted (mta_at self.old (only (parts.Sending transaction)))) }
        ensures refused { IfErr result (λ loss. loss ≡ Loss.Memory) }
        ensures lost { IfErr result (λ loss. (before : List ActedValue) (last : ActedValue) →
            transaction.acted ≡ before ++ last ∷ [] →
            self.new ≡ with_state_report
            (default_report self.old.config.on_loss Loss.Memory transaction.message before) self.old) }
        ensures consistent { IsConsistentAfter self.new filter_connection.new result }
    {
        let Transaction { message, acted, .. } = transaction;
        let Ok(copies) = self.copies(&acted) else {
            return Err(self.refuse_last(message, acted));
        };
        self.report_at_connection(message, acted, &verdict);
        self.report_all(copies, &verdict);
        self.connection = Some(verdict);
        *filter_connection = FilterConnection::at(Position::Quitting);
        Ok(())
    }

    /// The first message that waits is under way from this stage on, after these verdicts; the connection ends where
    /// none waits. Doesn't allocate.
    pub(crate) fn begin(
        &mut self,
        negotiated: Negotiated,
        macros: Macros,
        acted: ActedVerdicts,
        stage: Stage,
    ) -> Position
        requires consistent { IsConsistent self.old None }
        requires chosen { macros ≡ chosen_macros negotiated.lists self.old.client_info.macros }
        requires stage { (stage ≡ StageValue.Connect) ⊎ (stage ≡ StageValue.Mail) }
        ensures position { position_of self.new.client_info [] result ≡ begun_position stage negotiated acted
            (session_of self.old.client_info self.old.queue.waiting) self.old.queue.waiting }
        ensures messages { messages_at result ++ self.new.queue.waiting ≡ self.old.queue.waiting }
        ensures same { self.new
            ≡ record self.old { queue = record self.old.queue { waiting = self.new.queue.waiting } } }
        ensures consistent { IsConsistent self.new (Some (only result)) }
    {
        match self.queue.next_message() {
            Some(message) => {
                Position::Sending(Transaction::new(negotiated, macros, message, acted, stage))
            }
            None => Position::Quitting,
        }
    }

    /// The next message is under way from its sender on, after these verdicts on the client; the last one ended at this
    /// stage. Doesn't allocate.
    fn next_transaction(
        &mut self,
        negotiated: Negotiated,
        macros: Macros,
        opened: ActedVerdicts,
        stage: Stage,
    ) -> FilterConnection
        requires consistent { IsConsistent self.old None }
        requires chosen { macros ≡ chosen_macros negotiated.lists self.old.client_info.macros }
        ensures next { mta_at self.new result ≡ record (unconnected self.old []) {
          filter_connection = Some (after_message negotiated opened (unconnected self.old []).session stage);
        } }
        ensures consistent { IsConsistent self.new (Some result) }
    {
        FilterConnection {
            aborts: !is_end(stage),
            position: self.begin(negotiated, macros, opened, Stage::Mail),
        }
    }
}
