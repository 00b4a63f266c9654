//! A message under way to a filter.

ghost use Rattle.std.specs.Prelude.{◌≡◌, ◌≢◌, ◌≤◌, ◌+◌, [], IfOk, IfSome, Ok, OnErr, OnOk, Some, drop, false, length, option_map, true};
ghost use Rattle.milter_message.specs.declared.message.TheConstants.{WEIGHT_MAX};
ghost use Rattle.milter_wire.specs.declared.stage.Stage.{Stage as StageValue};
ghost use Rattle.milter_wire.specs.BorrowedCommand.{command_of};
ghost use Rattle.milter_wire.specs.Verdicts.{given_at};
ghost use Rattle.milter_mta_outcome.specs.OutgoingValue.{outgoing};
ghost use Rattle.milter_mta_outcome.specs.PlanCursor.{steps_from};
ghost use Rattle.milter_mta_outcome.specs.Transactions.{IsThere, Sends, asks_first, first_of, left_of, outgoing_transaction, stage_first};
ghost use Rattle.milter_mta_outcome.specs.TransactionVerdicts.{are_all_refused, ends_dialogue, left_after, with_verdict};

use crate::acted_verdicts::{ActedVerdicts, act, are_refused};
use crate::plan_cursor::{
    ClientInfo, Cursor, OutgoingRef, after_body, first_command, first_from, has_recipient, next,
};
use milter_mail::{Macros, Message};
use milter_protocol::is_final_at;
use milter_wire::{CommandRef, Negotiated, NoMemory, Stage, Verdict};

/// A message under way to a filter, by what was negotiated with it.
#[derive(Debug, Drop)]
pub struct Transaction {
    /// What was negotiated.
    pub negotiated: Negotiated,
    /// The macros that the filter asked for.
    pub macros: Macros,
    /// The message.
    pub message: Message,
    /// The verdicts that were acted on, in order: those on the client and its greeting first.
    pub acted: ActedVerdicts,
    /// The next command, or one of those before it that aren't sent.
    pub cursor: Cursor,
}

impl Transaction {
    /// The message, of which the commands from this stage on are sent after these verdicts. Doesn't allocate.
    pub fn new(
        negotiated: Negotiated,
        macros: Macros,
        message: Message,
        acted: ActedVerdicts,
        stage: Stage,
    ) -> Self
        ensures { result ≡ record {
          negotiated = negotiated;
          macros = macros;
          message = message;
          acted = acted;
          cursor = record { stage = stage; step = 0 };
        } }
    {
        Transaction {
            negotiated,
            macros,
            message,
            acted,
            cursor: Cursor { stage, step: 0 },
        }
    }

    /// What is sent of the message.
    fn outgoing<'a>(&'a self, client_info: &'a ClientInfo) -> OutgoingRef<'a>
        ensures { outgoing result ≡ outgoing_transaction client_info.now self.now }
    {
        OutgoingRef {
            negotiated: &self.negotiated,
            macros: &self.macros,
            client: &client_info.client,
            helo: &client_info.helo,
            message: &self.message,
        }
    }

    /// The next command; none after the last one. Doesn't allocate.
    pub fn command<'a>(&'a self, client_info: &'a ClientInfo) -> Option<CommandRef<'a>>
        ensures { option_map command_of result ≡ first_of (left_of client_info.now self.now) }
    {
        first_command(&self.outgoing(client_info), self.cursor)
    }

    /// Passes over what isn't sent, up to the next command, and answers its stage; none for macros, and where no
    /// command is left. Doesn't allocate.
    pub fn find(&mut self, client_info: &ClientInfo) -> Option<Stage>
        requires { Sends client_info.now self.old }
        ensures stage { result ≡ stage_first (left_of client_info.now self.old) }
        ensures there { IfSome result (λ stage. IsThere client_info.now self.new) }
        ensures left { left_of client_info.now self.new ≡ left_of client_info.now self.old }
        ensures same { self.new ≡ record self.old { cursor = self.new.cursor } }
        ensures sends { Sends client_info.now self.new }
    {
        let first = first_from(&self.outgoing(client_info), self.cursor)?;
        self.cursor = first.at;
        first.stage
    }

    /// Whether the filter answers the next command, which is found. Doesn't allocate.
    pub fn is_asked(&mut self, client_info: &ClientInfo) -> bool
        requires { Sends client_info.now self.old }
        ensures asks { result ≡ asks_first self.old.negotiated (left_of client_info.now self.old) }
        ensures left { left_of client_info.now self.new ≡ left_of client_info.now self.old }
        ensures same { self.new ≡ record self.old { cursor = self.new.cursor } }
        ensures sends { Sends client_info.now self.new }
    {
        match self.find(client_info) {
            Some(stage) => self.negotiated.is_answered(stage),
            None => false,
        }
    }

    /// The cursor after the next command, on which it stands.
    fn cursor_after(&self, client_info: &ClientInfo) -> Cursor
        requires sends { Sends client_info.now self.now }
        requires some { left_of client_info.now self.now ≢ [] }
        requires there { IsThere client_info.now self.now }
        ensures left { steps_from (outgoing_transaction client_info.now self.now) result.stage result.step
            ≡ drop 1 (left_of client_info.now self.now) }
        ensures stage { (stage : StageValue) → stage_first (left_of client_info.now self.now) ≡ Some stage →
            result.stage ≡ stage }
        ensures room { result.step + length (drop 1 (left_of client_info.now self.now)) ≤ WEIGHT_MAX }
    {
        next(&self.outgoing(client_info), self.cursor)
    }

    /// The cursor after the next command; the same where none is left.
    fn cursor_past(&self, client_info: &ClientInfo) -> Cursor
        requires { Sends client_info.now self.now }
        ensures left { steps_from (outgoing_transaction client_info.now self.now) result.stage result.step
            ≡ drop 1 (left_of client_info.now self.now) }
        ensures room { result.step + length (drop 1 (left_of client_info.now self.now)) ≤ WEIGHT_MAX }
    {
        let of = self.outgoing(client_info);
        match first_from(&of, self.cursor) {
            Some(first) => next(&of, first.at),
            None => self.cursor,
        }
    }

    /// Goes on to the command after the next one. Doesn't allocate.
    pub fn advance(&mut self, client_info: &ClientInfo)
        requires { Sends client_info.now self.old }
        ensures left { left_of client_info.now self.new ≡ drop 1 (left_of client_info.now self.old) }
        ensures same { self.new ≡ record self.old { cursor = self.new.cursor } }
        ensures sends { Sends client_info.now self.new }
    {
        self.cursor = self.cursor_past(client_info);
    }

    /// Whether each recipient was refused, after a verdict at this stage.
    fn are_all_refused(&self, client_info: &ClientInfo, stage: Stage) -> bool
        requires { stage ≡ StageValue.Rcpt → self.now.cursor.stage ≡ StageValue.Rcpt }
        ensures { result ≡ are_all_refused stage self.now.acted (left_of client_info.now self.now) }
    {
        stage == Stage::Rcpt
            && !has_recipient(&self.outgoing(client_info), self.cursor)
            && are_refused(self.acted.as_slice())
    }

    /// Acts on a verdict on the next command, which is of this stage and was found, and answers whether nothing more of
    /// the message is sent. Where it goes on, it goes on to the command after that, or after the whole body where it is
    /// skipped. After `NoMemory` it is as it was.
    pub fn act(
        &mut self,
        client_info: &ClientInfo,
        stage: Stage,
        verdict: Verdict,
    ) -> Result<bool, NoMemory>
        requires sends { Sends client_info.now self.old }
        requires stage { stage_first (left_of client_info.now self.old) ≡ Some stage }
        requires there { IsThere client_info.now self.old }
        requires given { given_at verdict stage ≡ true }
        ensures ends { IfOk result (λ ends. ends ≡ ends_dialogue stage verdict self.new.acted
            (drop 1 (left_of client_info.now self.old))) }
        ensures acted { OnOk result (self.new.acted ≡ with_verdict stage verdict self.old.acted) }
        ensures left { result ≡ Ok false →
            left_of client_info.now self.new ≡ left_after verdict (drop 1 (left_of client_info.now self.old)) }
        ensures sends { Sends client_info.now self.new }
        ensures same { self.new ≡ record self.old { acted = self.new.acted; cursor = self.new.cursor } }
        ensures err { OnErr result (self.new ≡ self.old) }
    {
        let is_final = is_final_at(stage, &verdict);
        let skips = matches!(verdict, Verdict::Skip);
        act(&mut self.acted, stage, verdict)?;
        self.cursor = self.cursor_after(client_info);
        if is_final || self.are_all_refused(client_info, stage) {
            return Ok(true);
        }
        if skips {
            self.cursor = after_body(&self.outgoing(client_info), self.cursor);
        }
        Ok(false)
    }
}
