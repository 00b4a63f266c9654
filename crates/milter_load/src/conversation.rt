//! One connection of a load.

use crate::outcome::{Cause, Settled};
use crate::schedule::Schedule;
use crate::step::Step;
use crate::timed::Timed;
use crate::totals::Totals;
use milter_mail::{Message, Session};
use milter_mta_connection::{CallFault, CallOutcome, FilterEvent, MtaConnection, Want};
use milter_mta_outcome::{Loss, is_refusal};
use milter_protocol::is_final_at;
use milter_wire::{NoMemory, Options, Stage, Verdict};
use std::alloc::Global;

/// What became of going on with a connection that wants a command.
#[derive(Clone, Copy)]
pub enum Advance {
    /// A command was called for, or left out: there is something to be sent, or the next command.
    Called,
    /// No message is due.
    Idle,
    /// The connection is quit: what is pending is to be sent, and then it is to be closed.
    Quit,
    /// It was lost.
    Lost,
}

/// What a connection has before it when something happens: the session that is played, and the time.
#[derive(Clone, Copy)]
pub struct Moment<'s> {
    /// The session.
    pub session: &'s Session,
    /// The time, in microseconds since the load began.
    pub now: u64,
}

/// A connection to a filter, on which a session is played: its client once, and its messages again and again.
#[derive(Drop)]
pub struct Conversation {
    connection: MtaConnection,
    step: Step,
    // The number of the message, from 0.
    message: usize,
    // How many of its recipients were refused.
    refused: usize,
    // When the message that is under way was due.
    due: Option<u64>,
    // What the next command counts from, where that isn't the time at which it is sent.
    from: Option<u64>,
    // What a reply is awaited to, and since when.
    awaited: Option<(Timed, u64)>,
    // What each message becomes by a verdict on the client.
    client_over: Option<Settled>,
}

impl Conversation {
    /// A connection that was just made, at this time: the offer is pending. The messages begin with this one.
    pub fn new(alloc: Global, offer: Options, message: usize, now: u64) -> Result<Self, NoMemory> {
        Ok(Conversation {
            connection: MtaConnection::new(alloc, offer)?,
            step: Step::Connect,
            message,
            refused: 0,
            due: None,
            from: None,
            awaited: Some((Timed::Negotiation, now)),
            client_over: None,
        })
    }

    /// What is to be done next. Doesn't allocate.
    pub fn want(&self) -> Want {
        self.connection.want()
    }

    /// The bytes that wait to be sent. Doesn't allocate.
    pub fn pending(&self) -> &[u8] {
        self.connection.pending()
    }

    /// Whether options were negotiated. Doesn't allocate.
    pub fn is_negotiated(&self) -> bool {
        self.connection.negotiated().is_some()
    }

    /// Notes that so many bytes of what is pending were sent, at most all. Doesn't allocate.
    pub fn sent(&mut self, count: usize, totals: &mut Totals) {
        let count = count.min(self.connection.pending().len());
        self.connection.sent(count);
        totals.sent = totals.sent.saturating_add(count as u64);
    }

    /// Takes a piece of what the filter sent, all of it. The connection is to be closed where that is a loss.
    pub fn feed(&mut self, piece: &[u8], now: u64, totals: &mut Totals) -> Result<(), Loss> {
        totals.received = totals.received.saturating_add(piece.len() as u64);
        let fed = self.connection.feed(piece);
        match &fed.event {
            FilterEvent::Nothing | FilterEvent::InProgress => {}
            FilterEvent::Negotiated => self.on_reply(now, totals),
            FilterEvent::Verdict(verdict) => {
                self.on_verdict(verdict, now, totals);
            }
        }
        match fed.loss {
            Some(loss) => {
                self.lost(Cause::of_loss(loss), now, totals);
                Err(loss)
            }
            None => Ok(()),
        }
    }

    /// The filter is lost: the message that is under way is settled by default. Doesn't allocate.
    pub fn lost(&mut self, cause: Cause, now: u64, totals: &mut Totals) {
        self.connection.lost();
        if self.due.take().is_some() {
            totals.on_default(cause, now);
        }
    }

    /// Goes on where the connection wants a command: with the next one of the message that is under way, or with the
    /// next message, where one is due.
    pub fn advance(
        &mut self,
        moment: Moment<'_>,
        schedule: &mut Schedule,
        totals: &mut Totals,
    ) -> Advance {
        let Some(message) = moment.session.messages().get(self.message) else {
            self.message = 0;
            return if moment.session.messages().is_empty() {
                self.quit(moment.now, totals)
            } else {
                Advance::Called
            };
        };
        if self.step == Step::Mail && self.due.is_none() {
            return self.begin(message, moment, schedule, totals);
        }
        if self.step == Step::Data && self.refused >= message.recipients().len() {
            return self.give_up(moment.now, totals);
        }
        self.call(message, moment, totals)
    }

    /// Begins the next message, where one is due.
    fn begin(
        &mut self,
        message: &Message,
        moment: Moment<'_>,
        schedule: &mut Schedule,
        totals: &mut Totals,
    ) -> Advance {
        let Some(due) = schedule.begin(moment.now) else {
            return if schedule.is_over() {
                self.quit(moment.now, totals)
            } else {
                Advance::Idle
            };
        };
        self.due = Some(due);
        self.refused = 0;
        if let Some(settled) = self.client_over {
            self.settle(settled, moment.now, totals);
            return self.quit(moment.now, totals);
        }
        self.from = Some(due);
        self.call(message, moment, totals)
    }

    /// Calls for the next command.
    fn call(&mut self, message: &Message, moment: Moment<'_>, totals: &mut Totals) -> Advance {
        let step = self.step;
        match step.call(&mut self.connection, moment.session, message) {
            Ok(CallOutcome::VerdictDue) => {
                let since = self.from.take().unwrap_or(moment.now);
                self.awaited = Some((Timed::Command(step.stage()), since));
            }
            Ok(CallOutcome::LeftOut | CallOutcome::NoReply) => {}
            Err(fault) => return self.on_fault(fault, moment.now, totals),
        }
        self.step = step.next(message);
        if self.step == Step::Mail && step == Step::End && self.awaited.is_none() {
            self.settle(Settled::Released, moment.now, totals);
        }
        Advance::Called
    }

    /// Gives up a message of which each recipient was refused.
    fn give_up(&mut self, now: u64, totals: &mut Totals) -> Advance {
        self.settle(Settled::NoRecipients, now, totals);
        match self.connection.abort() {
            Ok(_) => Advance::Called,
            Err(fault) => self.on_fault(fault, now, totals),
        }
    }

    /// Quits the connection, which wants a command.
    pub fn quit(&mut self, now: u64, totals: &mut Totals) -> Advance {
        match self.connection.quit() {
            Ok(_) => Advance::Quit,
            Err(fault) => self.on_fault(fault, now, totals),
        }
    }

    /// A call was refused: the connection is given up.
    fn on_fault(&mut self, fault: CallFault, now: u64, totals: &mut Totals) -> Advance {
        let cause = match fault {
            CallFault::NoMemory => Cause::Memory,
            _ => Cause::Fault,
        };
        self.lost(cause, now, totals);
        Advance::Lost
    }

    /// The reply that is awaited has come.
    fn on_reply(&mut self, now: u64, totals: &mut Totals) {
        if let Some((timed, since)) = self.awaited.take() {
            totals.record(timed, now.saturating_sub(since));
        }
    }

    /// A verdict has come.
    fn on_verdict(&mut self, verdict: &Verdict, now: u64, totals: &mut Totals) {
        let Some((Timed::Command(stage), _)) = self.awaited else {
            return;
        };
        self.on_reply(now, totals);
        if !is_final_at(stage, verdict) {
            if stage == Stage::Rcpt && is_refusal(verdict) {
                self.refused = self.refused.saturating_add(1);
            }
            return;
        }
        let settled = Settled::of_verdict(stage, verdict);
        if matches!(stage, Stage::Connect | Stage::Helo) {
            self.client_over = Some(settled);
            self.step = Step::Mail;
        } else {
            self.settle(settled, now, totals);
        }
    }

    /// The message that is under way is settled so; the next one follows.
    fn settle(&mut self, settled: Settled, now: u64, totals: &mut Totals) {
        if let Some(due) = self.due.take() {
            totals.record(Timed::Message, now.saturating_sub(due));
            totals.on_settled(settled, now);
        }
        self.step = Step::Mail;
        self.message = self.message.saturating_add(1);
    }
}
