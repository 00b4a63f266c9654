//! The messages of a session that are not settled, and the reports of those that are.

ghost use Rattle.std.specs.Prelude.{◌≡◌, ◌<◌, ◌≤◌, ◌-◌, ◌++◌, ◌∷◌, [], IfErr, IfOk, IfSome, None, length, reverse};

use milter_mail::Message;
use milter_mta_outcome::{Acted, Report};
use milter_wire::NoMemory;
use std::alloc::Global;
use std::marker::Model;

/// How many verdicts a reserved list takes without more memory: those on the client and on its greeting.
const RESERVED_LEN: usize = 2;

/// How many verdicts the list of a message under way takes without more memory: those on a message of ten header
/// fields.
const VERDICTS_LEN: usize = 20;

/// The messages of a session that are not settled, and the reports of those that are. The memory for all reports, with
/// room for two verdicts each, is taken at the start.
#[derive(Debug, Drop)]
pub(crate) struct Queue {
    // The last message first.
    waiting: Vec<Message>,
    // For the verdicts on each of these.
    reserved_lists: Vec<Vec<Acted>>,
    reports: Vec<Report>,
}

impl Model for Queue {
    ghost use Rattle.std.specs.Prelude.{◌-◌, reverse};
    ghost use Rattle.std.specs.Vec.{vec_capacity, vec_len};
    ghost use Rattle.milter_mta.specs.Accounts.{Accounts};

    ghost Value = { Accounts };

    ghost view = { λ l. record {
      waiting = reverse l.waiting.items;
      reports = l.reports.items;
      spare = vec_capacity l.reports - vec_len l.reports;
    } };
}

/// Room for two verdicts on each of `count` messages.
fn reserve_lists(alloc: Global, count: usize) -> Result<Vec<Vec<Acted>>, NoMemory> {
    let mut reserved_lists = Vec::with_capacity(alloc, count)?;
    for _ in 0..count {
        reserved_lists.push(Vec::with_capacity(alloc, RESERVED_LEN)?)?;
    }
    Ok(reserved_lists)
}

/// The elements, the last one first. Moves them; doesn't allocate.
fn reversed(messages: Vec<Message>) -> Vec<Message>
    ensures { result.items ≡ reverse messages.items }
{
    let mut messages = messages;
    messages.reverse();
    messages
}

impl Queue {
    /// The messages, of which none is settled. Where memory is refused they come back.
    pub(crate) fn new(alloc: Global, messages: Vec<Message>) -> Result<Self, Vec<Message>>
        ensures waiting { IfOk result (λ queue. queue.waiting ≡ messages.items) }
        ensures reports { IfOk result (λ queue. queue.reports ≡ []) }
        ensures room { IfOk result (λ queue. length messages.items ≤ queue.spare) }
        ensures refused { IfErr result (λ back. back.items ≡ messages.items) }
    {
        let Ok(reserved_lists) = reserve_lists(alloc, messages.len()) else {
            return Err(messages);
        };
        let Ok(reports) = Vec::with_capacity(alloc, messages.len()) else {
            return Err(messages);
        };
        Ok(Queue {
            waiting: reversed(messages),
            reserved_lists,
            reports,
        })
    }

    /// How many messages wait. Doesn't allocate.
    pub(crate) fn len(&self) -> usize
        ensures { result ≡ length self.now.waiting }
    {
        self.waiting.len()
    }

    /// How many messages are settled. Doesn't allocate.
    pub(crate) fn count(&self) -> usize
        ensures { result ≡ length self.now.reports }
    {
        self.reports.len()
    }

    /// The reports, in order. Doesn't allocate.
    pub(crate) fn reports(&self) -> &[Report]
        ensures { result.now ≡ self.now.reports }
    {
        self.reports.as_slice()
    }

    /// The first message that waits, which is under way from now on. Doesn't allocate.
    pub(crate) fn next_message(&mut self) -> Option<Message>
        ensures some { IfSome result (λ message. self.old.waiting ≡ message ∷ self.new.waiting) }
        ensures none { result ≡ None → (self.old.waiting ≡ []) × (self.new ≡ self.old) }
        ensures same { self.new ≡ record self.old { waiting = self.new.waiting } }
    {
        self.waiting.pop()
    }

    /// Room for the verdicts on a message. Doesn't allocate.
    pub(crate) fn take_reserved(&mut self, alloc: Global) -> Vec<Acted>
        ensures same { self.new ≡ self.old }
        ensures empty { result.items ≡ [] }
    {
        let mut reserved = self.reserved_lists.pop().unwrap_or(Vec::new(alloc));
        reserved.clear();
        reserved
    }

    /// Room for the verdicts on the message that is under way next, with memory for all of a small message where it is
    /// given: one allocation in place of four.
    pub(crate) fn take_roomy(&mut self, alloc: Global) -> Vec<Acted>
        ensures same { self.new ≡ self.old }
        ensures empty { result.items ≡ [] }
    {
        let mut verdicts = self.take_reserved(alloc);
        drop(verdicts.reserve(VERDICTS_LEN));
        verdicts
    }

    /// Gives back a reserved list that wasn't needed. Doesn't allocate.
    pub(crate) fn give_back(&mut self, reserved: Vec<Acted>)
        ensures { self.new ≡ self.old }
    {
        if self.reserved_lists.len() < self.reserved_lists.capacity() {
            self.reserved_lists.push_reserved(reserved);
        }
    }

    /// Adds a report as the last. Doesn't allocate.
    pub(crate) fn add_report(&mut self, report: Report)
        requires { 0 < self.old.spare }
        ensures { self.new ≡ record self.old {
          reports = self.old.reports ++ report ∷ [];
          spare = self.old.spare - 1;
        } }
    {
        self.reports.push_reserved(report);
    }

    /// The reports, in order, each to be taken. Doesn't allocate.
    pub(crate) fn into_reports(self) -> Vec<Report>
        ensures { result.items ≡ self.reports }
    {
        self.reports
    }
}
