//! The mail servers that are connected.

ghost use Rattle.std.specs.Prelude.{◌≡◌, ◌≢◌, ◌↔◌, IfOk, None, Ok, Some, option_copied, option_map};
ghost use Rattle.milter_service.specs.declared.mail_servers.Given.TheVariants as givens;

use crate::key::{Key, QuestionKey};
use crate::mail_server::MailServer;
use crate::service_error::ServiceError;
use milter_filter::{Answer, AnswerFault, Seen};
use milter_wire::Verdict;
use slab::Slab;
use std::alloc::Global;
use std::collections::VecDeque;
use std::marker::Model;

/// What became of an answer that was given later.
#[derive(Clone, Copy, Debug, PartialEq, Eq)]
pub enum Given {
    /// It is sent in the connection's next turn.
    Taken,
    /// The connection has ended, or the question isn't open any more. Nothing has changed.
    TooLate,
    /// It breaks this rule, or memory is refused for it: the question stays open. Nothing has changed.
    Refused(AnswerFault),
}

/// The mail servers that are connected: where a host gives its answers later.
#[derive(Drop)]
pub struct MailServers<S: Drop> {
    connected: Slab<MailServer<S>>,
    queue: VecDeque<usize>,
}

impl<S: Drop> Model for MailServers<S> {
    ghost use Rattle.slab.specs.Slab.{Slab as Places};
    ghost use Rattle.milter_service.specs.MailServerStates.{MailServerState};

    // Who is connected, each in a place.
    ghost Value = { Places (MailServerState S) };

    ghost view = { λ c. c.connected };
}

impl<S: Drop> MailServers<S> {
    ghost use Rattle.std.specs.Prelude.{ℕ};
    ghost use Rattle.slab.specs.Slab.{get};
    ghost use Rattle.milter_service.specs.MailServerStates.{HasQuestion, answered_by, MailServerState};

    /// No mail servers. Doesn't allocate.
    pub(crate) fn new(alloc: Global) -> Self {
        MailServers {
            connected: Slab::new(alloc),
            queue: VecDeque::new(alloc),
        }
    }

    /// How many there are.
    pub(crate) fn len(&self) -> usize {
        self.connected.len()
    }

    /// Whether there is none.
    pub(crate) fn is_empty(&self) -> bool {
        self.connected.is_empty()
    }

    /// The place of the next mail server that is added.
    pub(crate) fn next_place(&self) -> usize {
        self.connected.vacant_key()
    }

    /// Adds a mail server, or gives it back where memory is refused.
    pub(crate) fn add(&mut self, mail_server: MailServer<S>) -> Result<(), MailServer<S>> {
        match self.connected.insert(mail_server) {
            Ok(_) => Ok(()),
            Err(failed) => Err(failed.value),
        }
    }

    /// The mail server in this place.
    pub(crate) fn at_mut(&mut self, place: usize) -> Option<&mut MailServer<S>> {
        self.connected.get_mut(place)
    }

    /// The mail server whose connection has this name; `None` where it has ended.
    pub(crate) fn get(&self, key: Key) -> Option<&MailServer<S>>
        ensures found { (peer : MailServerState S) → get self.now key.place ≡ Some peer → peer.number ≡ key.number →
            option_copied result ≡ Some peer }
        ensures other { (peer : MailServerState S) → get self.now key.place ≡ Some peer → peer.number ≢ key.number →
            result ≡ None }
        ensures gone { get self.now key.place ≡ None → result ≡ None }
    {
        let mail_server = self.connected.get(key.place)?;
        if mail_server.number == key.number {
            Some(mail_server)
        } else {
            None
        }
    }

    /// Removes the mail server in this place.
    pub(crate) fn remove(&mut self, place: usize) -> Option<MailServer<S>> {
        self.connected.try_remove(place)
    }

    /// Gives back the memory for mail servers that have ended. Those that are connected stay as they are.
    pub(crate) fn shrink(&mut self)
        ensures { (place : ℕ) → get self.new place ≡ get self.old place }
    {
        self.connected.shrink_to_fit();
        self.queue.shrink_to_fit();
    }

    /// How many wait for their turns.
    pub(crate) fn waiting(&self) -> usize {
        self.queue.len()
    }

    /// The place of the mail server that has waited longest for its turn.
    pub(crate) fn next_in_turn(&mut self) -> Option<usize> {
        self.queue.pop_front()
    }

    /// Has a mail server wait for its turn.
    pub(crate) fn enqueue(&mut self, place: usize) -> Result<(), ServiceError>
        ensures { (other : ℕ) → get self.new other ≡ get self.old other }
    {
        let Some(mail_server) = self.connected.get_mut(place) else {
            return Ok(());
        };
        if !mail_server.is_queued {
            mail_server.is_queued = true;
            if self.queue.push_back(place).is_err() {
                return Err(ServiceError::NoMemory);
            }
        }
        Ok(())
    }

    /// What the host keeps of a connection; `None` where that has ended. Doesn't allocate.
    pub fn session(&self, key: Key) -> Option<&S>
        ensures found { (peer : MailServerState S) → get self.now key.place ≡ Some peer → peer.number ≡ key.number →
            option_copied result ≡ Some peer.session }
        ensures other { (peer : MailServerState S) → get self.now key.place ≡ Some peer → peer.number ≢ key.number →
            result ≡ None }
        ensures gone { get self.now key.place ≡ None → result ≡ None }
    {
        let mail_server = self.get(key)?;
        Some(&mail_server.session)
    }

    /// What is shown of a connection; `None` where that has ended. Doesn't allocate.
    pub fn seen(&self, key: Key) -> Option<&Seen>
        ensures found { (peer : MailServerState S) → get self.now key.place ≡ Some peer → peer.number ≡ key.number →
            option_map (λ seen. seen.now.shown) result
            ≡ Some peer.connection.conversation.state.order_state.shown.seen }
        ensures other { (peer : MailServerState S) → get self.now key.place ≡ Some peer → peer.number ≢ key.number →
            result ≡ None }
        ensures gone { get self.now key.place ≡ None → result ≡ None }
    {
        let mail_server = self.get(key)?;
        Some(mail_server.connection.seen())
    }

    /// Gives the answer to a question, where that is open: it is sent in the connection's next turn. An error is that
    /// memory was refused for the service itself.
    pub fn give(&mut self, question: QuestionKey, answer: Answer) -> Result<Given, ServiceError>
        ensures taken { IfOk result (λ given. given ≡ givens.Taken → (peer : MailServerState S) →
            get self.old question.connection.place ≡ Some peer →
            get self.new question.connection.place ≡ Some (answered_by peer answer)) }
        ensures unchanged { IfOk result (λ given. given ≢ givens.Taken →
            (place : ℕ) → get self.new place ≡ get self.old place) }
        // No other mail server is touched, whatever becomes of the answer.
        ensures others { (place : ℕ) → place ≢ question.connection.place → get self.new place ≡ get self.old place }
        ensures asked { (peer : MailServerState S) → get self.old question.connection.place ≡ Some peer →
            IfOk result (λ given. (given ≢ givens.TooLate) ↔ HasQuestion peer question) }
        ensures gone { get self.old question.connection.place ≡ None → result ≡ Ok givens.TooLate }
    {
        let place = question.connection.place;
        let given = match self.connected.get_mut(place) {
            Some(mail_server) => mail_server.give(question, answer),
            None => Given::TooLate,
        };
        if given == Given::Taken {
            self.enqueue(place)?;
        }
        Ok(given)
    }

    /// Gives this verdict to the question of the mail server in this place; `Tempfail` instead where it isn't taken.
    /// Where memory is refused the question stays open.
    pub(crate) fn give_default(
        &mut self,
        alloc: Global,
        place: usize,
        verdict: Verdict,
    ) -> Result<(), ServiceError> {
        let Some(mail_server) = self.connected.get_mut(place) else {
            return Ok(());
        };
        mail_server.answer_by_default(alloc, verdict);
        self.enqueue(place)
    }
}
