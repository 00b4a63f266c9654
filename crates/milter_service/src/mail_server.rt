//! A mail server that is connected.

ghost use Rattle.std.specs.Prelude.{◌≡◌, ◌≢◌, ◌<◌, ◌↔◌, IfSome, IsTrue, None, OnErr, OnOk, length};
ghost use Rattle.milter_filter.specs.Connections.{TurnsBy};
ghost use Rattle.milter_filter.specs.declared.turn.Turn.TheVariants as turns;
ghost use Rattle.milter_service.specs.declared.mail_servers.Given.TheVariants as givens;

use crate::asked_connection::AskedConnection;
use crate::host::Host;
use crate::key::{Key, QuestionKey};
use crate::mail_servers::Given;
use crate::service::Limits;
use milter_filter::{Answer, AnswerFault, Connection, FilterFault, Served, Turn};
use milter_sockets::Stream;
use milter_wire::{Stage, Verdict};
use std::alloc::Global;
use std::marker::Model;

/// The most questions that are answered in one turn of a mail server, before the others have theirs.
const QUESTIONS_MAX: u32 = 256;

/// A question that its host has.
#[derive(Clone, Copy)]
pub(crate) struct OpenQuestion {
    /// The second at which the host was asked.
    since: u64,
    /// The second at which progress was last reported on it, or at which the host was asked.
    reported: u64,
}

/// What a mail server needs next.
#[derive(Clone, Copy)]
pub(crate) enum Next {
    /// Another turn, behind the others.
    Turn,
    /// Nothing, until its socket is ready or its question is answered.
    Wait,
    /// It is to be closed, since the connection ended so.
    Close(Served),
}

/// What is to be done about a mail server that has had no turn for a while.
#[derive(Clone, Copy)]
pub(crate) enum Due {
    /// Nothing.
    Nothing,
    /// Its memory for a packet isn't needed now.
    Release,
    /// Progress is to be reported on its question.
    Progress,
    /// Its question, about this stage, is to be answered by default.
    Default(Stage),
    /// It is to be closed.
    Close,
}

/// A mail server that is connected, and what the host keeps of it.
#[derive(Drop)]
pub(crate) struct MailServer<S: Drop> {
    pub(crate) stream: Stream,
    pub(crate) connection: AskedConnection,
    pub(crate) session: S,
    /// The number of its connection.
    pub(crate) number: u32,
    /// The second at which it last had a turn.
    pub(crate) last: u64,
    /// Whether it had a turn since the last look at all mail servers.
    pub(crate) is_active: bool,
    /// Whether it waits for its turn.
    pub(crate) is_queued: bool,
    /// Whether the mail server sends no more, or has hung up.
    pub(crate) is_closed: bool,
    /// How many questions the host was asked.
    pub(crate) count: u64,
    /// The question that the host has.
    pub(crate) question: Option<OpenQuestion>,
}

impl<S: Drop> Model for MailServer<S> {
    ghost use Rattle.std.specs.Prelude.{option_map};
    ghost use Rattle.milter_service.specs.MailServerStates.{MailServerState};

    ghost Value = { MailServerState S };

    ghost view = { λ c. record {
      number = c.number;
      connection = c.connection;
      session = c.session;
      question = option_map (λ _. c.count) c.question;
    } };
}

impl<S: Drop> MailServer<S> {
    ghost use Rattle.milter_service.specs.MailServerStates.{HasQuestion, answered_by};

    /// A mail server that has just connected.
    pub(crate) fn new(
        stream: Stream,
        connection: Connection,
        session: S,
        number: u32,
        second: u64,
    ) -> Self {
        MailServer {
            stream,
            connection: AskedConnection { inner: connection },
            session,
            number,
            last: second,
            is_active: true,
            is_queued: false,
            is_closed: false,
            count: 0,
            question: None,
        }
    }

    /// What the host keeps of it; the rest is dropped.
    pub(crate) fn into_session(self) -> S {
        let MailServer {
            stream,
            connection,
            session,
            ..
        } = self;
        drop(stream);
        drop(connection);
        session
    }

    /// Gives it a turn over its socket, as [`Connection::turn`] says. Of a socket nothing is known of what there is to
    /// read and of what was written: the clauses say what the connection takes and replies.
    pub(crate) fn run_turn(&mut self, buffer: &mut [u8]) -> Turn
        requires { 0 < length buffer.old }
        ensures turns { self.old.connection.ended ≡ None →
            TurnsBy self.old.connection None None None None self.new.connection result }
        ensures ended { IfSome self.old.connection.ended (λ end. (result ≡ turns.Ended end)
            × (self.new.connection ≡ self.old.connection)) }
    {
        let connection = &mut self.connection.inner;
        match &self.stream {
            Stream::Inet(stream) => connection.turn(buffer, &mut &*stream, &mut &*stream),
            Stream::Unix(stream) => connection.turn(buffer, &mut &*stream, &mut &*stream),
        }
    }

    /// Gives it turns as long as the host answers at once, up to [`QUESTIONS_MAX`] times.
    pub(crate) fn run_turns<H: Host<Session = S>>(
        &mut self,
        place: usize,
        second: u64,
        buffer: &mut [u8],
        host: &mut H,
    ) -> Next
        requires { 0 < length buffer.old }
    {
        self.is_queued = false;
        self.is_active = true;
        self.last = second;
        for _ in 0..QUESTIONS_MAX {
            match self.run_turn(buffer) {
                Turn::Again => return Next::Turn,
                Turn::AwaitsInput | Turn::AwaitsOutput => return Next::Wait,
                Turn::Ended(served) => return Next::Close(served),
                Turn::AwaitsAnswer(_) => match self.ask(place, second, host) {
                    Some(next) => return next,
                    None => {}
                },
            }
        }
        Next::Turn
    }

    /// Asks the host, where it has not the question that is open. `None` where it answers at once.
    fn ask<H: Host<Session = S>>(
        &mut self,
        place: usize,
        second: u64,
        host: &mut H,
    ) -> Option<Next> {
        if self.question.is_none() {
            let question = self.begin_question(place, second);
            if host
                .asked(question, &mut self.session, &mut self.connection)
                .is_err()
            {
                return Some(Next::Close(Served::Failed(FilterFault::NoMemory)));
            }
            if self.connection.asked().is_none() {
                self.question = None;
                return None;
            }
        }
        if self.is_closed {
            return Some(Next::Close(Served::ReadFault));
        }
        Some(Next::Wait)
    }

    /// Gives the answer to a question, where that is open.
    pub(crate) fn give(&mut self, question: QuestionKey, answer: Answer) -> Given
        ensures taken { result ≡ givens.Taken → self.new ≡ answered_by self.old answer }
        ensures unchanged { result ≢ givens.Taken → self.new ≡ self.old }
        ensures asked { (result ≢ givens.TooLate) ↔ HasQuestion self.old question }
    {
        if !self.has(question) {
            return Given::TooLate;
        }
        match self.answer(answer) {
            Ok(()) => Given::Taken,
            Err(fault) => Given::Refused(fault),
        }
    }

    /// Whether the host has this question.
    fn has(&self, question: QuestionKey) -> bool
        ensures { IsTrue result ↔ HasQuestion self.now question }
    {
        self.question.is_some()
            && self.number == question.connection.number
            && self.count == question.count
    }

    /// Answers the question that is open.
    fn answer(&mut self, answer: Answer) -> Result<(), AnswerFault>
        ensures ok { OnOk result (self.new ≡ answered_by self.old answer) }
        ensures err { OnErr result (self.new ≡ self.old) }
    {
        self.connection.answer(answer)?;
        self.question = None;
        Ok(())
    }

    /// Gives this verdict to the question that is open, or `Tempfail` where it breaks a rule.
    pub(crate) fn answer_by_default(&mut self, alloc: Global, verdict: Verdict) {
        match self.answer(Answer::of_verdict(alloc, verdict)) {
            Ok(()) | Err(AnswerFault::NoMemory) => {}
            Err(_) => {
                let _ = self.answer(Answer::of_verdict(alloc, Verdict::Tempfail));
            }
        }
    }

    /// Has the question that is open be one that the host has.
    fn begin_question(&mut self, place: usize, second: u64) -> QuestionKey {
        self.count = self.count.wrapping_add(1);
        self.question = Some(OpenQuestion {
            since: second,
            reported: second,
        });
        QuestionKey {
            connection: Key {
                place,
                number: self.number,
            },
            count: self.count,
        }
    }

    /// What is to be done about it at a look at this second.
    pub(crate) fn due(&mut self, second: u64, limits: &Limits) -> Due {
        let was_active = self.is_active;
        self.is_active = false;
        if let (Some(question), Some(stage)) = (&self.question, self.connection.asked()) {
            return question.due(second, stage, limits);
        }
        if second.saturating_sub(self.last) > limits.timeout {
            return Due::Close;
        }
        if was_active {
            Due::Nothing
        } else {
            Due::Release
        }
    }

    /// Reports progress at this second; where memory is refused, at the next look.
    pub(crate) fn report_progress(&mut self, second: u64) {
        if self.connection.inner.progress().is_ok() {
            if let Some(question) = &mut self.question {
                question.reported = second;
            }
        }
    }
}

impl OpenQuestion {
    ghost use Rattle.std.specs.Prelude.{◌≤◌, ◌-◌, ◌⊎◌};
    ghost use Rattle.milter_wire.specs.declared.stage.Stage.TheVariants.{Eob};
    ghost use Rattle.milter_service.specs.declared.mail_server.Due.TheVariants as dues;

    /// What is to be done about this question, which is about this stage.
    fn due(&self, second: u64, stage: Stage, limits: &Limits) -> Due
        ensures default { limits.now.answer ≤ second - self.now.since → result ≡ dues.Default stage }
        ensures progress { second - self.now.since < limits.now.answer → stage ≡ Eob → 0 < limits.now.progress →
            limits.now.progress ≤ second - self.now.reported → result ≡ dues.Progress }
        ensures waits { second - self.now.since < limits.now.answer →
            (stage ≢ Eob) ⊎ (limits.now.progress ≡ 0) ⊎ (second - self.now.reported < limits.now.progress) →
            result ≡ dues.Release }
    {
        if second.saturating_sub(self.since) >= limits.answer {
            return Due::Default(stage);
        }
        let reports = stage == Stage::Eob && limits.progress > 0;
        if reports && second.saturating_sub(self.reported) >= limits.progress {
            return Due::Progress;
        }
        Due::Release
    }
}
