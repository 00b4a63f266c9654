//! Where a connection is in a session.

use milter_mail::{CHUNK_LEN, Message, Session};
use milter_mta_connection::{CallFault, CallOutcome, MtaConnection};
use milter_wire::Stage;

/// What comes next on a connection.
#[derive(Clone, Copy, PartialEq, Eq)]
pub(crate) enum Step {
    /// The client connects.
    Connect,
    /// It greets.
    Helo,
    /// The sender of the next message.
    Mail,
    /// The recipient with this number, from 0.
    Rcpt(usize),
    /// DATA.
    Data,
    /// The header field with this number, from 0.
    Header(usize),
    /// The end of the header.
    Eoh,
    /// What is left of the body from here on.
    Body(usize),
    /// The end of the message.
    End,
}

impl Step {
    /// Its stage. Doesn't allocate.
    pub(crate) fn stage(self) -> Stage {
        match self {
            Step::Connect => Stage::Connect,
            Step::Helo => Stage::Helo,
            Step::Mail => Stage::Mail,
            Step::Rcpt(_) => Stage::Rcpt,
            Step::Data => Stage::DataCmd,
            Step::Header(_) => Stage::Header,
            Step::Eoh => Stage::Eoh,
            Step::Body(_) => Stage::Body,
            Step::End => Stage::Eob,
        }
    }

    /// What comes after it, in a message. Doesn't allocate.
    pub(crate) fn next(self, message: &Message) -> Step {
        match self {
            Step::Connect => Step::Helo,
            Step::Helo => Step::Mail,
            Step::Mail => Step::Rcpt(0),
            Step::Rcpt(number) => after_recipient(message, number.saturating_add(1)),
            Step::Data => header_from(message, 0),
            Step::Header(number) => header_from(message, number.saturating_add(1)),
            Step::Eoh => body_from(message, 0),
            Step::Body(from) => body_from(message, from.saturating_add(CHUNK_LEN)),
            Step::End => Step::Mail,
        }
    }

    /// Calls the connection with it.
    pub(crate) fn call(
        self,
        connection: &mut MtaConnection,
        session: &Session,
        message: &Message,
    ) -> Result<CallOutcome, CallFault> {
        let macros = session.macros().before(self.stage());
        match self {
            Step::Connect => connection.connect(session.client().as_ref(), macros),
            Step::Helo => connection.helo(session.helo().as_slice(), macros),
            Step::Mail => connection.mail(message.sender().as_ref(), macros),
            Step::Rcpt(number) => match message.recipients().get(number) {
                Some(recipient) => connection.rcpt(recipient.as_ref(), macros),
                None => Ok(CallOutcome::LeftOut),
            },
            Step::Data => connection.data(macros),
            Step::Header(number) => match message.headers().get(number) {
                Some(header) => connection.header(header.as_ref()),
                None => Ok(CallOutcome::LeftOut),
            },
            Step::Eoh => connection.eoh(macros),
            Step::Body(from) => connection.body(chunk_from(message.body(), from)),
            Step::End => connection.end(macros),
        }
    }
}

/// The recipient with this number, or what comes after the last one.
fn after_recipient(message: &Message, number: usize) -> Step {
    if number < message.recipients().len() {
        Step::Rcpt(number)
    } else {
        Step::Data
    }
}

/// The header field with this number, or what comes after the last one.
fn header_from(message: &Message, number: usize) -> Step {
    if number < message.headers().len() {
        Step::Header(number)
    } else {
        Step::Eoh
    }
}

/// What is left of the body from here on, or what comes after it.
fn body_from(message: &Message, from: usize) -> Step {
    if from < message.body().len() {
        Step::Body(from)
    } else {
        Step::End
    }
}

/// The chunk of a body that begins here.
fn chunk_from(body: &[u8], from: usize) -> &[u8] {
    let (_, rest) = body.split_at(from.min(body.len()));
    let (chunk, _) = rest.split_at(rest.len().min(CHUNK_LEN));
    chunk
}
