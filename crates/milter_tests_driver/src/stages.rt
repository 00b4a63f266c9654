//! A session that is shown to a filter stage by stage, as a mail server does with one filter.

use anyhow::bail;
use milter_filter::{FilterCore, Pass};
use milter_mail::{CHUNK_LEN, Message, Session};
use milter_mail_file::read_session;
use milter_mta_connection::{CallFault, CallOutcome, FilterEvent, MtaConnection};
use milter_wire::{Actions, Options, Protocol, Verdict};
use std::alloc::Global;

/// An offer of no action and no protocol bit, so that each command is sent and answered.
const OFFER: Options = Options {
    version: 6,
    actions: Actions(0),
    protocol: Protocol(0),
};

/// What is pending comes to the filter, and its replies to the mail server's end.
fn exchange(
    connection: &mut MtaConnection,
    filter: &mut FilterCore<'_, Pass>,
) -> anyhow::Result<FilterEvent> {
    let len = connection.pending().len();
    if filter.feed(connection.pending())? != len {
        bail!("the filter's replies wait to be sent");
    }
    connection.sent(len);
    let came = filter.pending().len();
    let fed = connection.feed(filter.pending());
    filter.sent(came);
    match fed.loss {
        Some(loss) => bail!("{loss}"),
        None => Ok(fed.event),
    }
}

/// Shows the filter what a call queued, which it lets go on.
fn ask(
    connection: &mut MtaConnection,
    filter: &mut FilterCore<'_, Pass>,
    outcome: Result<CallOutcome, CallFault>,
) -> anyhow::Result<()> {
    match (outcome?, exchange(connection, filter)?) {
        (CallOutcome::VerdictDue, FilterEvent::Verdict(Verdict::Continue)) => Ok(()),
        _ => bail!("the filter doesn't let it go on"),
    }
}

/// Makes the offer, and shows the client.
fn open(
    connection: &mut MtaConnection,
    filter: &mut FilterCore<'_, Pass>,
    session: &Session,
) -> anyhow::Result<()> {
    if exchange(connection, filter)? != FilterEvent::Negotiated {
        bail!("nothing was negotiated");
    }
    let outcome = connection.connect(session.client().as_ref(), &[]);
    ask(connection, filter, outcome)?;
    let outcome = connection.helo(session.helo().as_slice(), &[]);
    ask(connection, filter, outcome)
}

/// Shows the sender and the recipients of a message, and that its data follow.
fn show_envelope(
    connection: &mut MtaConnection,
    filter: &mut FilterCore<'_, Pass>,
    message: &Message,
) -> anyhow::Result<()> {
    let outcome = connection.mail(message.sender().as_ref(), &[]);
    ask(connection, filter, outcome)?;
    for recipient in message.recipients() {
        let outcome = connection.rcpt(recipient.as_ref(), &[]);
        ask(connection, filter, outcome)?;
    }
    let outcome = connection.data(&[]);
    ask(connection, filter, outcome)
}

/// Shows the header fields of a message, and their end.
fn show_header(
    connection: &mut MtaConnection,
    filter: &mut FilterCore<'_, Pass>,
    message: &Message,
) -> anyhow::Result<()> {
    for header in message.headers() {
        let outcome = connection.header(header.as_ref());
        ask(connection, filter, outcome)?;
    }
    let outcome = connection.eoh(&[]);
    ask(connection, filter, outcome)
}

/// Shows a message.
fn show_message(
    connection: &mut MtaConnection,
    filter: &mut FilterCore<'_, Pass>,
    message: &Message,
) -> anyhow::Result<()> {
    show_envelope(connection, filter, message)?;
    show_header(connection, filter, message)?;
    for chunk in message.body().chunks(CHUNK_LEN) {
        let outcome = connection.body(chunk);
        ask(connection, filter, outcome)?;
    }
    let outcome = connection.end(&[]);
    ask(connection, filter, outcome)
}

/// Shows a filter the client and each message of a session, one after the other.
fn show_session(
    connection: &mut MtaConnection,
    filter: &mut FilterCore<'_, Pass>,
    session: &Session,
) -> anyhow::Result<()> {
    open(connection, filter, session)?;
    for message in session.messages() {
        show_message(connection, filter, message)?;
    }
    Ok(())
}

/// Shows a new filter a session over this connection.
fn show(alloc: Global, connection: &mut MtaConnection, session: &Session) -> anyhow::Result<()> {
    let mut filter = FilterCore::new(alloc, &Pass)?;
    show_session(connection, &mut filter, session)
}

/// Shows a filter the session of a file, and answers how many messages it has.
pub fn count_shown(alloc: Global, file: &[u8]) -> anyhow::Result<usize> {
    let session = read_session(alloc, file)?;
    let mut connection = MtaConnection::new(alloc, OFFER)?;
    show(alloc, &mut connection, &session)?;
    Ok(session.messages().len())
}
